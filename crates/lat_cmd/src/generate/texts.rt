//! The text of a generated schedule, and what it comes to.

ghost use Rattle.std.specs.Prelude.{◌≡◌, ◌≤◌, ◌++◌, IfOk, OnOk, string_bytes};
ghost use Rattle.lat_replay.specs.Kept.{setups_of};
ghost use Rattle.lat_replay.specs.Played.{StandsAt};
ghost use Rattle.lat_wire.specs.Rates.{RatesWhatIsLeft};
ghost use Rattle.lat_cmd.specs.generate.Front.{end_text};
ghost use Rattle.lat_cmd.specs.generate.Grown.{setups, begun, grown, gen_text, counts_text, bench_line, bench_text};
ghost use Rattle.lat_cmd.specs.generate.Growths.{StandsFor};

use crate::generate::front::END;
use crate::generate::growth::Growth;
use lat_base::{Event, Memory};
use lat_node::RatingRule;
use lat_replay::{Counts, World};
use lat_schedule::WorldEvent;
use std::alloc::{AllocError, Global};

/// How many turns follow the first two events.
const TURNS: u64 = 4000;

// The node announces itself, and the server hears it.
fn begun<H: RatingRule>(
    alloc: Global,
    seed: u64,
    rule: H,
    writes: bool,
) -> Result<Growth<H>, Memory>
    requires fact { H.fact rule }
    requires rates { RatesWhatIsLeft (H.may rule) }
    ensures shows { IfOk result (λ growth. StandsFor growth (begun seed)) }
    ensures start { IfOk result (λ growth.
        (growth.events ≤ 2) × (growth.generator.moment ≡ 0) × (growth.writes ≡ writes)) }
{
    let mut growth = Growth::make(alloc, seed, rule, writes)?;
    let announce = WorldEvent::Local {
        server: false,
        event: Event::Announce,
    };
    growth.told(alloc, &announce)?;
    growth.told(alloc, &WorldEvent::Deliver { index: 0 })?;
    Ok(growth)
}

// The whole schedule, and its text where it is to be written.
fn grown<H: RatingRule>(
    alloc: Global,
    seed: u64,
    rule: H,
    writes: bool,
) -> Result<Growth<H>, Memory>
    requires fact { H.fact rule }
    requires rates { RatesWhatIsLeft (H.may rule) }
    ensures shows { IfOk result (λ growth. StandsFor growth (grown seed)) }
    ensures writes { IfOk result (λ growth. growth.writes ≡ writes) }
{
    let mut growth = begun(alloc, seed, rule, writes)?;
    for _ in 0..TURNS {
        growth.turn(alloc)?;
    }
    Ok(growth)
}

// Appends the last line.
fn end_onto(text: &mut String) -> Result<(), AllocError>
    ensures { OnOk result (string_bytes text.new ≡ string_bytes text.old ++ end_text) }
{
    text.push_str(END)
}

/// The schedule that is generated from a number, and the world of its events. `docs/FORMATS.md`, "Generated schedules", has the
/// draws and the turns. `Memory` where none is found.
pub fn generated<H: RatingRule>(
    alloc: Global,
    seed: u64,
    rule: H,
) -> Result<(String, World<H>), Memory>
    requires fact { H.fact rule }
    requires rates { RatesWhatIsLeft (H.may rule) }
    ensures text { IfOk result (λ made. string_bytes made.0 ≡ gen_text seed) }
    ensures setups { IfOk result (λ made. setups_of made.1 ≡ setups) }
    ensures world { IfOk result (λ made. StandsAt made.1 (grown seed).state) }
{
    let whole = grown(alloc, seed, rule, true)?;
    let Growth {
        world,
        mut text,
        ..
    } = whole;
    end_onto(&mut text)?;
    Ok((text, world))
}

// Appends what a world came to.
#[tactic(auto, unfolding(crate::specs::generate::Grown::counts_text))]
fn counts_onto(text: &mut String, counts: Counts) -> Result<(), AllocError>
    ensures { OnOk result (string_bytes text.new ≡ string_bytes text.old ++ counts_text counts) }
{
    let Counts {
        frames,
        sessions,
        put,
        taken,
    } = counts;
    write!(
        text,
        " frames {frames} sessions {sessions} put {put} taken {taken}\n"
    )
}

// The line of so many events.
fn bench_line(alloc: Global, seed: u64, events: u64, counts: Counts) -> Result<String, AllocError>
    ensures { IfOk result (λ text. string_bytes text ≡ bench_line seed events counts) }
{
    let mut text = format!(in alloc; "bench {seed} events {events}")?;
    counts_onto(&mut text, counts)?;
    Ok(text)
}

/// What the schedule that is generated from a number comes to, in one line, and the world of its events. `docs/FORMATS.md`,
/// "Generated schedules", has the line. `Memory` where none is found.
pub fn benched<H: RatingRule>(
    alloc: Global,
    seed: u64,
    rule: H,
) -> Result<(String, World<H>), Memory>
    requires fact { H.fact rule }
    requires rates { RatesWhatIsLeft (H.may rule) }
    ensures text { IfOk result (λ made. string_bytes made.0 ≡ bench_text seed) }
    ensures setups { IfOk result (λ made. setups_of made.1 ≡ setups) }
    ensures world { IfOk result (λ made. StandsAt made.1 (grown seed).state) }
{
    let whole = grown(alloc, seed, rule, false)?;
    let Growth { world, events, .. } = whole;
    let text = bench_line(alloc, seed, events, world.counts())?;
    Ok((text, world))
}
