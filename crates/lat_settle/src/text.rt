//! What is printed of rounds.

ghost use Rattle.std.specs.Prelude.{◌≡◌, ◌<◌, ◌^◌, ◌++◌, OnOk, IfOk, string_bytes};
ghost use Rattle.lat_replay.specs.Kept.{moment_of, setups_of};
ghost use Rattle.lat_replay.specs.Played.{State, StandsAt};
ghost use Rattle.lat_settle.specs.Rounds.{rounds_moment};
ghost use Rattle.lat_settle.specs.Texts.{Prints, lossless_text, round_text};

use crate::settling::{Unsettled, run_rounds};
use lat_base::Memory;
use lat_replay::{RatingRule, World, refused_of};
use lat_text::flag_text;
use lat_wire::{Refused, why_onto};
use std::alloc::{AllocError, Global};

// Adds the line that says whether nothing was lost.
fn lossless_onto(text: &mut String, lossless: bool) -> Result<(), AllocError>
    ensures { OnOk result (string_bytes text.new
        ≡ string_bytes text.old ++ lossless_text lossless) }
{
    let flag = flag_text(lossless);
    write!(text, "lossless {flag}\n")
}

// Adds the line that says why a round was refused.
fn round_onto(text: &mut String, round: u32, refused: Refused) -> Result<(), AllocError>
    ensures { OnOk result (string_bytes text.new
        ≡ string_bytes text.old ++ round_text round refused) }
{
    write!(text, "round {round} ")?;
    why_onto(text, refused)?;
    text.push_str("\n")
}

/// Runs so many rounds, as `run_rounds` does, and adds to a text what `lat settle` prints of them: whether nothing was lost
/// before, and the report of the world behind the rounds, with the status 0; or the one line of the round in which an event is
/// refused, with the status 6 for the number of frames, else 3. `docs/FORMATS.md` has these lines under "Rounds". `Memory`
/// where none is found, or where a count isn't exact any more; then a part of it may stand in the text, and the world is
/// behind some good events.
pub fn settle_onto<H: RatingRule>(
    alloc: Global,
    world: &mut World<H>,
    rounds: u32,
    text: &mut String,
) -> Result<u8, Memory>
    requires { rounds_moment (setups_of world.old) (moment_of world.old) rounds < 2 ^ 64 }
    ensures prints { IfOk result (λ status. (s : State) →
        StandsAt world.old s →
        Prints (setups_of world.old) s rounds status (string_bytes text.old)
        (string_bytes text.new) world.new) }
    ensures setups { setups_of world.new ≡ setups_of world.old }
{
    let lossless = world.lossless();
    match run_rounds(alloc, world, rounds) {
        Ok(()) => {
            lossless_onto(text, lossless)?;
            world.report(alloc, text)?;
            Ok(0)
        }
        Err(Unsettled { round, fault }) => {
            let refused = refused_of(fault)?;
            round_onto(text, round, refused)?;
            Ok(refused.status())
        }
    }
}
