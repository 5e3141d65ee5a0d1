//! What `capture` comes to.

ghost use Rattle.std.specs.Prelude.{◌≡◌, None, IfOk};
ghost use Rattle.lat_audit.specs.CapturedText.{AuditIsLegal};
ghost use Rattle.lat_wire.specs.Rates.{RatesWhatIsLeft};
ghost use Rattle.lat_replay.specs.Kept.{setups_of};
ghost use Rattle.lat_replay.specs.Played.{State, StandsAt};
ghost use Rattle.lat_cmd.specs.Answers.{captured, capture_of};
ghost use Rattle.lat_cmd.specs.Laws.{CaptureIsLegal};
ghost use Rattle.lat_cmd.specs.Befores.{shown, text_before};
ghost use Rattle.lat_cmd.specs.Outcomes.{IsOutcome};

use crate::course::{Course, course_of};
use crate::outcome::Outcome;
use lat_base::Memory;
use lat_node::RatingRule;
use lat_replay::World;
use std::alloc::Global;

// What is captured of a circuit of the server in a world.
fn captured<H: RatingRule>(
    alloc: Global,
    world: World<H>,
    circuit: u16,
) -> Result<Outcome<H>, Memory>
    ensures answer { IfOk result (λ o.
        (t : State) → StandsAt world t → IsOutcome (captured circuit (setups_of world) t) o) }
    ensures legal { IfOk result (λ o.
        (t : State) → StandsAt world t → AuditIsLegal (setups_of world) t.machines circuit) }
    ensures before { IfOk result (λ o. o.before ≡ None) }
{
    let text = lat_audit::captured(alloc, world.wire(), circuit)?;
    Ok(Outcome::done(text, world))
}

/// Plays the schedule that an input is, and prints what is captured of a circuit of the server.
pub(crate) fn capture<H: RatingRule>(
    alloc: Global,
    rule: H,
    input: &[u8],
    circuit: u16,
) -> Result<Outcome<H>, Memory>
    requires fact { H.fact rule }
    requires rates { RatesWhatIsLeft (H.may rule) }
    ensures answer { IfOk result (λ o. IsOutcome (capture_of circuit input.now) o) }
    ensures legal { IfOk result (λ o. CaptureIsLegal circuit input.now) }
    ensures before { IfOk result (λ o. shown o.before ≡ text_before input.now) }
{
    match course_of(alloc, rule, input)? {
        Course::Through(world) => captured(alloc, world, circuit),
        Course::Stopped(outcome) => Ok(outcome),
    }
}
