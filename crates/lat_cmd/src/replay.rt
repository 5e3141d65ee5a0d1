//! What `replay` comes to.

ghost use Rattle.std.specs.Prelude.{◌≡◌, None, IfOk};
ghost use Rattle.lat_wire.specs.Rates.{RatesWhatIsLeft};
ghost use Rattle.lat_replay.specs.Kept.{setups_of};
ghost use Rattle.lat_replay.specs.Played.{State, StandsAt};
ghost use Rattle.lat_cmd.specs.Answers.{reported, replay_of};
ghost use Rattle.lat_cmd.specs.Befores.{shown, text_before};
ghost use Rattle.lat_cmd.specs.Outcomes.{IsOutcome};

use crate::course::{Course, course_of};
use crate::outcome::Outcome;
use lat_base::Memory;
use lat_node::RatingRule;
use lat_replay::World;
use std::alloc::Global;

// The report of a world.
fn reported<H: RatingRule>(alloc: Global, world: World<H>) -> Result<Outcome<H>, Memory>
    ensures answer { IfOk result (λ o.
        (t : State) → StandsAt world t → IsOutcome (reported (setups_of world) t) o) }
    ensures before { IfOk result (λ o. o.before ≡ None) }
{
    let text = world.reported(alloc)?;
    Ok(Outcome::done(text, world))
}

/// Plays the schedule that an input is, and reports what became of it.
pub(crate) fn replay<H: RatingRule>(
    alloc: Global,
    rule: H,
    input: &[u8],
) -> Result<Outcome<H>, Memory>
    requires fact { H.fact rule }
    requires rates { RatesWhatIsLeft (H.may rule) }
    ensures answer { IfOk result (λ o. IsOutcome (replay_of input.now) o) }
    ensures before { IfOk result (λ o. shown o.before ≡ text_before input.now) }
{
    match course_of(alloc, rule, input)? {
        Course::Through(world) => reported(alloc, world),
        Course::Stopped(outcome) => Ok(outcome),
    }
}
