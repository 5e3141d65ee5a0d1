//! What `settle` comes to.

ghost use Rattle.std.specs.Prelude.{◌≡◌, ◌<◌, ◌≤◌, ◌^◌, None, IfOk};
ghost use Rattle.lat_settle.specs.Rounds.{rounds_moment};
ghost use Rattle.lat_wire.specs.Rates.{RatesWhatIsLeft};
ghost use Rattle.lat_replay.specs.Kept.{moment_of, setups_of};
ghost use Rattle.lat_replay.specs.Played.{State, StandsAt};
ghost use Rattle.lat_cmd.specs.Answers.{settled, settle_of};
ghost use Rattle.lat_cmd.specs.Laws.{SettleTakesAll};
ghost use Rattle.lat_cmd.specs.Befores.{shown, text_before};
ghost use Rattle.lat_cmd.specs.Outcomes.{IsOutcome};

use crate::course::{Course, course_of};
use crate::outcome::Outcome;
use lat_base::Memory;
use lat_node::RatingRule;
use lat_replay::World;
use lat_settle::settle_onto;
use std::alloc::Global;

// What rounds of a world come to.
fn settled<H: RatingRule>(
    alloc: Global,
    mut world: World<H>,
    rounds: u32,
) -> Result<Outcome<H>, Memory>
    requires { rounds_moment (setups_of world) (moment_of world) rounds < 2 ^ 64 }
    ensures answer { IfOk result (λ o.
        (t : State) → StandsAt world t → IsOutcome (settled rounds (setups_of world) t) o) }
    ensures before { IfOk result (λ o. o.before ≡ None) }
{
    let mut text = String::new(alloc);
    let status = settle_onto(alloc, &mut world, rounds, &mut text)?;
    if status == 0 {
        Ok(Outcome::done(text, world))
    } else {
        Ok(Outcome::plain(status, text))
    }
}

/// Plays the schedule that an input is, runs so many rounds behind it, and reports what became of it.
pub(crate) fn settle<H: RatingRule>(
    alloc: Global,
    rule: H,
    input: &[u8],
    rounds: u32,
) -> Result<Outcome<H>, Memory>
    requires fact { H.fact rule }
    requires rates { RatesWhatIsLeft (H.may rule) }
    requires few { rounds ≤ 100000 }
    ensures answer { IfOk result (λ o. IsOutcome (settle_of rounds input.now) o) }
    ensures all { IfOk result (λ o.
        SettleTakesAll rounds input.now (settle_of rounds input.now).status) }
    ensures before { IfOk result (λ o. shown o.before ≡ text_before input.now) }
{
    match course_of(alloc, rule, input)? {
        Course::Through(world) => settled(alloc, world, rounds),
        Course::Stopped(outcome) => Ok(outcome),
    }
}
