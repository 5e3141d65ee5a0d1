//! What the commands on generated schedules come to.

ghost use Rattle.std.specs.Prelude.{◌≡◌, None, IfOk};
ghost use Rattle.lat_wire.specs.Rates.{RatesWhatIsLeft};
ghost use Rattle.lat_cmd.specs.Answers.{gen_of, bench_of};
ghost use Rattle.lat_cmd.specs.Outcomes.{IsOutcome};

use crate::generate::{benched, generated};
use crate::outcome::Outcome;
use lat_base::Memory;
use lat_node::RatingRule;
use std::alloc::Global;

/// Prints a generated schedule.
pub(crate) fn made<H: RatingRule>(alloc: Global, seed: u64, rule: H) -> Result<Outcome<H>, Memory>
    requires fact { H.fact rule }
    requires rates { RatesWhatIsLeft (H.may rule) }
    ensures answer { IfOk result (λ o. IsOutcome (gen_of seed) o) }
    ensures before { IfOk result (λ o. o.before ≡ None) }
{
    let (text, world) = generated(alloc, seed, rule)?;
    Ok(Outcome::done(text, world))
}

/// Tells in one line what it comes to.
pub(crate) fn measured<H: RatingRule>(
    alloc: Global,
    seed: u64,
    rule: H,
) -> Result<Outcome<H>, Memory>
    requires fact { H.fact rule }
    requires rates { RatesWhatIsLeft (H.may rule) }
    ensures answer { IfOk result (λ o. IsOutcome (bench_of seed) o) }
    ensures before { IfOk result (λ o. o.before ≡ None) }
{
    let (text, world) = benched(alloc, seed, rule)?;
    Ok(Outcome::done(text, world))
}
