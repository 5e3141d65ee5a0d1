//! What each command comes to.

ghost use Rattle.std.specs.Prelude.{◌≡◌, IfOk};
ghost use Rattle.lat_wire.specs.Rates.{RatesWhatIsLeft};
ghost use Rattle.lat_cmd.specs.Answers.{answer_to};
ghost use Rattle.lat_cmd.specs.Commands.{IsBounded};
ghost use Rattle.lat_cmd.specs.Laws.{IsLawful};
ghost use Rattle.lat_cmd.specs.Befores.{shown, before_of};
ghost use Rattle.lat_cmd.specs.Outcomes.{IsOutcome};

use crate::capture::capture;
use crate::command::Command;
use crate::growth::{made, measured};
use crate::outcome::Outcome;
use crate::replay::replay;
use crate::settle::settle;
use crate::texts::{audited, chosen, drawn, dumped, shown, traced};
use lat_base::Memory;
use lat_node::RatingRule;
use std::alloc::Global;

/// The answer of a command to this input.
pub(crate) fn answered<H: RatingRule>(
    alloc: Global,
    command: Command,
    rule: H,
    input: &[u8],
) -> Result<Outcome<H>, Memory>
    requires fact { H.fact rule }
    requires rates { RatesWhatIsLeft (H.may rule) }
    requires bounded { IsBounded command }
    ensures answer { IfOk result (λ o. IsOutcome (answer_to command input.now) o) }
    ensures law { IfOk result (λ o. IsLawful command input.now) }
    ensures before { IfOk result (λ o. shown o.before ≡ before_of command input.now) }
{
    match command {
        Command::Show => shown(alloc, input),
        Command::Choose => chosen(alloc, input),
        Command::Replay => replay(alloc, rule, input),
        Command::Capture(circuit) => capture(alloc, rule, input, circuit),
        Command::Settle(rounds) => settle(alloc, rule, input, rounds),
        Command::Audit => audited(alloc, input),
        Command::Pcap => dumped(alloc, input),
        Command::Trace => traced(alloc, rule, input),
        Command::Draw => drawn(alloc, rule, input),
        Command::Gen(seed) => made(alloc, seed, rule),
        Command::Bench(seed) => measured(alloc, seed, rule),
    }
}
