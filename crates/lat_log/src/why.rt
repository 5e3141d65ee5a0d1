//! Reasons in words.

ghost use Rattle.std.specs.Prelude.{◌≡◌, ◌++◌, OnOk, string_bytes};
ghost use Rattle.lat_log.specs.Reasons.{cause_words, circuit_reason, over_words, session_reason};

use crate::entry::{Cause, Over};
use std::alloc::AllocError;

/// Adds the reason of a circuit's end, by the number that its STOP gives.
#[tactic(auto, unfolding(crate::specs::Reasons::circuit_reason))]
pub fn circuit_reason_onto(text: &mut String, reason: u8) -> Result<(), AllocError>
    ensures { OnOk result (string_bytes text.new ≡ string_bytes text.old ++ circuit_reason reason) }
{
    match reason {
        2 => text.push_str("rules broken"),
        3 => text.push_str("halted or not used"),
        5 => text.push_str("no such circuit"),
        6 => text.push_str("no answer"),
        7 => text.push_str("no room"),
        _ => write!(text, "reason {reason}"),
    }
}

/// Adds the reason of a reject, by the number that its slot gives.
pub fn session_reason_onto(text: &mut String, reason: u8) -> Result<(), AllocError>
    ensures { OnOk result (string_bytes text.new ≡ string_bytes text.old ++ session_reason reason) }
{
    match reason {
        4 => text.push_str("no such service"),
        5 => text.push_str("no such request"),
        7 => text.push_str("no room"),
        _ => write!(text, "reason {reason}"),
    }
}

/// Adds why a circuit went down.
pub fn cause_onto(text: &mut String, cause: Cause) -> Result<(), AllocError>
    ensures { OnOk result (string_bytes text.new ≡ string_bytes text.old ++ cause_words cause) }
{
    match cause {
        Cause::Stopped(reason) => {
            text.push_str("by the peer, ")?;
            circuit_reason_onto(text, reason)
        }
        Cause::Broken(reason) => {
            text.push_str("by this end, ")?;
            circuit_reason_onto(text, reason)
        }
        Cause::NoUse => text.push_str("not used"),
        Cause::NoAnswer => text.push_str("no answer"),
        Cause::Halted => text.push_str("halted"),
        Cause::Outlived => text.push_str("outlived"),
    }
}

/// Adds how a session ended.
pub fn over_onto(text: &mut String, over: Over) -> Result<(), AllocError>
    ensures { OnOk result (string_bytes text.new ≡ string_bytes text.old ++ over_words over) }
{
    match over {
        Over::Closed => text.push_str("closed"),
        Over::Circuit(reason) => {
            text.push_str("with its circuit, ")?;
            circuit_reason_onto(text, reason)
        }
        Over::Unseen => text.push_str("unseen"),
    }
}
