//! The messages of a circuit in print.

ghost use Rattle.std.specs.Prelude.{◌≡◌, ◌++◌, OnOk, string_bytes};
ghost use Rattle.std.specs.List.{flat_map};
ghost use Rattle.lat_show.specs.SlotPrinted.{slot_printed};
ghost use Rattle.lat_show.specs.MessagePrinted.{circuit_printed, numbers_printed, run_printed, wide_run_printed, reason_printed, message_printed};

use crate::slot::slot_onto;
use crate::start::start_onto;
use lat_base::Bytes;
use lat_frames::{Head, Message, WideHead};
use lat_slots::Slot;
use lat_text::{flag_text, hex_onto};
use std::alloc::{AllocError, Global};

/// Adds the first word of a message's line, and what every message has behind it: who sent it, whether it asks for a
/// reply, and the circuit's ids.
#[tactic(auto, unfolding(crate::specs::MessagePrinted::circuit_printed))]
pub fn circuit_onto(
    text: &mut String,
    word: &str,
    master: bool,
    ask: bool,
    to: u16,
    from: u16,
) -> Result<(), AllocError>
    ensures { OnOk result (string_bytes text.new
        ≡ string_bytes text.old ++ circuit_printed word.now master ask to from) }
{
    let (master, ask) = (flag_text(master), flag_text(ask));
    write!(text, "{word} master {master} ask {ask} to {to} from {from}")
}

#[tactic(auto, unfolding(crate::specs::MessagePrinted::numbers_printed))]
fn numbers_onto(text: &mut String, seq: u16, ack: u16, slots: usize) -> Result<(), AllocError>
    ensures { OnOk result (string_bytes text.new
        ≡ string_bytes text.old ++ numbers_printed seq ack slots) }
{
    write!(text, " seq {seq} ack {ack} slots {slots}")
}

#[tactic(auto, unfolding(crate::specs::MessagePrinted::run_printed))]
fn run_onto(text: &mut String, head: &Head, slots: usize) -> Result<(), AllocError>
    ensures { OnOk result (string_bytes text.new
        ≡ string_bytes text.old ++ run_printed head.now slots) }
{
    circuit_onto(text, "run", head.master, head.ask, head.to, head.from)?;
    numbers_onto(text, head.seq as u16, head.ack as u16, slots)?;
    text.push_str("\n")
}

#[tactic(auto, unfolding(crate::specs::MessagePrinted::wide_run_printed))]
fn wide_run_onto(text: &mut String, head: &WideHead, slots: usize) -> Result<(), AllocError>
    ensures { OnOk result (string_bytes text.new
        ≡ string_bytes text.old ++ wide_run_printed head.now slots) }
{
    circuit_onto(text, "wide-run", head.master, head.ask, head.to, head.from)?;
    numbers_onto(text, head.seq, head.ack, slots)?;
    text.push_str("\n")
}

#[tactic(auto, unfolding(crate::specs::MessagePrinted::reason_printed))]
fn reason_onto(
    alloc: Global,
    text: &mut String,
    reason: u8,
    bytes: &Bytes,
) -> Result<(), AllocError>
    ensures { OnOk result (string_bytes text.new
        ≡ string_bytes text.old ++ reason_printed reason bytes.now) }
{
    write!(text, " reason {reason} text ")?;
    hex_onto(alloc, text, bytes.as_slice())
}

fn slots_onto(alloc: Global, text: &mut String, slots: &[Slot]) -> Result<(), AllocError>
    ensures { OnOk result (string_bytes text.new
        ≡ string_bytes text.old ++ flat_map slot_printed slots.now) }
{
    for slot in slots {
        slot_onto(alloc, text, slot)?;
    }
    Ok(())
}

/// Adds the line of a message to a text, and the lines of the slots that it carries. `docs/FORMATS.md`, part Printed
/// texts, has the lines.
pub fn message_onto(alloc: Global, text: &mut String, message: &Message) -> Result<(), AllocError>
    ensures { OnOk result (string_bytes text.new
        ≡ string_bytes text.old ++ message_printed message.now) }
{
    match message {
        Message::Run { head, slots } => {
            let slots = slots.as_slice();
            run_onto(text, head, slots.len())?;
            slots_onto(alloc, text, slots)
        }
        Message::Wide { head, slots } => {
            let slots = slots.as_slice();
            wide_run_onto(text, head, slots.len())?;
            slots_onto(alloc, text, slots)
        }
        Message::Start {
            master,
            ask,
            to,
            from,
            info,
        } => start_onto(alloc, text, *master, *ask, *to, *from, info),
        Message::Stop {
            master,
            ask,
            to,
            from,
            reason,
            text: bytes,
        } => {
            circuit_onto(text, "circuit-stop", *master, *ask, *to, *from)?;
            reason_onto(alloc, text, *reason, bytes)?;
            text.push_str("\n")
        }
    }
}
