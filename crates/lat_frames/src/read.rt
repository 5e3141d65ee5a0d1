//! Reading a payload as a circuit message.

ghost use Rattle.std.specs.Prelude.{◌≡◌, ◌+◌, ◌<◌, ◌≤◌, length, drop, Ok, IfOk};
ghost use Rattle.lat_fields.specs.Reading.{Gives};
ghost use Rattle.lat_fields.specs.Payloads.{PayloadText};
ghost use Rattle.lat_frames.specs.declared.message.Message.{Message};
ghost use Rattle.lat_frames.specs.MessageText.{MessageText};
ghost use Rattle.lat_frames.specs.Reading.{tail_at, message_at, begun_at, message_read};

use crate::kind::MessageKind;
use crate::message::Message;
use crate::read_head::{Circuits, circuits_of, is_master};
use crate::read_run::{run_of, wide_of};
use crate::read_start::{start_of, stop_of};
use lat_base::{Field, PAYLOAD_BYTES};
use lat_fields::{LayoutFault, byte_of, ends_right, known, wanted};
use std::alloc::Global;

fn tail_of(
    alloc: Global,
    kind: MessageKind,
    first: u8,
    circuits: Circuits,
    payload: &[u8],
    place: usize,
) -> Result<(Message, usize), LayoutFault>
    requires { (place ≤ length payload.now) × (length payload.now ≤ 1500) }
    ensures gives { Gives (λ x. (x.0, x.1, drop x.1 payload.now)) result (tail_at kind
        (length payload.now + 1) first circuits place (drop place payload.now)) }
    ensures within { IfOk result (λ x. x.1 ≤ length payload.now) }
{
    match kind {
        MessageKind::Run => run_of(alloc, first, circuits, payload, place),
        MessageKind::Start => start_of(alloc, first, circuits, payload, place),
        MessageKind::Stop => stop_of(alloc, first, circuits, payload, place),
        MessageKind::WideRun => wide_of(alloc, first, circuits, payload, place),
    }
}

#[tactic(auto, unfolding(crate::specs::Reading::message_at))]
fn layout_of(
    alloc: Global,
    kind: MessageKind,
    first: u8,
    payload: &[u8],
) -> Result<(Message, usize), LayoutFault>
    requires { (0 < length payload.now) × (length payload.now ≤ 1500) }
    ensures gives { Gives (λ x. (
      x.0,
      x.1,
      drop x.1 payload.now,
    )) result (message_at kind first (drop 1 payload.now)) }
    ensures within { IfOk result (λ x. x.1 ≤ length payload.now) }
{
    let (circuits, place) = circuits_of(kind, is_master(first), payload, 1)?;
    tail_of(alloc, kind, first, circuits, payload, place)
}

// The message whose first byte is this one.
#[tactic(auto, unfolding(crate::specs::Reading::begun_at))]
fn begun_of(alloc: Global, first: u8, payload: &[u8]) -> Result<Message, LayoutFault>
    requires { (0 < length payload.now) × (length payload.now ≤ 1500) }
    ensures { Gives (λ m. m) result (begun_at first (drop 1 payload.now) payload.now) }
{
    let kind = known(MessageKind::from_bits(first / 4), Field::Kind, 0)?;
    let (message, end) = layout_of(alloc, kind, first, payload)?;
    wanted(ends_right(end, payload), Field::Trailing, end)?;
    Ok(message)
}

#[tactic(auto, unfolding(crate::specs::Reading::message_read, crate::specs::Reading::begun_at))]
fn message_of(alloc: Global, payload: &[u8]) -> Result<Message, LayoutFault>
    ensures { Gives (λ m. m) result (message_read payload.now) }
{
    wanted(payload.len() <= PAYLOAD_BYTES, Field::Size, PAYLOAD_BYTES)?;
    let (first, _) = byte_of(Field::Kind, 0, payload, 0)?;
    begun_of(alloc, first, payload)
}

/// Reads a payload, of any length, as a circuit message with the bytes that trail it. Refused with the first bad field,
/// in the order of the tables in `docs/FRAMES.md`, part Circuit messages. Takes memory for the lists that the message
/// keeps.
pub fn read_message(alloc: Global, payload: &[u8]) -> Result<Message, LayoutFault>
    // What is read has the payload as a text.
    ensures found { IfOk result (λ m. PayloadText MessageText m payload.now) }
    // A payload that is a text of a message is read as it, unless memory runs out.
    ensures only { (m : Message) → PayloadText MessageText m payload.now →
        Gives (λ r. r) result (Ok m) }
    // Which field is bad.
    ensures exact { Gives (λ m. m) result (message_read payload.now) }
{
    message_of(alloc, payload)
}
