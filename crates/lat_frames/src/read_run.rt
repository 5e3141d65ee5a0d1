//! Reading RUN messages.

ghost use Rattle.std.specs.Prelude.{◌≡◌, ◌+◌, ◌≤◌, length, drop, IfOk};
ghost use Rattle.lat_fields.specs.Reading.{Gives};
ghost use Rattle.lat_frames.specs.Reading.{slots_at, run_at, wide_at};

use crate::message::{Head, Message, WideHead};
use crate::read_head::{Circuits, asks, is_master};
use crate::slots::Slots;
use lat_base::Field;
use lat_fields::{LayoutFault, byte_of, number_of};
use lat_slots::read_slot;
use std::alloc::Global;

#[tactic(auto, unfolding(crate::specs::Reading::slots_at))]
fn slots_of(
    alloc: Global,
    count: u8,
    payload: &[u8],
    place: usize,
) -> Result<(Slots, usize), LayoutFault>
    requires { (place ≤ length payload.now) × (length payload.now ≤ 1500) }
    ensures gives { Gives (λ x. (
      x.0,
      x.1,
      drop x.1 payload.now,
    )) result (slots_at count place (drop place payload.now)) }
    ensures within { IfOk result (λ x. x.1 ≤ length payload.now) }
{
    let mut slots = Slots::new(alloc);
    let mut at = place;
    for _ in 0..count {
        let (slot, behind) = read_slot(alloc, payload, at)?;
        slots.push(slot)?;
        at = behind;
    }
    Ok((slots, at))
}

/// The RUN message that goes on at the place.
#[tactic(auto, unfolding(crate::specs::Reading::run_at))]
pub fn run_of(
    alloc: Global,
    first: u8,
    circuits: Circuits,
    payload: &[u8],
    place: usize,
) -> Result<(Message, usize), LayoutFault>
    requires { (place ≤ length payload.now) × (length payload.now ≤ 1500) }
    ensures gives { Gives (λ x. (
      x.0,
      x.1,
      drop x.1 payload.now,
    )) result (run_at first circuits place (drop place payload.now)) }
    ensures within { IfOk result (λ x. x.1 ≤ length payload.now) }
{
    let (seq, place) = byte_of(Field::Sequence, place, payload, place)?;
    let (ack, place) = byte_of(Field::Acknowledgement, place, payload, place)?;
    let (slots, place) = slots_of(alloc, circuits.slots, payload, place)?;
    let head = Head {
        master: is_master(first),
        ask: asks(first),
        to: circuits.to,
        from: circuits.from,
        seq,
        ack,
    };
    Ok((Message::Run { head, slots }, place))
}

/// The wide RUN message that goes on at the place.
#[tactic(auto, unfolding(crate::specs::Reading::wide_at))]
pub fn wide_of(
    alloc: Global,
    first: u8,
    circuits: Circuits,
    payload: &[u8],
    place: usize,
) -> Result<(Message, usize), LayoutFault>
    requires { (place ≤ length payload.now) × (length payload.now ≤ 1500) }
    ensures gives { Gives (λ x. (
      x.0,
      x.1,
      drop x.1 payload.now,
    )) result (wide_at first circuits place (drop place payload.now)) }
    ensures within { IfOk result (λ x. x.1 ≤ length payload.now) }
{
    let (seq, place) = number_of(Field::Sequence, payload, place)?;
    let (ack, place) = number_of(Field::Acknowledgement, payload, place)?;
    let (slots, place) = slots_of(alloc, circuits.slots, payload, place)?;
    let head = WideHead {
        master: is_master(first),
        ask: asks(first),
        to: circuits.to,
        from: circuits.from,
        seq,
        ack,
    };
    Ok((Message::Wide { head, slots }, place))
}
