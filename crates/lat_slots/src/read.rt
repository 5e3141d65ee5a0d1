//! Reading a slot.

ghost use Rattle.std.specs.Prelude.{◌≡◌, ◌+◌, ◌<◌, ◌≤◌, ◌==◌, ℕ, length, take, drop, Ok, IfOk, IsTrue, slice_index};
ghost use Rattle.lat_fields.specs.Reading.{Gives};
ghost use Rattle.lat_slots.specs.Reading.{count_fits, fitting, head_at, asked_at, start_at, body_at, slot_at};
ghost use Rattle.lat_slots.specs.Layout.{StandsAt};
ghost use Rattle.lat_slots.specs.declared.slot.Slot.{Slot};
ghost use Rattle.lat_slots.specs.declared.slot.Slot.TheVariants as slots;

use crate::head::{SERVICE_CLASS, SlotHead, count_fits, destination_fits, source_fits};
use crate::kind::SlotKind;
use crate::slot::Slot;
use lat_base::{Bytes, Field};
use lat_fields::{LayoutFault, byte_of, copy_of, known, name_of, params_of, wanted};
use std::alloc::Global;

// The head, if its type may have its ids and its count, and its body is there in so many bytes of the slot.
#[tactic(auto, unfolding(crate::specs::Reading::fitting))]
fn fitting(head: SlotHead, at: usize, len: usize) -> Result<SlotHead, LayoutFault>
    requires { at ≤ 1500 }
    ensures gives { Gives (λ h. h) result (fitting head at len) }
    ensures count { IfOk result (λ h. IsTrue (count_fits h.kind h.count)) }
    ensures within { IfOk result (λ h. 4 + h.count ≤ len) }
{
    let SlotHead {
        kind,
        to,
        from,
        count,
        ..
    } = head;
    wanted(destination_fits(kind, to), Field::DestinationSlot, at)?;
    wanted(source_fits(kind, from), Field::SourceSlot, at + 1)?;
    let whole = count_fits(kind, count) && 4 + count as usize <= len;
    wanted(whole, Field::ByteCount, at + 2)?;
    Ok(head)
}

// The head of the slot that stands at the place. The byte with its type is tested before the others.
#[tactic(auto, unfolding(crate::specs::Reading::head_at))]
fn head_of(payload: &[u8], at: usize) -> Result<SlotHead, LayoutFault>
    requires { (at ≤ length payload.now) × (length payload.now ≤ 1500) }
    ensures gives { Gives (λ h. h) result (head_at at (drop at payload.now)) }
    ensures count { IfOk result (λ h. IsTrue (count_fits h.kind h.count)) }
    ensures within { IfOk result (λ h. at + 4 + h.count ≤ length payload.now) }
{
    let rest = &payload[at..];
    wanted(rest.len() > 3, Field::SlotType, at + 3)?;
    let kind = known(SlotKind::from_bits(rest[3] / 16), Field::SlotType, at + 3)?;
    let head = SlotHead {
        kind,
        low: rest[3] % 16,
        to: rest[0],
        from: rest[1],
        count: rest[2],
    };
    fitting(head, at, rest.len())
}

// Whether the bytes end at the place.
fn is_end(place: usize, bytes: &[u8]) -> bool
    requires { place ≤ length bytes.now }
    ensures { result ≡ (length (drop place bytes.now) == 0) }
{
    place == bytes.len()
}

// The start of these sizes, whose body goes on at the place with the service that it asks for.
#[tactic(auto, unfolding(crate::specs::Reading::asked_at))]
fn asked_of(
    alloc: Global,
    head: SlotHead,
    attention: u8,
    size: u8,
    bytes: &[u8],
    place: usize,
) -> Result<Slot, LayoutFault>
    requires { (place ≤ length bytes.now) × (length bytes.now ≤ 1500) }
    ensures { Gives (λ s. s) result
        (asked_at (length bytes.now + 1) head attention size place (drop place bytes.now)) }
{
    let (service, at) = name_of(Field::Service, bytes, place)?;
    let (subject, at) = copy_of(alloc, Field::Subject, bytes, at)?;
    let (params, at) = params_of(alloc, bytes, at)?;
    wanted(is_end(at, bytes), Field::SlotEnd, at)?;
    Ok(Slot::Start {
        to: head.to,
        from: head.from,
        credits: head.low,
        attention,
        size,
        service,
        subject,
        params,
    })
}

// The start whose body is these bytes from the place on.
#[tactic(auto, unfolding(crate::specs::Reading::start_at))]
fn start_of(alloc: Global, head: SlotHead, bytes: &[u8], place: usize) -> Result<Slot, LayoutFault>
    requires { (place ≤ length bytes.now) × (length bytes.now ≤ 1500) }
    ensures { Gives (λ s. s) result (start_at (length bytes.now + 1) head place (drop place bytes.now)) }
{
    let (class, at) = byte_of(Field::ServiceClass, place, bytes, place)?;
    wanted(class == SERVICE_CLASS, Field::ServiceClass, place)?;
    let (attention, size_at) = byte_of(Field::AttentionSize, at, bytes, at)?;
    let (size, at) = byte_of(Field::DataSize, size_at, bytes, size_at)?;
    wanted(size > 0, Field::DataSize, size_at)?;
    asked_of(alloc, head, attention, size, bytes, at)
}

// The setting whose body is these five bytes.
fn setting_of(head: SlotHead, body: &[u8]) -> Slot
    requires { length body.now ≡ 5 }
    ensures { result ≡ slots.DataB head.to head.from head.low (slice_index body.now 0)
        (drop 1 body.now) }
{
    let mut chars = [0; 4];
    chars.copy_from_slice(&body[1..]);
    Slot::DataB {
        to: head.to,
        from: head.from,
        credits: head.low,
        flag: body[0],
        chars,
    }
}

// The slot with this head whose body is these bytes from the place on.
#[tactic(auto, unfolding(crate::specs::Reading::body_at))]
fn body_of(alloc: Global, head: SlotHead, bytes: &[u8], place: usize) -> Result<Slot, LayoutFault>
    requires room { (place ≤ length bytes.now) × (length bytes.now ≤ 1500) }
    requires count { IsTrue (count_fits head.kind head.count) }
    requires whole { length bytes.now ≡ place + head.count }
    ensures { Gives (λ s. s) result (body_at (length bytes.now + 1) head place (drop place bytes.now)) }
{
    let SlotHead {
        kind,
        low,
        to,
        from,
        ..
    } = head;
    match kind {
        SlotKind::DataA => Ok(Slot::DataA {
            to,
            from,
            credits: low,
            bytes: Bytes::copy(alloc, &bytes[place..])?,
        }),
        SlotKind::Start => start_of(alloc, head, bytes, place),
        SlotKind::DataB => Ok(setting_of(head, &bytes[place..])),
        SlotKind::Attention => Ok(Slot::Attention {
            to,
            from,
            flag: bytes[place],
        }),
        SlotKind::Reject => Ok(Slot::Reject {
            to,
            from,
            reason: low,
        }),
        SlotKind::Stop => Ok(Slot::Stop {
            to,
            from,
            reason: low,
        }),
    }
}

// The slot with this head, which stands at the place. Its body is measured to its own end.
fn behind_head(
    alloc: Global,
    payload: &[u8],
    at: usize,
    head: SlotHead,
) -> Result<Slot, LayoutFault>
    requires room { (at + 4 + head.count ≤ length payload.now) × (length payload.now ≤ 1500) }
    requires count { IsTrue (count_fits head.kind head.count) }
    ensures { Gives (λ s. s) result (body_at (at + 4 + head.count + 1) head (at + 4)
        (take head.count (drop 4 (drop at payload.now)))) }
{
    let bytes = &payload[..at + 4 + head.count as usize];
    body_of(alloc, head, bytes, at + 4)
}

// The slot that stands at the place, and the place behind it with its pad.
#[tactic(auto, unfolding(crate::specs::Reading::slot_at))]
fn slot_of(alloc: Global, payload: &[u8], at: usize) -> Result<(Slot, usize), LayoutFault>
    requires { (at ≤ length payload.now) × (length payload.now ≤ 1500) }
    ensures gives { Gives (λ x. (x.0, x.1, drop x.1 payload.now)) result (slot_at at
        (drop at payload.now)) }
    ensures within { IfOk result (λ x. x.1 ≤ length payload.now) }
{
    let head = head_of(payload, at)?;
    let slot = behind_head(alloc, payload, at, head)?;
    let end = at + 4 + head.count as usize;
    let next = end + (head.count % 2) as usize;
    wanted(next <= payload.len(), Field::SlotPad, end)?;
    Ok((slot, next))
}

/// The slot that stands at the place, and the place behind it with its pad. Refused with the first bad field, in the
/// order of the tables in `docs/FRAMES.md`, part Slots. Takes memory for the bytes that the slot keeps.
pub fn read_slot(alloc: Global, payload: &[u8], at: usize) -> Result<(Slot, usize), LayoutFault>
    requires { (at ≤ length payload.now) × (length payload.now ≤ 1500) }
    // What is read stands there.
    ensures found { IfOk result (λ x. StandsAt at (drop at payload.now) x.0 x.1) }
    // What stands there is read, unless memory runs out.
    ensures only { (s : Slot) (next : ℕ) → StandsAt at (drop at payload.now) s next →
        Gives (λ x. x) result (Ok (s, next)) }
    // Which field is bad.
    ensures exact { Gives (λ x. (x.0, x.1, drop x.1 payload.now)) result (slot_at at
        (drop at payload.now)) }
    ensures within { IfOk result (λ x. x.1 ≤ length payload.now) }
{
    slot_of(alloc, payload, at)
}
