//! Reading one field. Each call reads at a place of the bytes and gives the value with the place behind it; `at` is
//! the place that is named where the field is bad.

ghost use Rattle.std.specs.Prelude.{◌≡◌, ◌+◌, ◌^◌, ◌<◌, ◌≤◌, ◌==◌, ◌||◌, nat_le, length, drop, IfOk};
ghost use Rattle.lat_fields.specs.Reading.{Gives, fault, known, wanted, byte_at, number_at, counted_at, name_at};

use crate::fault::LayoutFault;
use crate::write::LEAST_PAYLOAD;
use lat_base::{Bad, Bytes, Field, Name};
use std::alloc::Global;

// The fault that names the field bad, at its place.
pub(crate) fn bad(field: Field, at: usize) -> LayoutFault
    requires { at < 2 ^ 16 }
    ensures { result ≡ fault field at }
{
    LayoutFault::Bad(Bad {
        field,
        at: at as u16,
    })
}

/// Names the field bad, at its place, where its condition doesn't hold.
pub fn wanted(holds: bool, field: Field, at: usize) -> Result<(), LayoutFault>
    requires { at < 2 ^ 16 }
    ensures { Gives (λ x. x) result (wanted holds field at) }
{
    if !holds {
        return Err(bad(field, at));
    }
    Ok(())
}

/// What the field stands for. It names the field bad, at its place, where that is nothing.
pub fn known<A>(found: Option<A>, field: Field, at: usize) -> Result<A, LayoutFault>
    requires { at < 2 ^ 16 }
    ensures { Gives (λ x. x) result (known found field at) }
{
    match found {
        Some(meaning) => Ok(meaning),
        None => Err(bad(field, at)),
    }
}

/// One byte.
pub fn byte_of(
    field: Field,
    at: usize,
    bytes: &[u8],
    place: usize,
) -> Result<(u8, usize), LayoutFault>
    requires { (at ≤ 1500) × (place ≤ length bytes.now) × (length bytes.now ≤ 1500) }
    ensures gives { Gives (λ x. (
      x.0,
      x.1,
      drop x.1 bytes.now,
    )) result (byte_at field at place (drop place bytes.now)) }
    ensures within { IfOk result (λ x. x.1 ≤ length bytes.now) }
{
    if place == bytes.len() {
        return Err(bad(field, at));
    }
    Ok((bytes[place], place + 1))
}

/// A number of two bytes, low byte first.
#[tactic(auto, unfolding(crate::specs::Reading::number_at))]
pub fn number_of(field: Field, bytes: &[u8], place: usize) -> Result<(u16, usize), LayoutFault>
    requires { (place ≤ length bytes.now) × (length bytes.now ≤ 1500) }
    ensures gives { Gives (λ x. (
      x.0,
      x.1,
      drop x.1 bytes.now,
    )) result (number_at field place (drop place bytes.now)) }
    ensures within { IfOk result (λ x. x.1 ≤ length bytes.now) }
{
    let (low, behind) = byte_of(field, place, bytes, place)?;
    let (high, behind) = byte_of(field, place, bytes, behind)?;
    Ok((u16::from_le_bytes([low, high]), behind))
}

/// A counted text: a length byte and that many bytes.
#[tactic(auto, unfolding(crate::specs::Reading::counted_at))]
pub fn counted_of(
    field: Field,
    at: usize,
    bytes: &[u8],
    place: usize,
) -> Result<(&[u8], usize), LayoutFault>
    requires { (at ≤ 1500) × (place ≤ length bytes.now) × (length bytes.now ≤ 1500) }
    ensures gives { Gives (λ x. (
      x.0.now,
      x.1,
      drop x.1 bytes.now,
    )) result (counted_at field at place (drop place bytes.now)) }
    ensures within { IfOk result (λ x. x.1 ≤ length bytes.now) }
{
    let (count, place) = byte_of(field, at, bytes, place)?;
    let end = place + count as usize;
    if bytes.len() < end {
        return Err(bad(field, at));
    }
    Ok((&bytes[place..end], end))
}

/// A copy of a counted text, for which it takes memory. The text is refused at its length byte.
pub fn copy_of(
    alloc: Global,
    field: Field,
    bytes: &[u8],
    place: usize,
) -> Result<(Bytes, usize), LayoutFault>
    requires { (place ≤ length bytes.now) × (length bytes.now ≤ 1500) }
    ensures gives { Gives (λ x. (
      x.0,
      x.1,
      drop x.1 bytes.now,
    )) result (counted_at field place place (drop place bytes.now)) }
    ensures within { IfOk result (λ x. x.1 ≤ length bytes.now) }
{
    let (text, end) = counted_of(field, place, bytes, place)?;
    Ok((Bytes::copy(alloc, text)?, end))
}

/// A counted name: a counted text whose bytes are a name. It is refused at its length byte.
#[tactic(auto, unfolding(crate::specs::Reading::name_at))]
pub fn name_of(field: Field, bytes: &[u8], place: usize) -> Result<(Name, usize), LayoutFault>
    requires { (place ≤ length bytes.now) × (length bytes.now ≤ 1500) }
    ensures gives { Gives (λ x. (
      x.0,
      x.1,
      drop x.1 bytes.now,
    )) result (name_at field place (drop place bytes.now)) }
    ensures within { IfOk result (λ x. x.1 ≤ length bytes.now) }
{
    let (text, end) = counted_of(field, place, bytes, place)?;
    match Name::read(text) {
        Ok(name) => Ok((name, end)),
        Err(_) => Err(bad(field, place)),
    }
}

/// Whether a payload that says all up to this place may end as it does: nothing stands behind the place, or the
/// payload has at most 46 bytes.
pub fn ends_right(end: usize, payload: &[u8]) -> bool
    requires { end ≤ length payload.now }
    ensures { result ≡ (length (drop end payload.now) == 0 || nat_le (length payload.now) 46) }
{
    end == payload.len() || payload.len() <= LEAST_PAYLOAD
}
