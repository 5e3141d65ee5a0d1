//! Reading numbers. Each call reads at a place of the bytes and gives the number with the place behind it; `at` is
//! the place that is told where the bytes end before.

ghost use Rattle.std.specs.Prelude.{◌≡◌, ◌≤◌, length, drop, IfOk};
ghost use Rattle.std.specs.Int.{w16, w32};
ghost use Rattle.lat_pcap.specs.Reading.{Gives, wanted, known, number_at};

use crate::fault::{Part, Wrong};
use crate::head::Order;

/// This part is wrong, at this place, where its condition doesn't hold.
pub(crate) fn wanted(holds: bool, part: Part, at: usize) -> Result<(), Wrong>
    ensures { Gives (λ x. x) result (wanted holds part at) }
{
    if !holds {
        return Err(Wrong { part, at });
    }
    Ok(())
}

/// What the part stands for. It is wrong, at this place, where that is nothing.
pub(crate) fn known<A>(found: Option<A>, part: Part, at: usize) -> Result<A, Wrong>
    ensures { Gives (λ x. x) result (known found part at) }
{
    match found {
        Some(meaning) => Ok(meaning),
        None => Err(Wrong { part, at }),
    }
}

/// A number of two bytes.
pub(crate) fn u16_of(
    order: Order,
    part: Part,
    at: usize,
    bytes: &[u8],
    place: usize,
) -> Result<(u16, usize), Wrong>
    requires { place ≤ length bytes.now }
    ensures gives { Gives (λ x. (
      x.0,
      x.1,
      drop x.1 bytes.now,
    )) result (number_at w16 order part at place (drop place bytes.now)) }
    ensures within { IfOk result (λ x. x.1 ≤ length bytes.now) }
{
    if bytes.len() - place < 2 {
        return Err(Wrong { part, at });
    }
    let text = [bytes[place], bytes[place + 1]];
    let number = match order {
        Order::Little => u16::from_le_bytes(text),
        Order::Big => u16::from_be_bytes(text),
    };
    Ok((number, place + 2))
}

/// A number of four bytes.
pub(crate) fn u32_of(
    order: Order,
    part: Part,
    at: usize,
    bytes: &[u8],
    place: usize,
) -> Result<(u32, usize), Wrong>
    requires { place ≤ length bytes.now }
    ensures gives { Gives (λ x. (
      x.0,
      x.1,
      drop x.1 bytes.now,
    )) result (number_at w32 order part at place (drop place bytes.now)) }
    ensures within { IfOk result (λ x. x.1 ≤ length bytes.now) }
{
    if bytes.len() - place < 4 {
        return Err(Wrong { part, at });
    }
    let text = [
        bytes[place],
        bytes[place + 1],
        bytes[place + 2],
        bytes[place + 3],
    ];
    let number = match order {
        Order::Little => u32::from_le_bytes(text),
        Order::Big => u32::from_be_bytes(text),
    };
    Ok((number, place + 4))
}
