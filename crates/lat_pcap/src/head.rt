//! The header of a file.

ghost use Rattle.std.specs.Prelude.{◌≡◌, ◌≤◌, length, drop, IfOk};
ghost use Rattle.lat_pcap.specs.Reading.{Gives, magic_of, head_at};

use crate::fault::{Part, Wrong};
use crate::number::{known, u16_of, u32_of, wanted};

/// The order of the bytes of each number.
#[derive(Clone, Copy)]
pub enum Order {
    /// The low byte is first.
    Little,
    /// The high byte is first.
    Big,
}

/// What the fraction of a second is counted in.
#[derive(Clone, Copy)]
pub enum Precision {
    Micro,
    Nano,
}

/// What the header of a file says about its records.
#[derive(Clone, Copy)]
pub struct Head {
    pub order: Order,
    pub precision: Precision,
}

fn magic_of(number: u32) -> Option<Head>
    ensures { result ≡ magic_of number }
{
    match number {
        0xd4c3_b2a1 => Some(Head {
            order: Order::Little,
            precision: Precision::Micro,
        }),
        0x4d3c_b2a1 => Some(Head {
            order: Order::Little,
            precision: Precision::Nano,
        }),
        0xa1b2_c3d4 => Some(Head {
            order: Order::Big,
            precision: Precision::Micro,
        }),
        0xa1b2_3c4d => Some(Head {
            order: Order::Big,
            precision: Precision::Nano,
        }),
        _ => None,
    }
}

/// What the header says, and the place behind it; or the first part of it that is wrong.
#[tactic(auto, unfolding(crate::specs::Reading::head_at))]
pub(crate) fn head_of(bytes: &[u8]) -> Result<(Head, usize), Wrong>
    ensures gives { Gives (λ x. (x.0, x.1, drop x.1 bytes.now)) result (head_at bytes.now) }
    ensures within { IfOk result (λ x. x.1 ≤ length bytes.now) }
{
    let (number, at) = u32_of(Order::Big, Part::Header, 0, bytes, 0)?;
    let head = known(magic_of(number), Part::Magic, 0)?;
    let order = head.order;
    let (major, minor_at) = u16_of(order, Part::Header, 0, bytes, at)?;
    let (minor, at) = u16_of(order, Part::Header, 0, bytes, minor_at)?;
    let (_zone, at) = u32_of(order, Part::Header, 0, bytes, at)?;
    let (_accuracy, at) = u32_of(order, Part::Header, 0, bytes, at)?;
    let (_snap, link_at) = u32_of(order, Part::Header, 0, bytes, at)?;
    let (link, behind) = u32_of(order, Part::Header, 0, bytes, link_at)?;
    wanted(major == 2, Part::Version, 4)?;
    wanted(minor == 4, Part::Version, 6)?;
    wanted(link == 1, Part::LinkType, 20)?;
    Ok((head, behind))
}
