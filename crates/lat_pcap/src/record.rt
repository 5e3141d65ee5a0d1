//! The records of a file.

ghost use Rattle.std.specs.Prelude.{◌≡◌, ◌+◌, ◌<◌, ◌≤◌, length, take, drop, IfOk, Option, Some, IfSome};
ghost use Rattle.lat_pcap.specs.Texts.{unit, nanos, is_ours, frame_in, raw};
ghost use Rattle.lat_pcap.specs.Reading.{Gives, record_at};

use crate::fault::{Part, Wrong};
use crate::frame::Frame;
use crate::head::{Head, Precision};
use crate::number::{u32_of, wanted};
use lat_base::{Addr, Bytes, Memory};
use std::alloc::Global;

/// At most so many bytes are included in a record: `docs/FORMATS.md`, "Pcap files".
const MOST: u32 = 262_144;

/// What a record's header says, but for how many bytes are included.
#[derive(Clone, Copy)]
pub(crate) struct Stamp {
    pub seconds: u32,
    pub fraction: u32,
    pub whole: u32,
}

fn unit(precision: Precision) -> u32
    ensures { result ≡ unit precision }
{
    match precision {
        Precision::Micro => 1_000_000,
        Precision::Nano => 1_000_000_000,
    }
}

/// What the record that stands at the place says, the bytes that it includes, and the place behind it; or the first part of it
/// that is wrong.
#[tactic(auto, unfolding(crate::specs::Reading::record_at))]
pub(crate) fn record_of(
    head: Head,
    bytes: &[u8],
    place: usize,
) -> Result<(Stamp, &[u8], usize), Wrong>
    requires { place ≤ length bytes.now }
    ensures gives { Gives (λ x. (
      raw x.0.seconds x.0.fraction x.0.whole x.1.now,
      x.2,
      drop x.2 bytes.now,
    )) result (record_at head place (drop place bytes.now)) }
    ensures within { IfOk result (λ x. x.2 ≤ length bytes.now) }
    ensures fraction { IfOk result (λ x. x.0.fraction < unit head.precision) }
{
    let (seconds, fraction_at) = u32_of(head.order, Part::RecordHeader, place, bytes, place)?;
    let (fraction, count_at) = u32_of(head.order, Part::RecordHeader, place, bytes, fraction_at)?;
    let (count, at) = u32_of(head.order, Part::RecordHeader, place, bytes, count_at)?;
    let (whole, data_at) = u32_of(head.order, Part::RecordHeader, place, bytes, at)?;
    wanted(fraction < unit(head.precision), Part::Fraction, fraction_at)?;
    wanted(count <= MOST, Part::IncludedLength, count_at)?;
    let count = count as usize;
    wanted(count <= bytes.len() - data_at, Part::Data, data_at)?;
    let behind = data_at + count;
    let stamp = Stamp {
        seconds,
        fraction,
        whole,
    };
    Ok((stamp, &bytes[data_at..behind], behind))
}

fn is_ours(held: &[u8]) -> bool
    ensures { result ≡ is_ours held.now }
{
    held.len() >= 14 && held[12] == 0x60 && held[13] == 0x04
}

fn nanos(precision: Precision, fraction: u32) -> u32
    requires { fraction < unit precision }
    ensures { result ≡ nanos precision fraction }
{
    match precision {
        Precision::Micro => fraction * 1_000,
        Precision::Nano => fraction,
    }
}

fn station(held: &[u8], at: usize) -> Addr
    requires { at + 6 ≤ length held.now }
    ensures { result.0 ≡ take 6 (drop at held.now) }
{
    let mut address = [0; 6];
    address.copy_from_slice(&held[at..at + 6]);
    Addr(address)
}

/// The frame of the type 60-04 that the record holds, if it holds one.
pub(crate) fn frame_of(
    alloc: Global,
    head: Head,
    stamp: Stamp,
    held: &[u8],
) -> Result<Option<Frame>, Memory>
    requires { stamp.fraction < unit head.precision }
    ensures { IfOk result (λ found.
        found
        ≡ frame_in head.precision (raw stamp.seconds stamp.fraction stamp.whole held.now)) }
{
    if !is_ours(held) {
        return Ok(None);
    }
    Ok(Some(Frame {
        seconds: stamp.seconds,
        nanos: nanos(head.precision, stamp.fraction),
        to: station(held, 0),
        from: station(held, 6),
        payload: Bytes::copy(alloc, &held[14..])?,
    }))
}
