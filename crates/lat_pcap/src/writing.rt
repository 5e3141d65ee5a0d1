//! Writing a file.

ghost use Rattle.std.specs.Prelude.{◌≡◌, ◌<◌, ◌≤◌, length, IfOk};
ghost use Rattle.lat_pcap.specs.Texts.{record_text};
ghost use Rattle.lat_pcap.specs.Written.{written_head, written_raw};
ghost use Rattle.lat_pcap.specs.declared.head.Order.TheVariants.{Little};

use lat_base::{Addr, Bytes, Memory};
use std::alloc::Global;

/// Moments below this, in microseconds, have a place in a file: 2^32 seconds.
pub const MOMENTS: u64 = 4_294_967_296_000_000;

/// The header of a written file: low bytes first, microseconds, version 2.4, Ethernet.
pub fn file_header() -> [u8; 24]
    ensures { result ≡ written_head }
{
    [
        0xd4, 0xc3, 0xb2, 0xa1, 2, 0, 4, 0, 0, 0, 0, 0, 0, 0, 0, 0, 0xff, 0xff, 0, 0, 1, 0, 0, 0,
    ]
}

/// The record of a frame of the type 60-04 that was captured at this moment, in microseconds since 1970-01-01, UTC: its
/// payload has 65,521 bytes at most. Takes memory for the record; `Memory` where none is found.
pub fn frame_record(
    alloc: Global,
    moment: u64,
    to: Addr,
    from: Addr,
    payload: &[u8],
) -> Result<Bytes, Memory>
    requires time { moment < 4294967296000000 }
    requires short { length payload.now ≤ 65521 }
    ensures { IfOk result (λ text. text ≡ record_text Little (written_raw moment to.0 from.0 payload.now)) }
{
    let seconds = (moment / 1_000_000) as u32;
    let micros = (moment % 1_000_000) as u32;
    let count = (payload.len() + 14) as u32;
    let mut text = Vec::new(alloc);
    text.extend_from_slice(&seconds.to_le_bytes())?;
    text.extend_from_slice(&micros.to_le_bytes())?;
    text.extend_from_slice(&count.to_le_bytes())?;
    text.extend_from_slice(&count.to_le_bytes())?;
    text.extend_from_slice(&to.0)?;
    text.extend_from_slice(&from.0)?;
    text.extend_from_slice(&[0x60, 0x04])?;
    text.extend_from_slice(payload)?;
    Ok(Bytes::of(text))
}
