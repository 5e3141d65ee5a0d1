//! Bytes written as hex digits of either case.

ghost use Rattle.std.specs.Prelude.{◌≡◌, ◌*◌, ◌<◌, ◌≤◌, [], length, IfOk, IfSome, vec_capacity};
ghost use Rattle.hex.specs.Hex.{hex_digit_value};
ghost use Rattle.lat_text.specs.Digits.{address_of, byte_of, bytes_of, mask_of, payload_of};
ghost use Rattle.lat_text.specs.Reads.{Reads};

use crate::fault::LineFault;
use hex::FromHex;
use lat_base::{Addr, Memory};
use std::alloc::Global;

/// The value of each byte that is a hex digit of either case, and 16 for each other byte.
const VALUES: [u8; 256] = [
    16, 16, 16, 16, 16, 16, 16, 16, 16, 16, 16, 16, 16, 16, 16, 16, 16, 16, 16, 16, 16, 16, 16, 16,
    16, 16, 16, 16, 16, 16, 16, 16, 16, 16, 16, 16, 16, 16, 16, 16, 16, 16, 16, 16, 16, 16, 16, 16,
    0, 1, 2, 3, 4, 5, 6, 7, 8, 9, 16, 16, 16, 16, 16, 16, 16, 10, 11, 12, 13, 14, 15, 16, 16, 16,
    16, 16, 16, 16, 16, 16, 16, 16, 16, 16, 16, 16, 16, 16, 16, 16, 16, 16, 16, 16, 16, 16, 16, 10,
    11, 12, 13, 14, 15, 16, 16, 16, 16, 16, 16, 16, 16, 16, 16, 16, 16, 16, 16, 16, 16, 16, 16, 16,
    16, 16, 16, 16, 16, 16, 16, 16, 16, 16, 16, 16, 16, 16, 16, 16, 16, 16, 16, 16, 16, 16, 16, 16,
    16, 16, 16, 16, 16, 16, 16, 16, 16, 16, 16, 16, 16, 16, 16, 16, 16, 16, 16, 16, 16, 16, 16, 16,
    16, 16, 16, 16, 16, 16, 16, 16, 16, 16, 16, 16, 16, 16, 16, 16, 16, 16, 16, 16, 16, 16, 16, 16,
    16, 16, 16, 16, 16, 16, 16, 16, 16, 16, 16, 16, 16, 16, 16, 16, 16, 16, 16, 16, 16, 16, 16, 16,
    16, 16, 16, 16, 16, 16, 16, 16, 16, 16, 16, 16, 16, 16, 16, 16, 16, 16, 16, 16, 16, 16, 16, 16,
    16, 16, 16, 16, 16, 16, 16, 16, 16, 16, 16, 16, 16, 16,
];

// The value of a digit.
fn digit_of(byte: u8) -> Option<u8>
    ensures value { result ≡ hex_digit_value byte }
    ensures below { IfSome result (λ value. value < 16) }
{
    let value = VALUES[usize::from(byte)];
    if value < 16 { Some(value) } else { None }
}

/// The byte that two digits write.
pub fn byte_of(high: u8, low: u8) -> Option<u8>
    ensures { result ≡ byte_of high low }
{
    let high = digit_of(high)?;
    let low = digit_of(low)?;
    Some(high * 16 + low)
}

/// The address that twelve digits write.
pub fn address_of(text: &[u8]) -> Option<Addr>
    ensures { result ≡ address_of text.now }
{
    let bytes = <[u8; 6] as FromHex>::from_hex(text).ok()?;
    Some(Addr(bytes))
}

/// The mask of groups that an even number of digits write, 2 to 64 of them. The bytes that it doesn't have are 0.
pub fn mask_of(text: &[u8]) -> Option<[u8; 32]>
    ensures { result ≡ mask_of text.now }
{
    if text.len() < 2 || text.len() > 64 {
        return None;
    }
    let mut mask = [0; 32];
    hex::decode_to_slice(text, &mut mask[..text.len() / 2]).ok()?;
    Some(mask)
}

// A list without a byte, with room for so many.
fn room_for(alloc: Global, count: usize) -> Result<Vec<u8>, Memory>
    ensures empty { IfOk result (λ bytes. bytes.items ≡ []) }
    ensures room { IfOk result (λ bytes. count ≤ vec_capacity bytes) }
{
    Ok(Vec::with_capacity(alloc, count)?)
}

/// The bytes that an even number of digits write, so many digits at least and so many at most. Takes memory for them.
pub fn bytes_of(alloc: Global, least: usize, most: usize, text: &[u8]) -> Result<Vec<u8>, LineFault>
    ensures reads { Reads (λ bytes. bytes.items) result (bytes_of least most text.now) }
    ensures least { IfOk result (λ bytes. least ≤ 2 * length bytes.items) }
    ensures most { IfOk result (λ bytes. 2 * length bytes.items ≤ most) }
{
    if text.len() < least || text.len() > most || text.len() % 2 != 0 {
        return Err(LineFault::Form);
    }
    let mut bytes = room_for(alloc, text.len() / 2)?;
    for pair in text.chunks_exact(2) {
        let Some(byte) = byte_of(pair[0], pair[1]) else {
            return Err(LineFault::Form);
        };
        bytes.push_reserved(byte);
    }
    Ok(bytes)
}

/// The payload that an even number of digits write, 2 to 8,192 of them, or `-` for no byte. Takes memory for it.
pub fn payload_of(alloc: Global, text: &[u8]) -> Result<Vec<u8>, LineFault>
    ensures reads { Reads (λ payload. payload.items) result (payload_of text.now) }
    ensures most { IfOk result (λ payload. 2 * length payload.items ≤ 8192) }
{
    if text == "-".as_bytes() {
        return Ok(Vec::new(alloc));
    }
    bytes_of(alloc, 2, 8192, text)
}
