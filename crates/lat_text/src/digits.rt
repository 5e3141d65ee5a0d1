//! Bytes in print.

ghost use Rattle.std.specs.Prelude.{◌≡◌, ◌<◌, ◌++◌, OnOk, slice_index, string_bytes};
ghost use Rattle.hex.specs.Hex.{lower_digits};
ghost use Rattle.lat_text.specs.HexText.{byte_text, hex_text};

use std::alloc::{AllocError, Global};

/// How many bytes are written as digits at once.
const PIECE_BYTES: usize = 512;

/// The lower-case hex digits, by their values.
const DIGITS: &[u8; 16] = b"0123456789abcdef";

// The lower-case hex digit of a value.
fn digit_of(value: u8) -> char
    requires { value < 16 }
    ensures digit { result ≡ slice_index lower_digits value }
    ensures ascii { result < 128 }
{
    char::from(DIGITS[usize::from(value)])
}

/// Adds a byte to a text: two lower-case hex digits. After want of memory the first of them may stand in the text.
pub fn byte_onto(text: &mut String, byte: u8) -> Result<(), AllocError>
    ensures { OnOk result (string_bytes text.new ≡ string_bytes text.old ++ byte_text byte) }
{
    text.push(digit_of(byte / 16))?;
    text.push(digit_of(byte % 16))
}

/// Adds bytes to a text: two lower-case hex digits for each, or `-` for no byte.
/// After want of memory a part of it may stand in the text.
pub fn hex_onto(alloc: Global, text: &mut String, bytes: &[u8]) -> Result<(), AllocError>
    ensures { OnOk result (string_bytes text.new ≡ string_bytes text.old ++ hex_text bytes.now) }
{
    if bytes.is_empty() {
        return text.push_str("-");
    }
    for piece in bytes.chunks(PIECE_BYTES) {
        let digits = hex::encode(alloc, piece)?;
        text.push_str(&digits)?;
    }
    Ok(())
}
