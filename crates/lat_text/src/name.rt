//! Names in print.

ghost use Rattle.std.specs.Prelude.{◌≡◌, ◌++◌, OnOk, string_bytes};
ghost use Rattle.lat_text.specs.NameText.{is_plain, name_byte_text, name_text};

use crate::digits::byte_onto;
use lat_base::Name;
use std::alloc::AllocError;

// Whether a byte of a name stands for itself.
pub(crate) fn is_plain(byte: u8) -> bool
    ensures value { result ≡ is_plain byte }
{
    matches!(byte, 0x21..=0x7e) && byte != b'%'
}

fn name_byte_onto(text: &mut String, byte: u8) -> Result<(), AllocError>
    ensures { OnOk result (string_bytes text.new ≡ string_bytes text.old ++ name_byte_text byte) }
{
    if is_plain(byte) {
        return text.push(char::from(byte));
    }
    text.push('%')?;
    byte_onto(text, byte)
}

/// Adds a name to a text: each byte from 21 to 7E hex but `%` as itself, each other byte as `%` and its two lower-case
/// hex digits.
/// After want of memory a part of it may stand in the text.
pub fn name_onto(text: &mut String, name: &Name) -> Result<(), AllocError>
    ensures { OnOk result (string_bytes text.new ≡ string_bytes text.old ++ name_text name.now) }
{
    for byte in name.bytes() {
        name_byte_onto(text, *byte)?;
    }
    Ok(())
}
