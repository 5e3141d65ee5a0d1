//! Words in a picture.

ghost use Rattle.std.specs.Prelude.{◌≡◌, ◌++◌, OnOk, string_bytes};
ghost use Rattle.lat_draw.specs.Escaped.{escaped_byte, escaped, cut};

use std::alloc::AllocError;

fn byte_onto(text: &mut String, byte: u8) -> Result<(), AllocError>
    ensures { OnOk result (string_bytes text.new ≡ string_bytes text.old ++ escaped_byte byte) }
{
    match byte {
        b'<' => text.push_str("&lt;"),
        b'>' => text.push_str("&gt;"),
        b'&' => text.push_str("&amp;"),
        0x20..=0x7e => text.push(char::from(byte)),
        _ => text.push_str("."),
    }
}

fn bytes_onto(text: &mut String, words: &[u8]) -> Result<(), AllocError>
    ensures { OnOk result (string_bytes text.new ≡ string_bytes text.old ++ escaped words.now) }
{
    for byte in words {
        byte_onto(text, *byte)?;
    }
    Ok(())
}

/// Adds words to a picture's text, as characters of a text of it.
pub(crate) fn escaped_onto(text: &mut String, words: &str) -> Result<(), AllocError>
    ensures { OnOk result (string_bytes text.new ≡ string_bytes text.old ++ escaped words.now) }
{
    bytes_onto(text, words.as_bytes())
}

/// The same, of words that may be too long: of these the first ones and two dots.
#[tactic(auto, unfolding(crate::specs::Escaped::cut))]
pub(crate) fn cut_onto(text: &mut String, most: usize, words: &str) -> Result<(), AllocError>
    ensures { OnOk result (string_bytes text.new ≡ string_bytes text.old ++ cut most words.now) }
{
    let bytes = words.as_bytes();
    if bytes.len() <= most {
        return bytes_onto(text, bytes);
    }
    bytes_onto(text, &bytes[..most])?;
    text.push_str("..")
}
