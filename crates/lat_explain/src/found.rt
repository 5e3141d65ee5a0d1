//! What was found where a line goes no further.

ghost use Rattle.std.specs.Prelude.{◌≡◌, ◌≤◌, ◌<◌, ◌++◌, OnOk, drop, length, string_bytes, take};
ghost use Rattle.lat_explain.specs.Found as founds;
ghost use Rattle.lat_explain.specs.Found.{byte_shown, quoted, word_found, start_of, end_found, found_within, found};

use crate::walk::front_word;
use lat_text::byte_onto;
use std::alloc::AllocError;

/// So many bytes of a word are shown at most.
const SHOWN: usize = 40;

fn byte_shown_onto(text: &mut String, byte: u8) -> Result<(), AllocError>
    ensures { OnOk result (string_bytes text.new ≡ string_bytes text.old ++ byte_shown byte) }
{
    if matches!(byte, 0x20..=0x7e) {
        return text.push(char::from(byte));
    }
    text.push('%')?;
    byte_onto(text, byte)
}

/// Adds a word: a visible byte of ASCII or a space is itself, each other byte is `%` with its two hex digits.
pub(crate) fn shown_onto(text: &mut String, word: &[u8]) -> Result<(), AllocError>
    ensures { OnOk result (string_bytes text.new ≡ string_bytes text.old ++ founds.shown word.now) }
{
    for byte in word {
        byte_shown_onto(text, *byte)?;
    }
    Ok(())
}

// The first bytes, so many.
pub(crate) fn front(bytes: &[u8], most: usize) -> &[u8]
    ensures { result.now ≡ take most bytes.now }
{
    if bytes.len() <= most {
        return bytes;
    }
    let (front, _) = bytes.split_at(most);
    front
}

/// Adds a word in quotes, 40 bytes of it at most.
pub(crate) fn quoted_onto(text: &mut String, word: &[u8]) -> Result<(), AllocError>
    ensures { OnOk result (string_bytes text.new ≡ string_bytes text.old ++ quoted word.now) }
{
    text.push_str("\"")?;
    shown_onto(text, front(word, SHOWN))?;
    if SHOWN < word.len() {
        text.push_str("..")?;
    }
    text.push_str("\"")
}

fn word_found_onto(text: &mut String, word: &[u8], good: usize) -> Result<(), AllocError>
    ensures { OnOk result (string_bytes text.new ≡ string_bytes text.old ++ word_found word.now good) }
{
    if word.len() <= SHOWN {
        return quoted_onto(text, word);
    }
    quoted_onto(text, behind(word, good))
}

// All behind this place.
pub(crate) fn behind(line: &[u8], at: usize) -> &[u8]
    ensures { result.now ≡ drop at line.now }
{
    if line.len() <= at {
        return &[];
    }
    let (_, behind) = line.split_at(at);
    behind
}

/// Where the word begins in which this place of a line stands.
#[tactic(auto, unfolding(crate::specs::Found::word_start))]
pub(crate) fn start_of(line: &[u8], at: usize) -> usize
    ensures value { result ≡ start_of line.now at }
    ensures most { result ≤ at }
{
    let mut start = 0;
    for place in 0..line.len() {
        if place == at {
            return start;
        }
        if line[place] == b' ' {
            start = place + 1;
        }
    }
    start
}

fn end_found(ended: bool) -> &'static str
    ensures { result.now ≡ end_found ended }
{
    if ended {
        "the end of the line"
    } else {
        "the end of the text"
    }
}

fn found_within_onto(text: &mut String, line: &[u8], at: usize) -> Result<(), AllocError>
    requires { at < length line.now }
    ensures { OnOk result (string_bytes text.new ≡ string_bytes text.old ++ found_within line.now at) }
{
    if line[at] == b' ' {
        return text.push_str("a space");
    }
    let start = start_of(line, at);
    word_found_onto(text, front_word(behind(line, start)), at - start)
}

/// Adds what stands at this place of a line, which a line feed ends or not.
pub(crate) fn found_onto(
    text: &mut String,
    ended: bool,
    line: &[u8],
    at: usize,
) -> Result<(), AllocError>
    ensures { OnOk result (string_bytes text.new ≡ string_bytes text.old ++ found ended line.now at) }
{
    if at < line.len() {
        found_within_onto(text, line, at)
    } else {
        text.push_str(end_found(ended))
    }
}
