//! The lines of a capture, as they are read.

ghost use Rattle.std.specs.Prelude.{◌≡◌, ◌≤◌, IfSome, IfOk, length};
ghost use Rattle.lat_text.specs.Reads.{Reads};
ghost use Rattle.lat_audit.specs.Written.{IsTitle};
ghost use Rattle.lat_audit.specs.Lines.{id_of, wide_of, side_of, title_of, entry_of};

use crate::entry::Entry;
use lat_base::Bytes;
use lat_captures::Title;
use lat_text::{LineFault, behind_word, first_word, number_within, payload_of};
use std::alloc::Global;

// The id of a circuit at one of its ends.
fn id_of(text: &[u8]) -> Option<u16>
    ensures value { result ≡ id_of text.now }
    ensures least { IfSome result (λ id. 1 ≤ id) }
{
    let id = number_within(1, 65_535, text)?;
    Some(id as u16)
}

// Whether numbers have two bytes.
fn wide_of(word: &[u8]) -> Option<bool>
    ensures { result ≡ wide_of word.now }
{
    if word == "byte".as_bytes() {
        Some(false)
    } else if word == "word".as_bytes() {
        Some(true)
    } else {
        None
    }
}

// Whether the master sent it.
fn side_of(word: &[u8]) -> Option<bool>
    ensures { result ≡ side_of word.now }
{
    if word == "m".as_bytes() {
        Some(true)
    } else if word == "s".as_bytes() {
        Some(false)
    } else {
        None
    }
}

/// The title that a first line is: `circuit P Q SPAN`, the circuit's id at the master and at the slave, each 1 to 65,535, and
/// `byte` or `word`. None where it is no such one.
pub fn title_of(line: &[u8]) -> Option<Title>
    ensures value { result ≡ title_of line.now }
    ensures title { IfSome result IsTitle }
{
    let ids = behind_word("circuit", line)?;
    let (first, rest) = first_word(ids)?;
    let (second, span) = first_word(rest)?;
    let master = id_of(first)?;
    let slave = id_of(second)?;
    let wide = wide_of(span)?;
    Some(Title {
        master,
        slave,
        wide,
    })
}

/// The entry that a line behind the first is: `m HEX` or `s HEX`, what the master or the slave sent. `Form` exactly where it is
/// no such one. Takes memory for the payload.
pub fn entry_of(alloc: Global, line: &[u8]) -> Result<Entry, LineFault>
    ensures reads { Reads (λ entry. entry) result (entry_of line.now) }
    ensures most { IfOk result (λ entry. length entry.payload ≤ 4096) }
{
    let (word, digits) = first_word(line).ok_or(LineFault::Form)?;
    let by_master = side_of(word).ok_or(LineFault::Form)?;
    let bytes = payload_of(alloc, digits)?;
    let payload = Bytes::copy(alloc, &bytes)?;
    Ok(Entry { by_master, payload })
}
