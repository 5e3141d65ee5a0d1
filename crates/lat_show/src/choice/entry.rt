//! What a line of the input says.

ghost use Rattle.std.specs.Prelude.{◌≡◌, IfOk};
ghost use Rattle.lat_show.specs.choice.Announced.{announcement_read};
ghost use Rattle.lat_show.specs.choice.Entries.{moment, hear_of, best_of, entry_of, entry_from};
ghost use Rattle.lat_text.specs.Reads.{Reads};

use lat_base::{Addr, Bad, Field, Memory, Name};
use lat_notices::{Announcement, FrameFault, Notice, read_notice};
use lat_text::{LineFault, address_of, first_word, moment_of, name_of, payload_of};
use std::alloc::Global;

/// What a line says.
#[derive(Drop)]
pub enum Entry {
    /// At a moment, a payload is heard from a station: an announcement, or what its first bad field is.
    Hear {
        at: u64,
        from: Addr,
        found: Result<Announcement, Bad>,
    },
    /// At a moment, the best node of a service is asked for.
    Best {
        at: u64,
        service: Name,
    },
}

impl Entry {
    /// The moment at which it is.
    pub fn moment(&self) -> u64
        ensures { result ≡ moment self.now }
    {
        match self {
            Entry::Hear { at, .. } => *at,
            Entry::Best { at, .. } => *at,
        }
    }
}

// What is heard of a payload: a whole notice of another type is refused by its first byte.
fn announcement_of(alloc: Global, payload: &[u8]) -> Result<Result<Announcement, Bad>, Memory>
    ensures { IfOk result (λ found. found ≡ announcement_read payload.now) }
{
    match read_notice(alloc, payload) {
        Ok(Notice::Announcement(announcement)) => Ok(Ok(announcement)),
        Ok(_) => Ok(Err(Bad {
            field: Field::Kind,
            at: 0,
        })),
        Err(FrameFault::Bad(bad)) => Ok(Err(bad)),
        Err(FrameFault::Memory) => Err(Memory),
    }
}

// `T ADDR HEX`
fn hear_of(alloc: Global, text: &[u8]) -> Result<Entry, LineFault>
    ensures { Reads (λ entry. entry) result (hear_of text.now) }
{
    let (moment, rest) = first_word(text).ok_or(LineFault::Form)?;
    let (address, digits) = first_word(rest).ok_or(LineFault::Form)?;
    let at = moment_of(moment).ok_or(LineFault::Form)?;
    let from = address_of(address).ok_or(LineFault::Form)?;
    let payload = payload_of(alloc, digits)?;
    let found = announcement_of(alloc, &payload)?;
    Ok(Entry::Hear { at, from, found })
}

// `T NAME`
fn best_of(text: &[u8]) -> Option<Entry>
    ensures { result ≡ best_of text.now }
{
    let (moment, name) = first_word(text)?;
    let at = moment_of(moment)?;
    let service = name_of(name)?;
    Some(Entry::Best { at, service })
}

fn entry_of(alloc: Global, line: &[u8]) -> Result<Entry, LineFault>
    ensures { Reads (λ entry. entry) result (entry_of line.now) }
{
    let (word, rest) = first_word(line).ok_or(LineFault::Form)?;
    if word == "hear".as_bytes() {
        hear_of(alloc, rest)
    } else if word == "best".as_bytes() {
        best_of(rest).ok_or(LineFault::Form)
    } else {
        Err(LineFault::Form)
    }
}

/// The entry that a line is: `hear T ADDR HEX` or `best T NAME`, of a moment not below the last one. None where it is
/// no such one. Takes memory for what is heard.
pub fn entry_from(alloc: Global, last: u64, line: &[u8]) -> Result<Option<Entry>, Memory>
    ensures { IfOk result (λ found. found ≡ entry_from last line.now) }
{
    match entry_of(alloc, line) {
        Ok(entry) if entry.moment() < last => Ok(None),
        Ok(entry) => Ok(Some(entry)),
        Err(LineFault::Form) => Ok(None),
        Err(LineFault::Memory) => Err(Memory),
    }
}
