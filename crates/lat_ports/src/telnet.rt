//! Blocks over the filter of a client that speaks telnet.

use crate::print::bytes_onto;
use crate::site::Site;
use lat_base::Memory;
use lat_script::{ScriptFault, bytes, no_command, word};
use lat_terminal::{Heard, Telnet, double};
use lat_text::{byte_onto, hex_onto};
use std::alloc::Global;

/// A filter.
#[derive(Drop)]
pub struct TelnetClient {
    filter: Telnet,
}

fn thing_onto(alloc: Global, text: &mut String, heard: Heard) -> Result<(), Memory> {
    match heard {
        Heard::Byte(byte) => {
            text.push_str(" ")?;
            byte_onto(text, byte)?;
        }
        Heard::Attention => text.push_str(" attention")?,
        Heard::Answer(said) => {
            text.push_str(" answer ")?;
            hex_onto(alloc, text, &said.bytes())?;
        }
    }
    Ok(())
}

// What comes of these bytes.
fn heard_of(alloc: Global, filter: &mut Telnet, bytes: &[u8]) -> Result<Vec<Heard>, Memory> {
    let mut out = Vec::with_capacity(alloc, bytes.len())?;
    filter.feed(bytes, &mut out);
    Ok(out)
}

// These bytes, 256 at most, as they are sent to a client.
fn doubled(alloc: Global, bytes: &[u8]) -> Result<Vec<u8>, Memory> {
    let (front, _) = bytes.split_at(bytes.len().min(256));
    let mut out = Vec::with_capacity(alloc, 512)?;
    double(front, &mut out);
    Ok(out)
}

// Whether what was heard are all bytes, from this one on, each once and in order; and the one behind it.
fn follow(heard: &[Heard], first: u16) -> Option<u16> {
    let mut next = first;
    for thing in heard {
        if *thing != Heard::Byte(u8::try_from(next).ok()?) {
            return None;
        }
        next = next.saturating_add(1);
    }
    Some(next)
}

// Whether all bytes come where these, which are sent, are cut here.
fn all_come(alloc: Global, sent: &[u8], cut: usize) -> Result<bool, Memory> {
    let (front, back) = sent.split_at(cut.min(sent.len()));
    let mut filter = Telnet::make();
    let first = heard_of(alloc, &mut filter, front)?;
    let second = heard_of(alloc, &mut filter, back)?;
    let Some(next) = follow(first.as_slice(), 0) else {
        return Ok(false);
    };
    Ok(follow(second.as_slice(), next) == Some(256))
}

fn cuts_onto(alloc: Global, text: &mut String) -> Result<(), Memory> {
    let mut bytes = Vec::new(alloc);
    for byte in 0..=255_u8 {
        bytes.push(byte)?;
    }
    let sent = doubled(alloc, bytes.as_slice())?;
    let mut count = 0_u64;
    for cut in 0..=sent.len() {
        if all_come(alloc, sent.as_slice(), cut)? {
            count = count.saturating_add(1);
        }
    }
    Ok(write!(text, "all come at {count}\n")?)
}

fn offers_onto(alloc: Global, text: &mut String) -> Result<(), Memory> {
    for offer in Telnet::offers() {
        bytes_onto(alloc, text, "offer", &offer.bytes())?;
    }
    Ok(())
}

impl TelnetClient {
    /// The filter of one that has sent nothing.
    pub fn new() -> TelnetClient {
        TelnetClient {
            filter: Telnet::make(),
        }
    }

    fn feed(&mut self, alloc: Global, bytes: &[u8], text: &mut String) -> Result<(), Memory> {
        let heard = heard_of(alloc, &mut self.filter, bytes)?;
        text.push_str("heard")?;
        for thing in heard.as_slice() {
            thing_onto(alloc, text, *thing)?;
        }
        Ok(text.push_str("\n")?)
    }
}

impl Site for TelnetClient {
    fn act(&mut self, alloc: Global, line: &str, text: &mut String) -> Result<(), ScriptFault> {
        let bytes = bytes(alloc, line, 1)?;
        match word(line, 0) {
            "feed" => Ok(self.feed(alloc, bytes.as_slice(), text)?),
            "offers" => Ok(offers_onto(alloc, text)?),
            "double" => {
                let sent = doubled(alloc, bytes.as_slice())?;
                Ok(bytes_onto(alloc, text, "sent", sent.as_slice())?)
            }
            "cuts" => Ok(cuts_onto(alloc, text)?),
            _ => Err(no_command(0)),
        }
    }
}
