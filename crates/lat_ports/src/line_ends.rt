//! Blocks over the outer ends of lines.

ghost use Rattle.std.specs.Prelude.{◌<◌};

use crate::failing::failing;
use crate::print::{bytes_onto, done_onto, took_onto};
use crate::site::{Site, first_of, play_lines};
use lat_base::{Bytes, Memory};
use lat_outside::{Failed, LineEnd, LineGot, MemLine, MemOpener, Opener};
use lat_script::{Part, ScriptFault, byte_within, bytes, no_command, word};
use std::alloc::Global;

fn read_onto<L: LineEnd>(alloc: Global, line: &mut L, text: &mut String) -> Result<(), Memory> {
    let mut buf = [0; 3];
    match line.read(&mut buf) {
        Ok(LineGot::Bytes(count)) => bytes_onto(alloc, text, "bytes", &buf[..count]),
        Ok(LineGot::End) => Ok(text.push_str("end\n")?),
        Ok(LineGot::Quiet) => Ok(text.push_str("quiet\n")?),
        Err(Failed) => Ok(text.push_str("failed\n")?),
    }
}

// A call of a line.
fn call_onto<L: LineEnd>(
    alloc: Global,
    line: &mut L,
    call: &str,
    text: &mut String,
) -> Result<(), ScriptFault> {
    match word(call, 0) {
        "read" => Ok(read_onto(alloc, line, text)?),
        "write" => {
            let piece = bytes(alloc, call, 1)?;
            Ok(took_onto(text, line.write(piece.as_slice()).ok())?)
        }
        _ => Err(no_command(0)),
    }
}

/// A line.
#[derive(Drop)]
struct GivenLine<'a> {
    line: MemLine<'a>,
}

impl Site for GivenLine<'_> {
    fn act(&mut self, alloc: Global, line: &str, text: &mut String) -> Result<(), ScriptFault> {
        call_onto(alloc, &mut self.line, line, text)
    }
}

/// Plays a block over a line.
pub fn play_line(alloc: Global, block: Part, text: &mut String) -> Result<(), ScriptFault> {
    let first = first_of(block);
    let most = usize::from(byte_within(1, 255, first, 1)?);
    let gives = bytes(alloc, first, 2)?;
    let failing = failing(alloc, first, 3)?;
    let mut site = GivenLine {
        line: MemLine::new(alloc, gives.as_slice(), most, most, failing.as_slice()),
    };
    play_lines(alloc, &mut site, block, text)?;
    Ok(bytes_onto(alloc, text, "written", site.line.written())?)
}

/// An opener, and the line that it opened last.
#[derive(Drop)]
struct LineOpener<'a> {
    opener: MemOpener<'a>,
    line: Option<MemLine<'a>>,
}

impl LineOpener<'_> {
    fn open(&mut self, text: &mut String) -> Result<(), Memory> {
        let line = self.opener.open_line(1).ok();
        done_onto(text, line.is_some())?;
        if line.is_some() {
            self.line = line;
        }
        Ok(())
    }
}

impl Site for LineOpener<'_> {
    fn act(&mut self, alloc: Global, line: &str, text: &mut String) -> Result<(), ScriptFault> {
        match word(line, 0) {
            "gives" => {
                bytes(alloc, line, 1)?;
                Ok(())
            }
            "open" => Ok(self.open(text)?),
            _ => match &mut self.line {
                Some(end) => call_onto(alloc, end, line, text),
                None => Ok(text.push_str("no line\n")?),
            },
        }
    }
}

// What the lines of a block give. A line of the script that is refused gives nothing.
fn given_of(alloc: Global, block: Part) -> Result<Vec<Bytes>, Memory> {
    let mut given = Vec::new(alloc);
    for line in block.text.lines() {
        if word(line, 0) == "gives" {
            match bytes(alloc, line, 1) {
                Ok(bytes) => given.push(Bytes::copy(alloc, bytes.as_slice())?)?,
                Err(ScriptFault::Memory) => return Err(Memory),
                Err(_) => {}
            }
        }
    }
    Ok(given)
}

/// Plays a block over an opener of lines.
pub fn play_opened(alloc: Global, block: Part, text: &mut String) -> Result<(), ScriptFault> {
    let first = first_of(block);
    let most = usize::from(byte_within(1, 255, first, 1)?);
    let failing = failing(alloc, first, 2)?;
    let given = given_of(alloc, block)?;
    let mut site = LineOpener {
        opener: MemOpener::new(alloc, &[], given.as_slice(), most, failing.as_slice()),
        line: None,
    };
    Ok(play_lines(alloc, &mut site, block, text)?)
}
