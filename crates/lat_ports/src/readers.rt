//! Blocks over a source of the standard library's readers, and sinks of its writers.

use crate::failing::failing;
use crate::print::{bytes_onto, done_onto};
use crate::site::{Site, first_of, play_lines};
use lat_base::Memory;
use lat_outside::{ReadEnd, Source, StdSink, StdSource, read_all, write_all};
use lat_script::{Part, ScriptFault, bytes, no_command, short, word};
use std::alloc::Global;
use std::io::{self, Read};

/// One byte a call, and an error at each call that is to fail.
#[derive(Drop)]
struct Flaky<'a> {
    rest: &'a [u8],
    calls: u64,
    failing: &'a [u64],
}

impl Read for Flaky<'_> {
    fn read(&mut self, buf: &mut [u8]) -> io::Result<usize> {
        self.calls = self.calls.saturating_add(1);
        if self.failing.contains(&self.calls) {
            return Err(io::ErrorKind::BrokenPipe.into());
        }
        let (Some(place), Some((byte, rest))) = (buf.first_mut(), self.rest.split_first()) else {
            return Ok(0);
        };
        *place = *byte;
        self.rest = rest;
        Ok(1)
    }
}

/// A source over such a reader.
#[derive(Drop)]
struct Reader<'a> {
    source: StdSource<Flaky<'a>>,
}

impl Reader<'_> {
    fn read(&mut self, alloc: Global, text: &mut String) -> Result<(), Memory> {
        let mut buf = [0; 2];
        match self.source.read(&mut buf) {
            Ok(count) => bytes_onto(alloc, text, "bytes", &buf[..count]),
            Err(_) => Ok(text.push_str("failed\n")?),
        }
    }

    fn all(&mut self, alloc: Global, limit: usize, text: &mut String) -> Result<(), Memory> {
        match read_all(alloc, &mut self.source, limit.min(65_535)) {
            Ok(bytes) => bytes_onto(alloc, text, "bytes", bytes.as_slice()),
            Err(ReadEnd::Fault) => Ok(text.push_str("failed\n")?),
            Err(ReadEnd::Limit) => Ok(text.push_str("limit\n")?),
            Err(ReadEnd::Memory) => Err(Memory),
        }
    }
}

// Writes bytes by a sink of its own.
fn write_onto(alloc: Global, bytes: &[u8], text: &mut String) -> Result<(), Memory> {
    let mut written = Vec::new(alloc);
    let mut sink = StdSink::new(&mut written);
    let done = write_all(&mut sink, bytes);
    done_onto(text, done.is_ok())?;
    bytes_onto(alloc, text, "written", written.as_slice())
}

impl Site for Reader<'_> {
    fn act(&mut self, alloc: Global, line: &str, text: &mut String) -> Result<(), ScriptFault> {
        match word(line, 0) {
            "read" => Ok(self.read(alloc, text)?),
            "all" => Ok(self.all(alloc, usize::from(short(line, 1)?), text)?),
            "write" => {
                let bytes = bytes(alloc, line, 1)?;
                Ok(write_onto(alloc, bytes.as_slice(), text)?)
            }
            _ => Err(no_command(0)),
        }
    }
}

/// Plays a block over a source.
pub fn play_reader(alloc: Global, block: Part, text: &mut String) -> Result<(), ScriptFault> {
    let first = first_of(block);
    let gives = bytes(alloc, first, 1)?;
    let failing = failing(alloc, first, 2)?;
    let mut site = Reader {
        source: StdSource::new(Flaky {
            rest: gives.as_slice(),
            calls: 0,
            failing: failing.as_slice(),
        }),
    };
    Ok(play_lines(alloc, &mut site, block, text)?)
}
