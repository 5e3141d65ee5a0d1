//! The lines of a file, in order.

use crate::hour::hour_of;
use crate::input::Input;
use crate::words::behind;
use lat_base::Memory;
use lat_cmd::run;
use lat_node::FreeLines;
use lat_outside::{MemSink, MemSource};
use lat_script::{
    ScriptFault, bytes, is_command, no_command, number, number_within, refused_onto, word,
};
use std::alloc::Global;

// The words of the program's next runs, their input, and what the last run wrote.
#[derive(Drop)]
struct Play {
    words: Vec<String>,
    input: Input,
    written: Vec<u8>,
    // What the last run told on standard error.
    told: Vec<u8>,
}

// How the outside behaves: the bytes of a call, and the call that fails.
#[derive(Clone, Copy, Drop)]
struct Outside {
    read_most: usize,
    failing_read: u64,
    write_most: usize,
    failing_write: u64,
}

const SOUND: Outside = Outside {
    read_most: 4096,
    failing_read: 0,
    write_most: 4096,
    failing_write: 0,
};

// Text that was written, with a mark where its last line has no line feed.
fn written_onto(text: &mut String, written: &[u8]) -> Result<(), Memory> {
    match str::from_utf8(written) {
        Ok(written) => text.push_str(written)?,
        Err(_) => text.push_str("no text")?,
    }
    match written.last() {
        None | Some(b'\n') => Ok(()),
        Some(_) => Ok(text.push_str("%\n")?),
    }
}

// Words, separated by blanks.
fn words_of(alloc: Global, line: &str) -> Result<Vec<String>, Memory> {
    let mut words = Vec::new(alloc);
    if line != "" {
        for word in line.split(' ') {
            words.push(String::from_str(alloc, word)?)?;
        }
    }
    Ok(words)
}

// Runs the program, whose node rates its services by the lines that are left, and gives its status.
fn status_of(
    alloc: Global,
    words: &[String],
    source: &mut MemSource,
    sink: &mut MemSink,
    told: &mut MemSink,
) -> u8 {
    run(alloc, words, FreeLines, source, sink, told).status
}

// How many line feeds there are, and the sum over all bytes: taken 31 times before each byte is added.
fn measured(bytes: &[u8]) -> (u64, u64) {
    let mut lines: u64 = 0;
    let mut sum: u64 = 0;
    for byte in bytes {
        lines = lines.wrapping_add(u64::from(*byte == b'\n'));
        sum = sum.wrapping_mul(31).wrapping_add(u64::from(*byte));
    }
    (lines, sum)
}

// The number behind the command, which isn't 0.
fn at_least_one(line: &str) -> Result<u64, ScriptFault> {
    number_within(1, u64::MAX, line, 1)
}

impl Play {
    // These words, separated by blanks, and no input.
    fn of(alloc: Global, words: &str) -> Result<Play, Memory> {
        Ok(Play {
            words: words_of(alloc, words)?,
            input: Input::new(alloc),
            written: Vec::new(alloc),
            told: Vec::new(alloc),
        })
    }

    // These words, with the input that was put.
    fn rename(&mut self, alloc: Global, words: &str) -> Result<(), Memory> {
        self.words = words_of(alloc, words)?;
        Ok(())
    }

    // These words, and as input what the last run wrote.
    fn pipe(&mut self, alloc: Global, words: &str) -> Result<(), Memory> {
        self.rename(alloc, words)?;
        std::mem::swap(&mut self.input.bytes, &mut self.written);
        Ok(())
    }

    // Runs the program, keeps what it wrote, and gives its status.
    fn made(&mut self, alloc: Global, outside: Outside) -> Result<u8, Memory> {
        let failing_reads = [outside.failing_read];
        let failing_writes = [outside.failing_write];
        let mut source = MemSource::new(
            &self.input.bytes,
            outside.read_most.max(1),
            &failing_reads,
        );
        let mut sink = MemSink::new(alloc, outside.write_most, &failing_writes);
        let mut told = MemSink::new(alloc, 4096, &[]);
        let status = status_of(alloc, &self.words, &mut source, &mut sink, &mut told);
        self.written.clear();
        self.written.extend_from_slice(sink.bytes())?;
        self.told.clear();
        self.told.extend_from_slice(told.bytes())?;
        Ok(status)
    }

    // Runs the program, and prints its status and what it wrote.
    fn run(&mut self, alloc: Global, outside: Outside, text: &mut String) -> Result<(), Memory> {
        let status = self.made(alloc, outside)?;
        write!(text, "status {status}\n")?;
        written_onto(text, &self.written)
    }

    // Runs the program, and prints its status and what it told.
    fn tell(&mut self, alloc: Global, text: &mut String) -> Result<(), Memory> {
        let status = self.made(alloc, SOUND)?;
        write!(text, "status {status}\n")?;
        written_onto(text, &self.told)
    }

    // Runs the program, and prints its status and the measure of what it wrote.
    fn measure(&mut self, alloc: Global, text: &mut String) -> Result<(), Memory> {
        let status = self.made(alloc, SOUND)?;
        let bytes = self.written.len();
        let (lines, sum) = measured(&self.written);
        Ok(write!(
            text,
            "status {status}\n{bytes} bytes in {lines} lines, sum {sum}\n"
        )?)
    }

    fn outside(&mut self, alloc: Global, line: &str, text: &mut String) -> Result<(), ScriptFault> {
        let outside = Outside {
            read_most: at_least_one(line)? as usize,
            failing_read: number(line, 2)?,
            write_most: number(line, 3)? as usize,
            failing_write: number(line, 4)?,
        };
        Ok(self.run(alloc, outside, text)?)
    }

    fn reads(&mut self, alloc: Global, line: &str, text: &mut String) -> Result<(), ScriptFault> {
        let (most, calls) = (at_least_one(line)?, number(line, 2)?);
        for call in 0..calls {
            let outside = Outside {
                read_most: most as usize,
                failing_read: call + 1,
                ..SOUND
            };
            self.run(alloc, outside, text)?;
        }
        Ok(())
    }

    fn writes(&mut self, alloc: Global, line: &str, text: &mut String) -> Result<(), ScriptFault> {
        let (most, calls) = (number(line, 1)?, number(line, 2)?);
        for call in 0..calls {
            let outside = Outside {
                write_most: most as usize,
                failing_write: call + 1,
                ..SOUND
            };
            self.run(alloc, outside, text)?;
        }
        Ok(())
    }

    // A line that puts something in the place of the words or of the input; else false.
    fn changes(&mut self, alloc: Global, line: &str) -> Result<bool, ScriptFault> {
        match word(line, 0) {
            "command" => *self = Play::of(alloc, behind(line, "command"))?,
            "words" => self.rename(alloc, behind(line, "words"))?,
            "lines" => self.input.keep(number(line, 1)?),
            "line" => self.exchange(alloc, line)?,
            "pipe" => self.pipe(alloc, behind(line, "pipe"))?,
            _ => return Ok(false),
        }
        Ok(true)
    }

    // Puts a text in the place of a line of the input.
    fn exchange(&mut self, alloc: Global, line: &str) -> Result<(), ScriptFault> {
        let at = at_least_one(line)?;
        Ok(self.input.replace(alloc, at, behind_two(line))?)
    }

    // A line that runs the program.
    fn runs(&mut self, alloc: Global, line: &str, text: &mut String) -> Result<(), ScriptFault> {
        match word(line, 0) {
            "run" => Ok(self.run(alloc, SOUND, text)?),
            "told" => Ok(self.tell(alloc, text)?),
            "measure" => Ok(self.measure(alloc, text)?),
            "outside" => self.outside(alloc, line, text),
            "reads" => self.reads(alloc, line, text),
            "writes" => self.writes(alloc, line, text),
            "cuts" => cuts(alloc, line, text),
            _ => Err(no_command(0)),
        }
    }

    // A line that puts something behind the input, which isn't printed; else false.
    fn takes(&mut self, alloc: Global, line: &str) -> Result<bool, ScriptFault> {
        match word(line, 0) {
            "input" => self.input.repeat(1, behind(line, "input"))?,
            "tail" => self.input.put(behind(line, "tail"))?,
            "feeds" => self.input.repeat(number(line, 1)?, "")?,
            "many" => self.input.repeat(number(line, 1)?, behind_two(line))?,
            "hour" => self.input.put(&hour_of(alloc)?)?,
            _ => return Ok(false),
        }
        Ok(true)
    }

    // What one line does; it is printed, unless it puts something behind the input.
    fn line(&mut self, alloc: Global, line: &str, text: &mut String) -> Result<(), ScriptFault> {
        if self.takes(alloc, line)? || !is_command(line, text)? {
            return Ok(());
        }
        if self.changes(alloc, line)? {
            return Ok(());
        }
        self.runs(alloc, line, text)
    }
}

// What `show` prints of the first bytes of a payload.
fn cut(alloc: Global, bytes: &[u8], text: &mut String) -> Result<(), Memory> {
    let mut play = Play::of(alloc, "show")?;
    let digits = hex::encode(alloc, bytes)?;
    play.input.repeat(1, digits.as_str())?;
    play.run(alloc, SOUND, text)
}

// That of each number of bytes but all, of the payload that a line says.
fn cuts(alloc: Global, line: &str, text: &mut String) -> Result<(), ScriptFault> {
    let bytes = bytes(alloc, line, 1)?;
    for count in 0..bytes.len() {
        write!(text, "{count} bytes, ")?;
        cut(alloc, &bytes[..count], text)?;
    }
    Ok(())
}

// All behind the first two words.
fn behind_two(line: &str) -> &str {
    behind(behind(line, word(line, 0)), word(line, 1))
}

/// What is printed of a file.
pub fn played(alloc: Global, file: &str) -> Result<String, Memory> {
    let mut text = String::new(alloc);
    let mut play = Play::of(alloc, "")?;
    for (at, line) in file.lines().enumerate() {
        let done = play.line(alloc, line, &mut text);
        refused_onto(&mut text, (at as u64).saturating_add(1), done)?;
    }
    Ok(text)
}
