//! Callers, and blocks over a line to which they come.

use crate::calls::call_onto;
use crate::failing::failing;
use crate::print::bytes_onto;
use crate::site::{Site, first_of, play_lines};
use lat_base::{Bytes, Memory};
use lat_outside::{Leave, MemCaller, MemCallers};
use lat_script::{Part, ScriptFault, bytes, no_command, number, short, word};
use std::alloc::Global;

/// Whether a line tells of a caller.
pub fn is_caller(line: &str) -> bool {
    matches!(word(line, 0), "caller" | "device")
}

// What a caller does behind its last byte.
fn leave_of(line: &str) -> Result<Leave, ScriptFault> {
    match word(line, 3) {
        "stays" => Ok(Leave::Stays),
        "ends" => Ok(Leave::Ends),
        "breaks" => Ok(Leave::Breaks),
        _ => Err(no_command(3)),
    }
}

// At which port the caller of a line is dialled, if at any, and behind how many others it comes.
fn place_of(line: &str) -> Result<(Option<u16>, u64), ScriptFault> {
    if word(line, 0) == "device" {
        return Ok((Some(short(line, 1)?), 0));
    }
    Ok((None, number(line, 1)?))
}

/// The caller of which a line tells.
pub fn caller_of(alloc: Global, line: &str) -> Result<MemCaller, ScriptFault> {
    let (dialled, behind) = place_of(line)?;
    let takes = usize::from(short(line, 2)?);
    let leaves = leave_of(line)?;
    let gives = bytes(alloc, line, 4)?;
    Ok(MemCaller {
        dialled,
        behind,
        gives: Bytes::copy(alloc, gives.as_slice())?,
        most_read: 2,
        takes,
        most_written: 3,
        leaves,
    })
}

/// The callers of which the lines of a block tell. A line that is refused tells of none.
pub fn callers_of(alloc: Global, block: Part) -> Result<Vec<MemCaller>, Memory> {
    let mut callers = Vec::new(alloc);
    for line in block.text.lines() {
        if is_caller(line) {
            match caller_of(alloc, line) {
                Ok(caller) => callers.push(caller)?,
                Err(ScriptFault::Memory) => return Err(Memory),
                Err(_) => {}
            }
        }
    }
    Ok(callers)
}

/// A line to which callers come.
#[derive(Drop)]
struct CalledLine<'a> {
    line: MemCallers<'a>,
}

impl Site for CalledLine<'_> {
    fn act(&mut self, alloc: Global, line: &str, text: &mut String) -> Result<(), ScriptFault> {
        if is_caller(line) {
            caller_of(alloc, line)?;
            return Ok(());
        }
        call_onto(alloc, &mut self.line, line, text)
    }
}

// Who is still to come, and what was written to each who was hung up.
fn rest_onto(alloc: Global, text: &mut String, line: &MemCallers<'_>) -> Result<(), Memory> {
    let rest = line.to_come();
    write!(text, "to come {rest}\n")?;
    let Some(written) = line.written() else {
        return Err(Memory);
    };
    for bytes in written {
        bytes_onto(alloc, text, "written", bytes.as_slice())?;
    }
    Ok(())
}

/// Plays a block over a line to which callers come.
pub fn play_callers(alloc: Global, block: Part, text: &mut String) -> Result<(), ScriptFault> {
    let first = first_of(block);
    let port = short(first, 1)?;
    let failing = failing(alloc, first, 2)?;
    let callers = callers_of(alloc, block)?;
    let mut site = CalledLine {
        line: MemCallers::new(alloc, Some(port), callers.as_slice(), failing.as_slice()),
    };
    play_lines(alloc, &mut site, block, text)?;
    Ok(rest_onto(alloc, text, &site.line)?)
}
