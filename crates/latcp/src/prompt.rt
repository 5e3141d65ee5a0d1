//! One command, and the prompt.

use crate::status::Status;
use crate::talk::{Talk, TalkFault};
use lat_outside::{Sink, write_all};
use std::alloc::{AllocError, Global};
use std::io::Input;

const PROMPT: &[u8] = b"latcp> ";

/// Where answers go, and whether the prompt goes there too: it does where standard input is a terminal.
#[derive(Drop)]
pub struct Shown<'a, O: Sink> {
    pub sink: &'a mut O,
    pub is_terminal: bool,
}

impl<O: Sink> Shown<'_, O> {
    // Shows the prompt, where it is shown. One that can't be written is left out.
    fn show_prompt(&mut self) {
        if self.is_terminal {
            let _ = write_all(self.sink, PROMPT);
        }
    }
}

/// Gives a line, and shows its answer.
pub fn answered<O: Sink>(
    alloc: Global,
    talk: &mut Talk,
    line: &str,
    out: &mut Shown<'_, O>,
) -> Status {
    match talk.ask(alloc, line) {
        Ok(answer) => match write_all(out.sink, answer.text()) {
            Ok(()) => answer.status(),
            Err(_) => Status::Broken,
        },
        Err(TalkFault::Broken) => Status::Broken,
        Err(TalkFault::Memory) => Status::Memory,
    }
}

// The line with its line feed.
fn fed(line: String) -> Result<String, AllocError> {
    let mut line = line;
    line.push('\n')?;
    Ok(line)
}

// Whether the line ends the prompt.
fn is_last(line: &str) -> bool {
    line == "exit" || line == "quit"
}

/// Gives each line of the input, and shows its answer, until the input ends or says so. Empty lines are left out. It ends with
/// `Done`, or with what ended the talk.
pub fn prompt<R: Input, O: Sink>(
    rt: &R,
    alloc: Global,
    talk: &mut Talk,
    out: &mut Shown<'_, O>,
) -> Status {
    out.show_prompt();
    for line in rt.lines(alloc) {
        let Ok(line) = line else {
            return Status::Broken;
        };
        if is_last(line.as_str()) {
            return Status::Done;
        }
        if !line.as_str().is_empty() {
            let Ok(line) = fed(line) else {
                return Status::Memory;
            };
            match answered(alloc, talk, line.as_str(), out) {
                Status::Done | Status::Refused => {}
                over => return over,
            }
        }
        out.show_prompt();
    }
    Status::Done
}
