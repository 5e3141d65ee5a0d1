//! The calls of a line to which callers come.

use crate::print::{bytes_onto, done_onto, took_onto};
use lat_base::Memory;
use lat_outside::{CALLER_BYTES, CallerGot, Callers, Failed, Knock, Presence};
use lat_script::{ScriptFault, bytes, no_command, short, word};
use std::alloc::{AllocError, Global};

fn knock_onto(text: &mut String, knock: Result<Knock, Failed>) -> Result<(), AllocError> {
    match knock {
        Ok(Knock::Came) => text.push_str("came\n"),
        Ok(Knock::Quiet) => text.push_str("quiet\n"),
        Err(Failed) => text.push_str("failed\n"),
    }
}

fn presence_onto(text: &mut String, presence: Result<Presence, Failed>) -> Result<(), AllocError> {
    match presence {
        Ok(Presence::Stays) => text.push_str("stays\n"),
        Ok(Presence::Leaves) => text.push_str("leaves\n"),
        Err(Failed) => text.push_str("failed\n"),
    }
}

fn read_onto<C: Callers>(alloc: Global, line: &mut C, text: &mut String) -> Result<(), Memory> {
    let mut buf = [0; CALLER_BYTES];
    match line.read(&mut buf) {
        Ok(CallerGot::Bytes(count)) => bytes_onto(alloc, text, "bytes", &buf[..count]),
        Ok(CallerGot::Quiet) => Ok(text.push_str("quiet\n")?),
        Ok(CallerGot::Ended) => Ok(text.push_str("ended\n")?),
        Err(Failed) => Ok(text.push_str("failed\n")?),
    }
}

// A call that takes a word.
fn told_onto<C: Callers>(
    alloc: Global,
    line: &mut C,
    call: &str,
    text: &mut String,
) -> Result<(), ScriptFault> {
    match word(call, 0) {
        "dial" => {
            let done = line.dial(short(call, 1)?);
            Ok(done_onto(text, done.is_ok())?)
        }
        "write" => {
            let piece = bytes(alloc, call, 1)?;
            Ok(took_onto(text, line.write(piece.as_slice()).ok())?)
        }
        _ => Err(no_command(0)),
    }
}

/// Makes a call, and prints what it is answered.
pub fn call_onto<C: Callers>(
    alloc: Global,
    line: &mut C,
    call: &str,
    text: &mut String,
) -> Result<(), ScriptFault> {
    match word(call, 0) {
        "accept" => Ok(knock_onto(text, line.accept())?),
        "read" => Ok(read_onto(alloc, line, text)?),
        "watch" => Ok(presence_onto(text, line.watch())?),
        "hang-up" => {
            line.hang_up();
            Ok(())
        }
        "turn-away" => {
            let count = line.turn_away();
            Ok(write!(text, "away {count}\n")?)
        }
        _ => told_onto(alloc, line, call, text),
    }
}
