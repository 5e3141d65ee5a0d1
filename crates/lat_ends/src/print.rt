//! Answers in words.

use lat_base::{Answer, Heard, Memory, OutFrame, SessionEnd};
use lat_circuit::{Due, SessionFault};
use lat_script::{answer_onto, end_onto, heard_onto, number_onto, put_onto};
use lat_show::payload_onto;
use std::alloc::{AllocError, Global};

/// Adds what came of a moment to the text.
pub fn due_onto(text: &mut String, due: Due) -> Result<(), AllocError> {
    match due {
        Due::Quiet => text.push_str("quiet\n"),
        Due::Sent(frames) => write!(text, "sent {frames}\n"),
        Due::Ended(reason) => heard_onto(text, Heard::Ended(reason)),
    }
}

// What a call answers that was done or refused.
fn answer_of(answer: Result<(), SessionFault>) -> Answer {
    match answer {
        Ok(()) => Answer::Done,
        Err(SessionFault::Full) => Answer::Full,
        Err(SessionFault::Closed) => Answer::Closed,
    }
}

/// Adds a call's answer to the text.
pub fn done_onto(
    alloc: Global,
    text: &mut String,
    answer: Result<(), SessionFault>,
) -> Result<(), AllocError> {
    answer_onto(alloc, text, &answer_of(answer))
}

/// Adds the answer of a put to the text.
pub fn count_onto(
    alloc: Global,
    text: &mut String,
    answer: Result<usize, SessionFault>,
) -> Result<(), AllocError> {
    match answer {
        Ok(count) => put_onto(text, count as u64),
        Err(fault) => done_onto(alloc, text, Err(fault)),
    }
}

/// How a session ended, where it did.
pub fn ended_onto(text: &mut String, end: Option<SessionEnd>) -> Result<(), AllocError> {
    match end {
        Some(end) => end_onto(text, end),
        None => text.push_str("none\n"),
    }
}

/// Adds a number that may be missing to the text.
pub fn maybe_onto(text: &mut String, value: Option<u8>) -> Result<(), AllocError> {
    match value {
        Some(value) => number_onto(text, u64::from(value)),
        None => text.push_str("none\n"),
    }
}

/// Whether a circuit lives, or for which reason it ended.
pub fn life_onto(text: &mut String, ended: Option<u8>) -> Result<(), AllocError> {
    match ended {
        Some(reason) => heard_onto(text, Heard::Ended(reason)),
        None => text.push_str("yes\n"),
    }
}

/// Adds a frame of this number to the text: its mark, and what is shown of it.
pub fn frame_onto(
    alloc: Global,
    text: &mut String,
    number: usize,
    frame: &OutFrame,
) -> Result<(), Memory> {
    lat_script::frame_onto(text, number as u64, frame.mark)?;
    text.push_str("\n")?;
    payload_onto(alloc, text, frame.payload.bytes())
}
