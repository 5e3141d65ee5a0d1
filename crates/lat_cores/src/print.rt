//! Frames and books in words.

use lat_base::{LineBook, LineSession, Memory, OutFrame};
use lat_queue::Record;
use lat_script::{end_onto, kept_onto, totals_onto};
use lat_seq::Span;
use lat_show::payload_onto;
use lat_text::{address_onto, name_onto};
use std::alloc::{AllocError, Global};

/// Adds a frame of this number to the text: its mark, where it goes, its circuit, and what is shown of it.
pub fn frame_onto(
    alloc: Global,
    text: &mut String,
    number: usize,
    frame: &OutFrame,
) -> Result<(), Memory> {
    lat_script::frame_onto(text, number as u64, frame.mark)?;
    text.push_str(" to ")?;
    address_onto(text, frame.to)?;
    let circuit = frame.circuit;
    write!(text, " circuit {circuit}\n")?;
    payload_onto(alloc, text, frame.payload.bytes())
}

/// The word of a circuit's span.
pub fn span_word(span: Option<Span>) -> &'static str {
    match span {
        Some(Span::Byte) => "byte\n",
        Some(Span::Word) => "word\n",
        None => "none\n",
    }
}

/// The line of an answer that is yes or no.
pub fn yes_word(yes: bool) -> &'static str {
    if yes { "yes\n" } else { "no\n" }
}

// Adds the ids of a session's circuit, and of the session, at both ends.
fn ids_onto(text: &mut String, session: &LineSession) -> Result<(), AllocError> {
    let (circuit, id) = (session.circuit, session.session);
    write!(text, " circuit {circuit} session {id}")?;
    let (circuit, id) = (session.peer_circuit, session.peer_session);
    write!(text, " at the peer {circuit} {id}")
}

fn session_onto(text: &mut String, session: &LineSession) -> Result<(), Memory> {
    let number = session.number;
    write!(text, "number {number} peer ")?;
    address_onto(text, session.peer)?;
    ids_onto(text, session)?;
    text.push_str(" ")?;
    totals_onto(text, u64::from(session.given), u64::from(session.used))?;
    text.push_str(" end ")?;
    match session.end {
        Some(end) => Ok(end_onto(text, end)?),
        None => Ok(text.push_str("open\n")?),
    }
}

fn maybe_session_onto(text: &mut String, session: Option<LineSession>) -> Result<(), Memory> {
    match session {
        Some(session) => session_onto(text, &session),
        None => Ok(text.push_str("none\n")?),
    }
}

/// Adds the last two sessions of a line to the text.
pub fn book_onto(text: &mut String, book: Option<LineBook>) -> Result<(), Memory> {
    let Some(book) = book else {
        return Ok(text.push_str("no-line\n")?);
    };
    text.push_str("present ")?;
    maybe_session_onto(text, book.present)?;
    text.push_str("last ")?;
    maybe_session_onto(text, book.last)
}

/// Adds a request's record to the text.
pub fn record_onto(text: &mut String, record: Option<Record>) -> Result<(), Memory> {
    let Some(record) = record else {
        return Ok(text.push_str("none\n")?);
    };
    name_onto(text, &record.key.node)?;
    let (incarnation, request) = (record.key.incarnation, record.key.request);
    write!(text, " {incarnation} {request} ")?;
    name_onto(text, &record.service)?;
    text.push_str(" ")?;
    kept_onto(text, record.kept)?;
    match record.grant {
        Some(grant) => write!(text, " grant {grant}\n")?,
        None => text.push_str("\n")?,
    }
    Ok(())
}
