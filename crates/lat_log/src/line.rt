//! The lines of a log.

ghost use Rattle.std.specs.Prelude.{◌≡◌, ◌++◌, OnOk, string_bytes};
ghost use Rattle.lat_log.specs.Lines.{LineAdded, level_of};
ghost use Rattle.lat_log.specs.Words.{entry_words};

use crate::daemon::{bad_onto, line_listens_onto, queue_listens_onto, started_onto, stopped_onto};
use crate::entry::Entry;
use crate::offers::{joined_onto, service_onto};
use crate::sessions::{caller_onto, request_onto, session_onto};
use crate::stamp::stamp_onto;
use lat_base::Name;
use lat_text::name_onto;
use log::Level;
use std::alloc::AllocError;

/// How much an entry matters: what comes near its end or was missed is an error, bad payloads are for who looks for them, and
/// all else is information. `docs/FORMATS.md`, "The log", has the table.
pub fn level_of(entry: &Entry) -> Level
    ensures { result ≡ level_of entry.now }
{
    match entry {
        Entry::IdsLeft(_) | Entry::RecordsLeft(_) | Entry::Missed(_) => Level::Error,
        Entry::Bad { .. } | Entry::MoreBad(_) => Level::Debug,
        _ => Level::Info,
    }
}

/// Adds the words of an entry. After want of memory a part of them may stand in the text.
pub fn words_onto(text: &mut String, entry: &Entry) -> Result<(), AllocError>
    ensures { OnOk result (string_bytes text.new ≡ string_bytes text.old ++ entry_words entry.now) }
{
    match entry {
        Entry::Started {
            role,
            address,
            port,
        } => started_onto(text, *role, *address, *port),
        Entry::LineListens { line, port } => line_listens_onto(text, *line, *port),
        Entry::QueueListens {
            service,
            server,
            port,
        } => queue_listens_onto(text, service, *server, *port),
        Entry::Stopped {
            events,
            sessions,
            frames,
        } => stopped_onto(text, *events, *sessions, *frames),
        Entry::Service { offered, news } => service_onto(text, offered, *news),
        Entry::Circuit { circuit, news } => joined_onto(text, circuit, *news),
        Entry::Caller { line, news } => caller_onto(text, *line, *news),
        Entry::Session {
            line,
            session,
            news,
        } => session_onto(text, *line, session, *news),
        Entry::Request { request, news } => request_onto(text, request, *news),
        Entry::Bad { bad, from } => bad_onto(text, *bad, *from),
        Entry::MoreBad(count) => write!(text, "bad more {count}"),
        Entry::IdsLeft(count) => write!(text, "circuit ids left {count}"),
        Entry::RecordsLeft(count) => write!(text, "request records left {count}"),
        Entry::Missed(count) => write!(text, "missed {count}"),
    }
}

/// Adds the line of an entry: its moment, in milliseconds since 1970-01-01T00:00:00Z, the daemon's name, the words, a line feed.
/// After want of memory a part of it may stand in the text.
pub fn line_onto(
    text: &mut String,
    moment: u64,
    name: &Name,
    entry: &Entry,
) -> Result<(), AllocError>
    ensures { OnOk result (LineAdded moment name.now entry.now (string_bytes text.old) (string_bytes text.new)) }
{
    stamp_onto(text, moment)?;
    text.push_str(" ")?;
    name_onto(text, name)?;
    text.push_str(" ")?;
    words_onto(text, entry)?;
    text.push_str("\n")
}
