//! The answers that a report notes.

ghost use Rattle.std.specs.Prelude.{◌≡◌, ◌++◌, OnOk, option_map, string_bytes};
ghost use Rattle.lat_base.specs.declared.answer.Answer.TheVariants as answers;
ghost use Rattle.lat_lines.specs.AnswerValues.{answer_shown};
ghost use Rattle.lat_wire.specs.report.NoteText.{refusal_word};
ghost use Rattle.lat_wire.specs.report.Noted.{refusal_answer, noted_answer, noted_of};
ghost use Rattle.lat_wire.specs.report.ReportText.{event_text};

use lat_base::{Answer, Bad, Heard, Kept};
use std::alloc::AllocError;

/// Why what was asked of a core wasn't done.
#[derive(Clone, Copy)]
pub enum Refusal {
    NoLine,
    Busy,
    NoService,
    SessionsFull,
    CircuitsFull,
    IdsOut,
    Closed,
    Full,
    IdUsed,
    Halted,
    DirectoryFull,
    StartRefused,
    /// A command that found as many records as are kept.
    RecordsFull,
}

/// What a report notes of an answer.
#[derive(Clone, Copy)]
pub enum Noted {
    /// The payload has no layout; its first bad field.
    Bad(Bad),
    /// The frame broke a circuit, for this reason.
    Broke(u8),
    Refused(Refusal),
}

impl Refusal {
    /// Its word in print.
    pub fn word(self) -> &'static str
        ensures { result.now ≡ refusal_word (answer_shown (refusal_answer self)) }
    {
        match self {
            Refusal::NoLine => "no-line",
            Refusal::Busy => "busy",
            Refusal::NoService => "no-service",
            Refusal::SessionsFull => "sessions-full",
            Refusal::CircuitsFull => "circuits-full",
            Refusal::IdsOut => "ids-out",
            Refusal::Closed => "closed",
            Refusal::Full => "full",
            Refusal::IdUsed => "id-used",
            Refusal::Halted => "halted",
            Refusal::DirectoryFull => "directory-full",
            Refusal::StartRefused => "start-refused",
            Refusal::RecordsFull => "records-full",
        }
    }
}

// What is noted of a circuit message that a circuit answered.
fn noted_heard(heard: Heard) -> Option<Noted>
    ensures { option_map noted_answer result ≡ noted_of (answers.Circuit heard) }
{
    match heard {
        Heard::Broke(reason) => Some(Noted::Broke(reason)),
        Heard::Running
        | Heard::Taken(_)
        | Heard::Again
        | Heard::AckOnly
        | Heard::Foreign
        | Heard::Ended(_) => None,
    }
}

// What is noted of a command.
fn noted_kept(kept: Kept) -> Option<Noted>
    ensures { option_map noted_answer result ≡ noted_of (answers.Kept kept) }
{
    match kept {
        Kept::RecordsFull => Some(Noted::Refused(Refusal::RecordsFull)),
        Kept::Waiting(_)
        | Kept::Granted
        | Kept::Cancelled
        | Kept::QueueFull
        | Kept::NoService
        | Kept::Done => None,
    }
}

impl Noted {
    /// What is noted of an answer. `None` where nothing is.
    pub fn of(answer: &Answer) -> Option<Noted>
        ensures { option_map noted_answer result ≡ noted_of answer.now }
    {
        match answer {
            Answer::Circuit(heard) => noted_heard(*heard),
            Answer::Kept(kept) => noted_kept(*kept),
            Answer::Bad(bad) => Some(Noted::Bad(*bad)),
            Answer::StartRefused => Some(Noted::Refused(Refusal::StartRefused)),
            Answer::DirectoryFull => Some(Noted::Refused(Refusal::DirectoryFull)),
            Answer::NoLine => Some(Noted::Refused(Refusal::NoLine)),
            Answer::Busy => Some(Noted::Refused(Refusal::Busy)),
            Answer::NoService => Some(Noted::Refused(Refusal::NoService)),
            Answer::SessionsFull => Some(Noted::Refused(Refusal::SessionsFull)),
            Answer::CircuitsFull => Some(Noted::Refused(Refusal::CircuitsFull)),
            Answer::IdsOut => Some(Noted::Refused(Refusal::IdsOut)),
            Answer::Closed => Some(Noted::Refused(Refusal::Closed)),
            Answer::Full => Some(Noted::Refused(Refusal::Full)),
            Answer::IdUsed => Some(Noted::Refused(Refusal::IdUsed)),
            Answer::Halted => Some(Noted::Refused(Refusal::Halted)),
            Answer::Started(_)
            | Answer::Announced
            | Answer::NotKept
            | Answer::Noted
            | Answer::Apart
            | Answer::Solicited
            | Answer::Ignored
            | Answer::Done
            | Answer::Connected { .. }
            | Answer::Put(_)
            | Answer::Took(_)
            | Answer::NotHere => None,
        }
    }
}

/// Adds the line of a noted event: its number, counted from 1 over all events, and what is noted of its answer.
/// After want of memory a part of it may stand in the text.
pub fn noted_onto(text: &mut String, event: u64, noted: Noted) -> Result<(), AllocError>
    ensures { OnOk result (string_bytes text.new
        ≡ string_bytes text.old
        ++ event_text (record { event = event; answer = answer_shown (noted_answer noted) })) }
{
    match noted {
        Noted::Bad(bad) => {
            let (field, place) = (bad.field.word(), bad.at);
            write!(text, "event {event} bad {field} {place}\n")
        }
        Noted::Broke(reason) => write!(text, "event {event} broke {reason}\n"),
        Noted::Refused(refusal) => {
            let word = refusal.word();
            write!(text, "event {event} refused {word}\n")
        }
    }
}
