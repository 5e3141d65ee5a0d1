//! Answers in print.

ghost use Rattle.std.specs.Prelude.{◌≡◌, [], ◌∷◌, ◌++◌, OnOk, decimal, string_bytes};
ghost use Rattle.lat_text.specs.Line.{line};
ghost use Rattle.lat_script.specs.Printed.{
  answer_text,
  bad_text,
  connected_text,
  end_text,
  frame_text,
  heard_text,
  item_text,
  items_text,
  kept_text,
  kept_line,
  mark_text,
  put_text,
  state_text,
  state_line,
  started_text,
  took_text,
  totals_text,
};

use lat_base::{Answer, Bad, Heard, Item, Kept, Mark, SessionEnd, SessionState};
use lat_text::{byte_onto, hex_onto};
use std::alloc::{AllocError, Global};

/// Adds the line of a number.
pub fn number_onto(text: &mut String, number: u64) -> Result<(), AllocError>
    ensures { OnOk result (string_bytes text.new
        ≡ string_bytes text.old ++ line (decimal number ∷ [])) }
{
    write!(text, "{number}\n")
}

/// Adds the line of a put of which so many bytes were taken.
pub fn put_onto(text: &mut String, count: u64) -> Result<(), AllocError>
    ensures { OnOk result (string_bytes text.new ≡ string_bytes text.old ++ put_text count) }
{
    write!(text, "put {count}\n")
}

/// Adds the line of bytes that are no message.
pub fn bad_onto(text: &mut String, bad: Bad) -> Result<(), AllocError>
    ensures { OnOk result (string_bytes text.new ≡ string_bytes text.old ++ bad_text bad) }
{
    let (field, at) = (bad.field.word(), bad.at);
    write!(text, "bad {field} {at}\n")
}

/// Adds what is kept of a request.
pub fn kept_onto(text: &mut String, kept: Kept) -> Result<(), AllocError>
    ensures { OnOk result (string_bytes text.new ≡ string_bytes text.old ++ kept_text kept) }
{
    match kept {
        Kept::Waiting(place) => write!(text, "waiting {place}"),
        Kept::Granted => text.push_str("granted"),
        Kept::Cancelled => text.push_str("cancelled"),
        Kept::QueueFull => text.push_str("queue-full"),
        Kept::NoService => text.push_str("no-service"),
        Kept::RecordsFull => text.push_str("records-full"),
        Kept::Done => text.push_str("done"),
    }
}

// Adds the line of what is kept of a request.
fn kept_line_onto(text: &mut String, kept: Kept) -> Result<(), AllocError>
    ensures { OnOk result (string_bytes text.new ≡ string_bytes text.old ++ kept_line kept) }
{
    text.push_str("kept ")?;
    kept_onto(text, kept)?;
    text.push_str("\n")
}

fn started_onto(text: &mut String, id: u16) -> Result<(), AllocError>
    ensures { OnOk result (string_bytes text.new ≡ string_bytes text.old ++ started_text id) }
{
    write!(text, "started {id}\n")
}

fn connected_onto(text: &mut String, circuit: u16, session: u8) -> Result<(), AllocError>
    ensures { OnOk result (string_bytes text.new
        ≡ string_bytes text.old ++ connected_text circuit session) }
{
    write!(text, "connected circuit {circuit} session {session}\n")
}

/// Adds the line of what a core answers to an event.
pub fn answer_onto(alloc: Global, text: &mut String, answer: &Answer) -> Result<(), AllocError>
    ensures { OnOk result (string_bytes text.new
        ≡ string_bytes text.old ++ answer_text answer.now) }
{
    match answer {
        Answer::Circuit(heard) => heard_onto(text, *heard),
        Answer::Started(id) => started_onto(text, *id),
        Answer::Kept(kept) => kept_line_onto(text, *kept),
        Answer::Bad(bad) => bad_onto(text, *bad),
        Answer::Connected { circuit, session } => connected_onto(text, *circuit, *session),
        Answer::Put(count) => put_onto(text, u64::from(*count)),
        Answer::Took(items) => took_onto(alloc, text, items.as_slice()),
        Answer::StartRefused => text.push_str("start-refused\n"),
        Answer::Announced => text.push_str("announced\n"),
        Answer::DirectoryFull => text.push_str("directory-full\n"),
        Answer::NotKept => text.push_str("not-kept\n"),
        Answer::Noted => text.push_str("noted\n"),
        Answer::Apart => text.push_str("apart\n"),
        Answer::Solicited => text.push_str("solicited\n"),
        Answer::Ignored => text.push_str("ignored\n"),
        Answer::Done => text.push_str("done\n"),
        Answer::NoLine => text.push_str("no-line\n"),
        Answer::Busy => text.push_str("busy\n"),
        Answer::NoService => text.push_str("no-service\n"),
        Answer::SessionsFull => text.push_str("sessions-full\n"),
        Answer::CircuitsFull => text.push_str("circuits-full\n"),
        Answer::IdsOut => text.push_str("ids-out\n"),
        Answer::Closed => text.push_str("closed\n"),
        Answer::Full => text.push_str("full\n"),
        Answer::IdUsed => text.push_str("id-used\n"),
        Answer::NotHere => text.push_str("not-here\n"),
        Answer::Halted => text.push_str("halted\n"),
    }
}

/// Adds the line of what a circuit answered to a message.
pub fn heard_onto(text: &mut String, heard: Heard) -> Result<(), AllocError>
    ensures { OnOk result (string_bytes text.new ≡ string_bytes text.old ++ heard_text heard) }
{
    match heard {
        Heard::Running => text.push_str("running\n"),
        Heard::Taken(slots) => write!(text, "taken {slots}\n"),
        Heard::Again => text.push_str("again\n"),
        Heard::AckOnly => text.push_str("ack-only\n"),
        Heard::Foreign => text.push_str("foreign\n"),
        Heard::Broke(reason) => write!(text, "broke {reason}\n"),
        Heard::Ended(reason) => write!(text, "ended {reason}\n"),
    }
}

// Adds the mark of a frame: `fresh`, `again` with how far its number lies below the newest, `bare` or `plain`.
fn mark_onto(text: &mut String, mark: Mark) -> Result<(), AllocError>
    ensures { OnOk result (string_bytes text.new ≡ string_bytes text.old ++ mark_text mark) }
{
    match mark {
        Mark::Fresh => text.push_str("fresh"),
        Mark::Again(back) => write!(text, "again {back}"),
        Mark::Bare => text.push_str("bare"),
        Mark::Plain => text.push_str("plain"),
    }
}

/// Adds a frame's number and its mark.
pub fn frame_onto(text: &mut String, number: u64, mark: Mark) -> Result<(), AllocError>
    ensures { OnOk result (string_bytes text.new
        ≡ string_bytes text.old ++ frame_text number mark) }
{
    write!(text, "{number} ")?;
    mark_onto(text, mark)
}

/// The word of a session's state.
pub fn state_word(state: SessionState) -> &'static str
    ensures { result.now ≡ state_text state }
{
    match state {
        SessionState::Free => "free",
        SessionState::Calling => "calling",
        SessionState::Asked => "asked",
        SessionState::Live => "live",
        SessionState::Closing => "closing",
        SessionState::Left => "left",
    }
}

/// Adds the line of a session's state.
pub fn state_onto(text: &mut String, state: SessionState) -> Result<(), AllocError>
    ensures { OnOk result (string_bytes text.new ≡ string_bytes text.old ++ state_line state) }
{
    let state = state_word(state);
    write!(text, "{state}\n")
}

/// Adds how many credits a session gave and used.
pub fn totals_onto(text: &mut String, given: u64, used: u64) -> Result<(), AllocError>
    ensures { OnOk result (string_bytes text.new
        ≡ string_bytes text.old ++ totals_text given used) }
{
    write!(text, "given {given} used {used}")
}

/// Adds the line of how a session ended.
pub fn end_onto(text: &mut String, end: SessionEnd) -> Result<(), AllocError>
    ensures { OnOk result (string_bytes text.new ≡ string_bytes text.old ++ end_text end) }
{
    match end {
        SessionEnd::Closed => text.push_str("closed\n"),
        SessionEnd::Rejected(reason) => write!(text, "rejected {reason}\n"),
        SessionEnd::Circuit(reason) => write!(text, "circuit {reason}\n"),
    }
}

fn item_onto(alloc: Global, text: &mut String, item: Item) -> Result<(), AllocError>
    ensures { OnOk result (string_bytes text.new ≡ string_bytes text.old ++ item_text item) }
{
    match item {
        Item::Byte(byte) => {
            text.push_str(" ")?;
            byte_onto(text, byte)
        }
        Item::Set(setting) => {
            text.push_str(" set ")?;
            hex_onto(alloc, text, &setting)
        }
    }
}

// Adds items, each behind a blank, and a line feed.
fn items_onto(alloc: Global, text: &mut String, items: &[Item]) -> Result<(), AllocError>
    ensures { OnOk result (string_bytes text.new ≡ string_bytes text.old ++ items_text items.now) }
{
    for item in items {
        item_onto(alloc, text, *item)?;
    }
    text.push_str("\n")
}

/// Adds the line of a take that gave these items.
pub fn took_onto(alloc: Global, text: &mut String, items: &[Item]) -> Result<(), AllocError>
    ensures { OnOk result (string_bytes text.new ≡ string_bytes text.old ++ took_text items.now) }
{
    let count = items.len();
    write!(text, "took {count}")?;
    items_onto(alloc, text, items)
}
