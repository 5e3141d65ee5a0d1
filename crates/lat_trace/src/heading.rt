//! The line of an event in a trace.

ghost use Rattle.std.specs.Prelude.{◌≡◌, ◌++◌, OnOk, string_bytes};
ghost use Rattle.lat_trace.specs.TraceText.{heading_text};

use crate::entry::Entry;
use crate::words::{told_onto, words_onto};
use lat_schedule::WorldEvent;
use std::alloc::{AllocError, Global};

/// Adds the line of the event of this number: its moment, its words and its answer.
pub(crate) fn heading_onto(
    alloc: Global,
    text: &mut String,
    number: usize,
    event: &WorldEvent,
    entry: &Entry,
) -> Result<(), AllocError>
    ensures { OnOk result (string_bytes text.new
        ≡ string_bytes text.old ++ heading_text number entry.now.moment event.now entry.now.answer) }
{
    let moment = entry.moment;
    write!(text, "event {number} {moment} ")?;
    words_onto(alloc, text, event)?;
    text.push_str(" -> ")?;
    told_onto(alloc, text, &entry.answer)?;
    text.push_str("\n")
}
