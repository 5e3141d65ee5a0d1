//! The words of events and of answers.

ghost use Rattle.std.specs.Prelude.{◌≡◌, ◌++◌, OnOk, string_bytes};
ghost use Rattle.lat_trace.specs.Words.{event_words, told_words};

use lat_base::Answer;
use lat_print::answer_onto;
use lat_schedule::{WorldEvent, event_onto};
use std::alloc::{AllocError, Global};

/// Adds the words of an event to a text: the line that a schedule has for it, without the line feed. After want of memory
/// a part of them may stand in the text.
pub fn words_onto(alloc: Global, text: &mut String, event: &WorldEvent) -> Result<(), AllocError>
    ensures { OnOk result (string_bytes text.new
        ≡ string_bytes text.old ++ event_words event.now) }
{
    event_onto(alloc, text, event)?;
    text.pop();
    Ok(())
}

/// Adds the words of what was answered to an event to a text; `not-for` where a frame came to an end that it isn't for.
/// After want of memory a part of them may stand in the text.
pub fn told_onto(
    alloc: Global,
    text: &mut String,
    answer: &Option<Answer>,
) -> Result<(), AllocError>
    ensures { OnOk result (string_bytes text.new
        ≡ string_bytes text.old ++ told_words answer.now) }
{
    match answer {
        Some(answer) => answer_onto(alloc, text, answer),
        None => text.push_str("not-for"),
    }
}
