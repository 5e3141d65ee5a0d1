//! The words of what a circuit answers.

ghost use Rattle.std.specs.Prelude.{◌≡◌, ◌++◌, OnOk, string_bytes};
ghost use Rattle.lat_print.specs.AnswerWords.{heard_words};

use lat_base::Heard;
use std::alloc::AllocError;

/// Adds the words of what a circuit answered to a message.
/// After want of memory a part of them may stand in the text.
pub fn heard_onto(text: &mut String, heard: Heard) -> Result<(), AllocError>
    ensures { OnOk result (string_bytes text.new ≡ string_bytes text.old ++ heard_words heard) }
{
    match heard {
        Heard::Running => text.push_str("running"),
        Heard::Taken(slots) => write!(text, "taken {slots}"),
        Heard::Again => text.push_str("again"),
        Heard::AckOnly => text.push_str("ack-only"),
        Heard::Foreign => text.push_str("foreign"),
        Heard::Broke(reason) => write!(text, "broke {reason}"),
        Heard::Ended(reason) => write!(text, "ended {reason}"),
    }
}
