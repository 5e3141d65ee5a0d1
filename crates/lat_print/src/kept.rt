//! The words of what is kept of a request.

ghost use Rattle.std.specs.Prelude.{◌≡◌, ◌++◌, OnOk, string_bytes};
ghost use Rattle.lat_print.specs.AnswerWords.{kept_words};

use lat_base::Kept;
use std::alloc::AllocError;

/// Adds the words of what is kept of a request.
/// After want of memory a part of them may stand in the text.
pub fn kept_onto(text: &mut String, kept: Kept) -> Result<(), AllocError>
    ensures { OnOk result (string_bytes text.new ≡ string_bytes text.old ++ kept_words kept) }
{
    match kept {
        Kept::Waiting(place) => write!(text, "waiting {place}"),
        Kept::Granted => text.push_str("granted"),
        Kept::Cancelled => text.push_str("cancelled"),
        Kept::QueueFull => text.push_str("queue-full"),
        Kept::NoService => text.push_str("no-service"),
        Kept::RecordsFull => text.push_str("records-full"),
        Kept::Done => text.push_str("done"),
    }
}
