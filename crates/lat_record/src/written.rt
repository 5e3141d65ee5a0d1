//! The parts of a record in print.

ghost use Rattle.std.specs.Prelude.{◌≡◌, ◌++◌, OnOk, string_bytes};
ghost use Rattle.lat_record.specs.OpeningText.{opening_text};
ghost use Rattle.lat_record.specs.RecordText.{entry_text};

use crate::event_words::words_onto;
use crate::opening::Opening;
use crate::opening_text::core_onto;
use lat_past::Past;
use lat_print::answer_onto;
use std::alloc::{AllocError, Global};

/// Adds the lines of a record in front of the first event: what the core was made of. `docs/FORMATS.md`, "Records", has them.
/// After want of memory a part of them may stand in the text.
pub fn opening_onto(alloc: Global, text: &mut String, opening: &Opening) -> Result<(), AllocError>
    ensures { OnOk result (string_bytes text.new
        ≡ string_bytes text.old ++ opening_text opening.now) }
{
    text.push_str("lat record 1\n")?;
    core_onto(alloc, text, opening)?;
    text.push_str("go\n")
}

/// Adds the line of an event and its answer. `docs/FORMATS.md`, "Records", has it. After want of memory a part of it may stand
/// in the text.
pub fn entry_onto(alloc: Global, text: &mut String, past: &Past) -> Result<(), AllocError>
    ensures { OnOk result (string_bytes text.new
        ≡ string_bytes text.old ++ entry_text past.now) }
{
    words_onto(alloc, text, &past.event)?;
    text.push_str(" -> ")?;
    answer_onto(alloc, text, &past.answer)?;
    text.push_str("\n")
}
