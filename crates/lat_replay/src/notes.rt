//! The lines of the events that were noted.

ghost use Rattle.std.specs.Prelude.{◌≡◌, ◌++◌, OnOk, string_bytes};
ghost use Rattle.std.specs.List.{flat_map};
ghost use Rattle.lat_replay.specs.Notes.{note_line};

use lat_base::Memory;
use lat_wire::{Note, noted_onto};

/// Appends the lines of these events, in order.
pub(crate) fn notes_onto(out: &mut String, notes: &[Note]) -> Result<(), Memory>
    ensures { OnOk result (string_bytes out.new
        ≡ string_bytes out.old ++ flat_map note_line notes.now) }
{
    for note in notes {
        noted_onto(out, note.event, note.noted)?;
    }
    Ok(())
}
