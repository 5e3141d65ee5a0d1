//! What holds of the texts of slots. Each function takes nothing and does nothing: its contract is the law.

ghost use Rattle.lat_slots.specs.Laws.{WrittenIsText, TextsAreRead, WrittenIsRead, ReadIsText, OneSlot};

/// What is written of a slot is a text of it.
pub fn written_is_text()
    ensures { WrittenIsText }
{}

/// A text of a slot is read as that slot, whatever stands behind it.
pub fn texts_are_read()
    ensures { TextsAreRead }
{}

/// What was written is read as the same slot, whatever stands behind it.
pub fn written_is_read()
    ensures { WrittenIsRead }
{}

/// What is read of bytes stands there as a text.
pub fn read_is_text()
    ensures { ReadIsText }
{}

/// A text has one slot.
pub fn one_slot()
    ensures { OneSlot }
{}
