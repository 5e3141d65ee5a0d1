//! What holds of the text of a record. Each function takes nothing and does nothing: its contract is the law.

ghost use Rattle.lat_record.specs.ReadBack.{EntriesReadBack, RecordsReadBack};

/// What is written of an event and its answer is one line, and it is read as the event and the words of the answer.
pub fn entries_read_back()
    ensures { EntriesReadBack }
{}

/// What is written of a core and its history is read as what the core was made of, and as its events with the words of their
/// answers, whatever stands behind it of a line that was cut.
pub fn records_read_back()
    ensures { RecordsReadBack }
{}
