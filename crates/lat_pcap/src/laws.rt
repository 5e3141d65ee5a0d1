//! What holds of reading and writing together. Each function does nothing: its contract is the law.

ghost use Rattle.lat_pcap.specs.Laws.{HeadsAreRead, HeadsAreTexts, RecordsAreRead, RecordsAreTexts, FramesAreTexts, WrittenIsRead};

/// The text of a header is read as the header, whatever stands behind it.
pub fn heads_are_read()
    ensures { HeadsAreRead }
{}

/// What is read as a header is its text, and the 24 bytes in front.
pub fn heads_are_texts()
    ensures { HeadsAreTexts }
{}

/// The text of a record is read as the record, whatever stands behind it.
pub fn records_are_read()
    ensures { RecordsAreRead }
{}

/// What is read as a record is its text.
pub fn records_are_texts()
    ensures { RecordsAreTexts }
{}

/// A record holds a frame of the type 60-04 exactly where its bytes are the text of that frame.
pub fn frames_are_texts()
    ensures { FramesAreTexts }
{}

/// The header of a written file and the records of any frames behind it are read as these frames, in order, and
/// nothing is wrong.
pub fn written_is_read()
    ensures { WrittenIsRead }
{}
