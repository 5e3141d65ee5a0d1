//! What holds of reading and writing together. The functions do nothing; their contracts are the laws.

ghost use Rattle.lat_notices.specs.Laws.{WrittenIsText, WrittenIsRead, AnyTailIsRead, LongTailIsRefused, OneOutcome};

/// What `write_notice` writes is a text of the notice with zeros behind it.
pub fn written_is_text()
    ensures { WrittenIsText }
{}

/// What `write_notice` writes is read as the same notice.
pub fn written_is_read()
    ensures { WrittenIsRead }
{}

/// A text of a notice, followed by any bytes, is read as that notice where the whole has at most 46 bytes.
pub fn any_tail_is_read()
    ensures { AnyTailIsRead }
{}

/// Something behind a text is refused there, where the whole has 47 to 1,500 bytes.
pub fn long_tail_is_refused()
    ensures { LongTailIsRefused }
{}

/// Each payload is a text of one notice alone, with the bytes that may follow it, or is refused at its first bad field
/// and a text of none.
pub fn one_outcome()
    ensures { OneOutcome }
{}
