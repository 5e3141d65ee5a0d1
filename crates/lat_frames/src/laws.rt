//! What holds of the texts of circuit messages. Each function takes nothing and does nothing: its contract is the law.

ghost use Rattle.lat_frames.specs.Laws.{WrittenIsText, WrittenIsRead, TextsAreRead, TrailingIsRefused, OneOutcome, RunsAreAcknowledged, WideRunsAreAcknowledged};

/// The payload that is written of a message is a text of it.
pub fn written_is_text()
    ensures { WrittenIsText }
{}

/// The payload that is written of a message is read as that message.
pub fn written_is_read()
    ensures { WrittenIsRead }
{}

/// A text of a message is read as it, whatever follows it up to 46 bytes in all.
pub fn texts_are_read()
    ensures { TextsAreRead }
{}

/// What follows a text in a payload of 47 bytes or more is refused, at the place behind the text.
pub fn trailing_is_refused()
    ensures { TrailingIsRefused }
{}

/// A payload has exactly one message, or none and a first bad field.
pub fn one_outcome()
    ensures { OneOutcome }
{}

/// The acknowledgement of a written RUN may be replaced in its payload.
pub fn runs_are_acknowledged()
    ensures { RunsAreAcknowledged }
{}

/// The acknowledgement of a written wide RUN may be replaced in its payload.
pub fn wide_runs_are_acknowledged()
    ensures { WideRunsAreAcknowledged }
{}
