//! What holds of every stream. Nothing here runs: each law is a function that takes nothing, and whose contract is the statement.

ghost use Rattle.lat_terminal.specs.Laws.{AnswersAreFew, AnswersFall, DoublingIsUndone, EndsAgree, LinesAreShort, PiecesAreOneStream, RequestsAreAnswered, SkipsAreSilent, TypedPiecesAreOneStream};

/// What comes of what a client sends is that of the whole stream, whatever its pieces; and so is what is sent to it.
pub fn pieces_are_one_stream()
    ensures { PiecesAreOneStream }
{}

/// Of a whole request comes its answer, where it has one, and nothing else.
pub fn requests_are_answered()
    ensures { RequestsAreAnswered }
{}

/// An answer asks for less than what it answers, by WONT, DONT, WILL, DO. So no chain of answers is longer than three, whatever
/// the state of both sides.
pub fn answers_fall()
    ensures { AnswersFall }
{}

/// There are at most two answers for each DO and WILL that a client sends: its own, and that of a DONT by which it is taken back.
pub fn answers_are_few()
    ensures { AnswersAreFew }
{}

/// What is doubled is heard as it was, but for a NUL behind a carriage return.
pub fn doubling_is_undone()
    ensures { DoublingIsUndone }
{}

/// Nothing comes of a subnegotiation, and the filter is as it was.
pub fn skips_are_silent()
    ensures { SkipsAreSilent }
{}

/// The line, what is shown and the lines that end are those of the whole stream, whatever its pieces.
pub fn typed_pieces_are_one_stream()
    ensures { TypedPiecesAreOneStream }
{}

/// No line has more than 128 bytes.
pub fn lines_are_short()
    ensures { LinesAreShort }
{}

/// A carriage return, a line feed, and both in this order end one line.
pub fn ends_agree()
    ensures { EndsAgree }
{}
