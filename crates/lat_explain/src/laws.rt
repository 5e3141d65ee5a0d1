//! What holds of explanations and of the forms of lines. Each function does nothing: its contract is the law.

ghost use Rattle.lat_explain.specs.Laws.{ColumnsAreRight, PayloadsAreRead, WordsAreRead};

/// What is told of a wrong line has the column of the first byte that no valid text has at its place. A text is valid there if
/// it is one line with its line feed, and the line has a form of the table there, word by word, or is a comment or without a
/// byte where comments may stand. The law doesn't say that a command reads just these lines (`docs/DECISIONS.md`, "What `lat`
/// explains, and its words"), and it looks at no other line: at no limit of their number, and at nothing that has to follow.
pub fn columns_are_right()
    ensures { ColumnsAreRight }
{}

/// What goes with a form is what is read as such a word: a number within its bounds, an even number of hex digits within its
/// own, an address, if it isn't taken, or a name.
pub fn words_are_read()
    ensures { WordsAreRead }
{}

/// A line may stand among payloads exactly if it is read as one.
pub fn payloads_are_read()
    ensures { PayloadsAreRead }
{}
