//! What the script programs share: the input that is read and the text that is written, the words of a line, the timing of a
//! circuit, why a line is refused, and answers in print.
//!
//! A line of a script is words with one blank between them. Where a line wants a number, its word is the number in decimal,
//! without a sign or a needless 0, and within the bounds that the line says; where it wants bytes, an even number of hex digits;
//! and where it wants one of two words, an address, a name, a setting or a command, its word is that. A line with another word
//! there, or with none, is refused: nothing of it is done, and one of these lines follows it, with the number of the line in the
//! script and of the word in the line, both counted from 1.
//!
//! | Line | The word has to be |
//! |---|---|
//! | `line N word M isn't a number up to K` | a number of at most K |
//! | `line N word M isn't a number from J to K` | a number of at least J and at most K |
//! | `line N word M isn't X or Y` | one of the words X and Y |
//! | `line N word M isn't hex digits` | an even number of hex digits; there may be none |
//! | `line N word M isn't a setting` | ten hex digits |
//! | `line N word M isn't an address` | twelve hex digits |
//! | `line N word M isn't a name` | a name |
//! | `line N word M isn't a command` | a command of the program, or what the command is told to do |
#![tactic(auto)]

mod circuit;
mod fault;
mod lines;
mod pattern;
mod print;
mod program;
mod words;

pub use circuit::timing;
pub use fault::{Pair, ScriptFault, Wanted, refused_onto};
pub use lines::{Part, is_command, line_behind};
pub use pattern::{Came, byte_of};
pub use print::{
    answer_onto, bad_onto, end_onto, frame_onto, heard_onto, kept_onto, number_onto, put_onto,
    state_onto, state_word, took_onto, totals_onto,
};
pub use program::{INPUT_BYTES, run};
pub use words::{
    address, byte, byte_within, bytes, choice, filling, known_name, name, no_command, number,
    number_within, setting, short, short_within, word,
};
