//! Plays commands of the program `lat` from a file, and prints how each ends. Its stored run (`stdin`, `stdout`) is how the
//! worked examples of the commands are seen to hold; what stands in `stdout` was worked out from docs/FORMATS.md and
//! docs/PROTOCOL.md.
//!
//! A line of the file is a command of this player, words with a blank between them. A line without a word and a line that
//! begins with `#` are printed as they are. Of all others but `input`, `tail`, `feeds`, `many` and `hour` the line itself is printed
//! behind `> `, and then what came of it.
//!
//! | Line | Does |
//! |---|---|
//! | `command WORDS` | forgets the input, and keeps the words of the program's next runs |
//! | `input TEXT` | puts this text and a line feed behind the input; without a text the line feed alone |
//! | `tail TEXT` | puts this text behind the input |
//! | `feeds N` | puts N line feeds behind the input |
//! | `many N TEXT` | puts this text and a line feed behind the input, N times |
//! | `hour` | puts the schedule of an hour behind the input: eight lines at both ends, 320 turns of 10 bytes up and 1,920 down, 90,000 moments |
//! | `lines N` | keeps the first N lines of the input |
//! | `line K TEXT` | puts this text in the place of line K of the input, counted from 1 |
//! | `words WORDS` | keeps the input; these are the words of the next runs |
//! | `pipe WORDS` | what the last run wrote is the input of the next runs, and these are their words |
//! | `run` | runs the program: prints its status and what it wrote |
//! | `told` | runs it, and prints its status and what it wrote to standard error |
//! | `measure` | runs it, and prints its status and of what it wrote the bytes, the lines and a sum over all bytes: begun with 0, it is taken 31 times and each byte added, modulo 2^64 |
//! | `outside READ FAILING WRITE FAILING` | runs it over a source that gives at most READ bytes a call and fails at the call FAILING, counted from 1, and a sink that takes at most WRITE bytes a call and fails likewise; 0 fails never |
//! | `reads READ CALLS`, `writes WRITE CALLS` | does so for each failing call from 1 to CALLS, of the source and of the sink, and prints each status and what was written |
//! | `cuts HEX` | what `show` prints of the first bytes of this payload, as many as 0, 1 and so on to one byte less than all |
//!
//! What was written is printed as it is; where it doesn't end with a line feed, `%` and a line feed follow it. Numbers are in
//! decimal, without a sign or a needless 0, and below 2^64; the K of `line` and READ are 1 at least. Of a line with another word in
//! the place of a number, with an odd number of hex digits, or whose first word is none of these, nothing is done, and a line says
//! which of its words it is and what that isn't: `line 7 word 2 isn't a number from 1 to 18446744073709551615`, `line 7 word 2
//! isn't hex digits`, `line 7 word 1 isn't a command`. Lines of the file and words of the line are counted from 1.
#![tactic(auto)]

mod hour;
mod input;
mod play;
mod words;

use lat_outside::{StdSink, StdSource};
use lat_script::run;
use play::played;
use std::io;
use std::process::ExitCode;

fn main(rt: HostRuntime) -> ExitCode {
    let mut source = StdSource::new(rt.stdin());
    let mut sink = StdSink::new(io::writer(&rt));
    ExitCode::from(run(rt.alloc(), played, &mut source, &mut sink))
}
