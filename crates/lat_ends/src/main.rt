//! Runs a written script over the two ends of a circuit, and prints what each call answers. Its stored run (`stdin`, `stdout`)
//! is how the worked examples of circuits and sessions are seen to hold: what stands in `stdout` was worked out by hand from
//! the rules in docs/PROTOCOL.md.
//!
//! A line of the script is a command, words with a blank between them. A line without a word and a line that begins with `#`
//! are printed as they are; of a command the line itself is printed behind `> `, and then what it answers. The ends are `m`,
//! the master, and `s`, the slave. Moments are milliseconds.
//!
//! Numbers are in decimal, without a sign or a needless 0. TIMER is 1 to 100, KEEPALIVE 1 to 255, SESSIONS 1 to 64 and CEILING 1
//! to 15; EXTRA, ids of sessions, flags, SIZE and the N of `room` are 255 at most, and the R of `reject` 15; the N of `fill` and
//! `take` and TAKE are 65,535 at most, and the ID of `call` is 1 to 65,535; moments, frames and the N of `rounds` are below 2^64.
//! E is `m` or `s`, NAME a name, and the HEX of `set` ten hex digits. Of a line with another word there, with an odd number of
//! hex digits, or whose first word is no command below, nothing is done, and a line follows it that says which of its words it is
//! and what that isn't: `line 7 word 3 isn't a number up to 255`, `line 7 word 2 isn't m or s`, `line 7 word 1 isn't a command`.
//! Lines of the script and words of the line are counted from 1. A command in front of the first `ends` is answered `no ends`.
//!
//! | Command | Does |
//! |---|---|
//! | `ends TIMER KEEPALIVE SESSIONS EXTRA CEILING` (and perhaps `word`, or `byte`, which is the same as nothing) | forgets all, and says what both ends state in their STARTs |
//! | `call ID` | makes the master, with this id of the circuit, at moment 0 |
//! | `room N` | a circuit that is called connects so many sessions; its memory goes into a new call, which tells how many it holds |
//! | `deliver N [T]` | hands frame N to the end that it was not made by, at that end's moment or at T |
//! | `hear E HEX [T]` | hands this payload to an end as from its peer |
//! | `time E T` | gives an end a moment |
//! | `connect NAME`, `asked`, `answer ID`, `reject ID R` | the calls of the master, and of the slave |
//! | `put E ID HEX`, `fill E ID N`, `set E ID HEX`, `attend E ID FLAG`, `take E ID N`, `close E ID` | the calls of both; `fill` puts N bytes 61 hex |
//! | `state E ID`, `mark E ID`, `waiting E ID`, `totals E ID`, `ended E ID`, `peer E ID`, `held E`, `lives E` | what an end tells |
//! | `rounds N SIZE TAKE` | so many times: the master puts SIZE bytes at session 1, both ends are given a moment 80 ms on, each frame is delivered twice, and the slave takes TAKE items of its session 1; tells how many messages and items came, and whether the items are the bytes that were put, in order |
//!
//! A START that the slave's place hears, while no slave lives there, makes a slave of id 1. Frames are numbered from 0 in the
//! order in which they are made, at either end; those of `rounds` aren't kept. Of each the program prints its number and its
//! mark (`fresh`, `again` with how far its number lies below the newest, `bare`, `plain`), and then what `lat show` prints of it.
//! A call whose conditions don't hold is answered `not now`, one of an end that isn't there `no circuit`.
#![tactic(auto)]

mod end;
mod make;
mod print;
mod rounds;
mod script;

use lat_outside::{StdSink, StdSource};
use lat_script::run;
use script::played;
use std::io;
use std::process::ExitCode;

fn main(rt: HostRuntime) -> ExitCode {
    let mut source = StdSource::new(rt.stdin());
    let mut sink = StdSink::new(io::writer(&rt));
    ExitCode::from(run(rt.alloc(), played, &mut source, &mut sink))
}
