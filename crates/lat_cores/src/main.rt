//! Runs a written script over one server core and one node core, event by event, and prints what each answers and every frame
//! that it makes. Its stored run (`stdin`, `stdout`) is how the worked examples of both cores are seen to hold: what stands in
//! `stdout` was worked out from the rules in docs/PROTOCOL.md and docs/FORMATS.md.
//!
//! A script is a list of blocks with an empty line between them. Each begins anew: its lines up to `go` say what both cores
//! are made of, those behind it are events and questions. A line is words with a blank between them. A line that begins with
//! `#` is printed as it is; of another one the line itself is printed behind `> `, and then what it answers. The cores are `s`,
//! the server, and `n`, the node. Moments are milliseconds; an address is twelve hex digits.
//!
//! Numbers are in decimal, without a sign or a needless 0. In front of `go` the LINES of the server are 1 to 32 and those of the
//! node 1 to 64, each TIMER of a circuit is 1 to 100, that of the node and KEEPALIVE 1 to 255, SESSIONS 1 to 64, CEILING 1 to 15,
//! the N of `first` 1 to 65,535, and the LINE of an offer is one of the server's. Moments, frames and records, FROM and the N of `draw` are below 2^64, TO is
//! 65,536 at most, circuits, ids of requests, INCARNATION and each other N 65,535 at most, and what is left 255. E is `s` or `n`;
//! a mask of groups has at most 64 hex digits, and a setting ten. Of a line with another word there, with another word than a
//! name or an address where one is wanted, with an odd number of hex digits, or whose word is no command, no event and no question
//! below, nothing is done, and a line follows it that says which of its words it is and what that isn't: `line 7 word 3 isn't a
//! number up to 255`, `line 7 word 2 isn't s or n`, `line 7 word 1 isn't a command`. Lines of the script and words of the line are
//! counted from 1.
//!
//! | Line before `go` | Says |
//! |---|---|
//! | `server ADDRESS NAME LINES` | the server, without an offer |
//! | `node ADDRESS NAME LINES INCARNATION TIMER` | the node |
//! | `circuit TIMER KEEPALIVE SESSIONS EXTRA CEILING` (and perhaps `word`, or `byte`, which is the same as nothing) | the timing of both |
//! | `prompt E` | this core's end is prompt |
//! | `first E N` | the id of this core's first circuit, without it 1 |
//! | `groups SERVER NODE` | the groups that the server listens to, and the mask of the node's announcements, in hex; without it all groups, and the empty mask |
//! | `service NAME` | the node offers it; 32 at most |
//! | `offer LINE NAME` | the server's line offers it; a line offers once |
//!
//! | Event | Does |
//! |---|---|
//! | `s EVENT`, `n EVENT` | tells the core: `time T`, `connect LINE NAME`, `put LINE HEX`, `fill LINE N` (N bytes 61 hex), `set LINE HEX`, `take LINE N`, `attend LINE FLAG`, `close LINE`, `request ID NAME` (of this server, or of the one whose address stands behind), `cancel ID`, `announce`, `avoid LINE`, `ready LINE R` (1 where it is ready, 0 where it isn't), `halt` |
//! | `deliver I [T]` | hands frame I to the core that it was sent to, as from its sender's address, at T or at the latest moment so far |
//! | `inject E ADDRESS HEX [T]` | hands a payload to core E as from this address |
//! | `announcers N` | hands the server the announcements of N nodes, and prints the last answer |
//! | `askers FROM TO NAME` | hands the server the commands by which node N1 at 02000000000a asks for the service under each request id from FROM to one less than TO, and prints the last answer |
//! | `draw N NAME` | so many times connects the server's line 1 to the service and ends its circuit by a STOP from the node's address; prints the last answer |
//! | `pump PATTERN` | puts 1,000 bytes at line 1 of both, then gives both a moment 80 ms on, delivers each frame, and takes at both, until all have come or 20,000 rounds have passed. PATTERN is a number, whose digits say in turn how often a frame is delivered. Prints the rounds, the frames made and delivered, and whether the items are the bytes that were put, in order |
//!
//! | Question | Tells |
//! |---|---|
//! | `state E LINE`, `waiting E LINE`, `book E LINE` | the session of a line, its items that wait, and its last two sessions |
//! | `moment E`, `finished E`, `used` | a core's moment, its sessions that have become free, and the node's lines that have a session |
//! | `names E ADDRESS TO FROM`, `span E CIRCUIT` | whether a RUN names a living circuit, and how far a circuit's numbers count |
//! | `record I` | the server's record of a request |
//!
//! Frames are numbered from 0 in the order in which they are made, at either core; those of `announcers`, `askers`, `draw` and `pump`
//! aren't kept. Of each the program prints its number, its mark (`fresh`, `again` with how far its number lies below the
//! newest, `bare`, `plain`), where it is sent and its circuit's id at the sender, and then what `lat show` prints of it.
#![tactic(auto)]

mod draw;
mod event;
mod hear;
mod play;
mod post;
mod print;
mod pump;
mod script;
mod setup;
mod station;
mod tell;

use lat_outside::{StdSink, StdSource};
use lat_script::run;
use script::played;
use std::io;
use std::process::ExitCode;

fn main(rt: HostRuntime) -> ExitCode {
    let mut source = StdSource::new(rt.stdin());
    let mut sink = StdSink::new(io::writer(&rt));
    ExitCode::from(run(rt.alloc(), played, &mut source, &mut sink))
}
