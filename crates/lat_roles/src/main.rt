//! Plays written scripts over what takes a role besides the server's and the node's (a node with a tariff, and a switch with a
//! node), over the cell of a server, and over the words of a daemon. Its stored run (`stdin`, `stdout`) is how the worked examples of
//! tariffs, of a switch, of a cell's history and of a daemon's words are seen to hold: what stands in `stdout` was worked out from
//! the rules in docs/PROTOCOL.md, "Tariffs", "Several sessions on one line" and "Cells", and docs/FORMATS.md, "Slots, notices,
//! circuit messages", "Schedules" and "The daemon's words".
//!
//! A script is a list of blocks with a line `---` between them. Each begins anew.
//!
//! A block whose first line isn't a title has a node `VAX1` at aa0004000204 in its incarnation 1, with an announcement timer of 30
//! and no groups. Each of its lines is printed behind `> `, and then what it makes: of each frame that belongs to no circuit the
//! address that it goes to and its payload, in hex. An empty line is printed behind the block.
//!
//! | First line of a block | Makes |
//! |---|---|
//! | `two LINES` | a node of so many lines, 1 to 64, whose tariff has a rule of its own type for each of two services: `LOGIN` is rated 20 for each line that is free, at most 255, and `PRINT` 9 where a line is free |
//! | `many LINES` | a node with 32 services, `N01` to `N32`, each rated by its number where a line is free |
//!
//! | Other line | Does |
//! |---|---|
//! | `announce` | announces |
//! | `hear HEX` | hears a payload from aa0004000104 at moment 0 |
//!
//! LINES is a number in decimal from 1 to 64, without a sign or a needless 0. A block with another word there, or whose first word
//! is none of these two nor `cell`, `latd` nor `help`, is not played, and nothing is done of a line behind the first one whose first word is none of
//! the other two, nor of a line `hear` with an odd number of hex digits. Which word it is and what it isn't is printed: `line 7
//! word 2 isn't a number from 1 to 64`, `line 7 word 1 isn't a command`, `line 7 word 2 isn't hex digits`, with the numbers of the
//! line in the script and of its word, both counted from 1.
//!
//! A title begins with `#` and is printed as it is. What follows it is a schedule: the switch is made of the server's line, which
//! has at most 8 lines, and without its offers. Of each event that one of the two is told the line itself is printed behind `> `, then what
//! it is answered, and for an event of a line of the switch the inner line that the line shows, the state of its session, and how
//! many items wait. Other events do nothing. All frames are delivered at once, in the order in which they are made, at the latest
//! moment so far; what is answered to them isn't printed. A block whose schedule isn't one, or has a server of more lines, is not
//! played: `line N form` is printed, N the first wrong line of the schedule, counted from 1, or `line N limit events`.
//!
//! A block whose first line begins with the word `latd` has the words of daemons: each further line is a command line, whose words
//! stand behind those of the first line, with blanks between them. The first line is printed as it is; of each further one the line
//! itself behind `> `, and then what the words ask for, `help`, `version` or what they set, or what `latd` says of the first that is
//! wrong. What they set is the role, the name, the address and the port, the ports of the peers, the lines, the services, their
//! rates, the lines that offer, and the mask of the groups; and, where any of it isn't the usual one, the pace, the stay, the log
//! and the history. A block whose first line is `help` says of each further line whether it stands in the text of their help.
//!
//! A block whose first line is `cell EVENTS` tells the cell of a server with two lines so many events, 255 at most, without
//! threads: the same ten again and again, 80 ms later each time. They are an announcement of a node that offers VAX, then of line 1
//! a connect to VAX, five bytes put, a setting, an attention, then the time, a take of line 1, of line 2 a connect to NONE and a
//! byte put, and an announce. Of each event that the cell keeps its seat is printed and what it was answered, and of each share its
//! seat, its events and the bytes that were put. An event for which no memory is found is told once more, behind a look whether
//! anything has changed; `the cell isn't right` is printed where something has, or where the cell, its shares and the events
//! differ. So where one request for memory is refused (tools/want_of_memory.sh refuses each in turn) the block prints what it
//! prints with ample memory, or the program ends with status 9 and prints nothing.
#![tactic(auto)]

mod cell;
mod daemon;
mod names;
mod script;
mod switch;
mod tariff;

use lat_outside::{StdSink, StdSource};
use lat_script::run;
use script::played;
use std::io;
use std::process::ExitCode;

fn main(rt: HostRuntime) -> ExitCode {
    let mut source = StdSource::new(rt.stdin());
    let mut sink = StdSink::new(io::writer(&rt));
    ExitCode::from(run(rt.alloc(), played, &mut source, &mut sink))
}
