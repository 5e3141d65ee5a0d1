//! Plays the outside of a daemon in memory: callers and ports whose calls fail where a script says so, halves of a carrier, ends of
//! lines, and what a terminal sends and is shown. Its stored run (`stdin`, `stdout`) is how the rules of docs/PROTOCOL.md ("Cells",
//! "Terminals") and what the public calls of `lat_outside`, `lat_terminal` and `lat_base` say of themselves are seen to hold: what
//! stands in `stdout` was worked out from these by hand.
//!
//! A script is a list of blocks with a line `---` between them. The first line of a block says what the others are done at. Each line is
//! printed behind `> `, and then what it is answered. FAILING stands for numbers, seven at most: the calls that fail, counted from
//! 1. HEX are bytes, none where there is no word; `-` is printed for none.
//!
//! | First line | The others are done at |
//! |---|---|
//! | `names` | names: `name HEX` reads one, and prints it with its key, or why it is none |
//! | `callers PORT FAILING` | a line that listens at this port |
//! | `ports FAILING` | an opener of ports, and the line that it opened last |
//! | `sends FAILING` | the sending half of a carrier: `send HEX`. Behind the block stands what was tried |
//! | `frames FAILING` | the receiving half of a carrier: `recv` |
//! | `lines MOST FAILING` | an opener of lines that give and take so many bytes a call at most, and the line that it opened last |
//! | `line MOST HEX FAILING` | a line of these bytes, of which a call gives and takes so many at most. Behind the block stands what was written |
//! | `reader HEX FAILING` | a source over a reader of these bytes, which gives one a call: `read` reads two at most, `all LIMIT` all that are left; and sinks over writers: `write HEX` |
//! | `telnet` | the filter of a client that speaks telnet |
//! | `editor ROOM HEX` | the editor of lines, with room for so many shown bytes, and a prompt |
//!
//! | Line | Of | Does |
//! |---|---|---|
//! | `caller BEHIND TAKES LEAVES HEX` | `callers`, `ports` | a caller comes once so many were hung up. It gives these bytes, two a read at most, and takes so many, three a write at most; behind its last byte it `stays`, `ends` or `breaks` |
//! | `device PORT TAKES LEAVES HEX` | `callers`, `ports` | the same of one that answers where this port is dialled |
//! | `accept`, `dial PORT`, `read`, `write HEX`, `watch`, `hang-up`, `turn-away` | `callers`, `ports` | the calls of a line. Behind a block `callers` stands how many callers are still to come, and what was written to each who was hung up |
//! | `carrier COUNT` | `ports` | opens a carrier with so many peers, 9 at most |
//! | `port PORT`, `dialling` | `ports` | opens a line that listens, or one that doesn't. Each line has the next `caller` or `device` alone |
//! | `frame HEX` | `frames` | the next frame, of 1,500 bytes at most |
//! | `gives HEX` | `lines` | what the next line gives |
//! | `open` | `lines` | opens a line |
//! | `read`, `write HEX` | `lines`, `line` | the calls of a line; a read asks for three bytes |
//! | `feed HEX` | `telnet` | the client sends these bytes |
//! | `offers` | `telnet` | what a client is told first |
//! | `double HEX` | `telnet` | these bytes, 256 at most, as they are sent to a client |
//! | `cuts` | `telnet` | all 256 bytes, doubled, come in two pieces to a filter of their own, cut at each place in turn: in how many of these cases each byte is heard once, in order |
//! | `type HEX`, `keys COUNT` | `editor` | these bytes, or so many bytes 61 hex, are typed |
#![tactic(auto)]

mod callers;
mod calls;
mod carriers;
mod editor;
mod failing;
mod line_ends;
mod names;
mod ports;
mod print;
mod readers;
mod script;
mod site;
mod telnet;

use lat_outside::{StdSink, StdSource};
use lat_script::run;
use script::played;
use std::io;
use std::process::ExitCode;

fn main(rt: HostRuntime) -> ExitCode {
    let mut source = StdSource::new(rt.stdin());
    let mut sink = StdSink::new(io::writer(&rt));
    ExitCode::from(run(rt.alloc(), played, &mut source, &mut sink))
}
