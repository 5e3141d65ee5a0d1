//! Tells cells many events, and prints what they keep of them. Its stored run (`stdin`, `stdout`) is how "A history without an
//! end" is seen to hold: what stands in `stdout` was worked out from the rules in docs/PROTOCOL.md, "Cells". `tools/soak.py` has
//! the runs that are too long for a gate, and looks at the memory that they take.
//!
//! A script is a list of blocks with a line `---` between them. Each has a cell of its own with two lines, over a core that takes all
//! bytes of each put, gives one item to each take, and makes no frame. The first line of a block is `kept N`: the cell keeps N
//! entries at most, 0 to 1,000,000. Each other line tells it events, numbered from 0 in the order in which they come.
//!
//! | Line | Tells |
//! |---|---|
//! | `time COUNT` | so many moments, each the event's number |
//! | `heard COUNT BYTES` | so many frames of so many bytes, at the moment of the event's number |
//! | `put COUNT BYTES` | so many puts of so many bytes on line 1 |
//! | `take COUNT` | so many takes on line 2 |
//!
//! COUNT is at most 100,000,000, BYTES at most 1,500. Each line is printed behind `> `, and behind a block what the cell has then:
//!
//! | Line | Says |
//! |---|---|
//! | `events E` | how many events there are |
//! | `kept K from F to L` | how many entries are kept, and the number of the first and the last of them that have one, as a moment. Behind it stands ` astray N` where the number N isn't the next one behind the number before it; where no entry has a number, `kept K` stands alone |
//! | `seat S events E bytes B items I` | of the wire (0), both lines and the clock (65) how many events are its own, how many bytes its puts took, how many items it took |
//! | `the shares agree` | the audit with the shares of all seats is Ok; else `the shares differ` |
#![tactic(auto)]

mod order;
mod script;
mod sponge;
mod told;

use lat_outside::{StdSink, StdSource};
use lat_script::run;
use script::played;
use std::io;
use std::process::ExitCode;

fn main(rt: HostRuntime) -> ExitCode {
    let mut source = StdSource::new(rt.stdin());
    let mut sink = StdSink::new(io::writer(&rt));
    ExitCode::from(run(rt.alloc(), played, &mut source, &mut sink))
}
