//! Records: what a core was made of and each event that it was told with its answer, as a text; how it is written, and how it is
//! read. `docs/FORMATS.md`, "Records", has the lines.
#![tactic(auto)]

mod cursor;
mod entry;
mod entry_line;
mod event_words;
mod fault;
pub mod laws;
mod lists;
mod opening;
mod opening_line;
mod opening_text;
mod read;
mod recorder;
mod role_line;
mod verb;
mod written;

pub use entry::{Entries, Entry};
pub use fault::RecordFault;
pub use opening::{NodeOpening, Opening, Rate, Rates};
pub use read::{Record, read_record};
pub use recorder::Recorder;
pub use written::{entry_onto, opening_onto};
