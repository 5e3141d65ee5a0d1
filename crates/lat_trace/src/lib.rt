//! What happened when a schedule was played: of each event the moment, the answer and the frames that it made; and all of
//! it in print. `docs/FORMATS.md`, "Traces", has the lines.
#![tactic(auto)]

mod course;
mod entries;
mod entry;
mod fates;
mod frame;
mod heading;
mod play;
mod print;
mod run;
mod tracing;
mod words;

pub use course::{Course, Line, course_of};
pub use entries::Entries;
pub use entry::Entry;
pub use fates::Fates;
pub use lat_wire::{RateHook, RatingRule};
pub use run::{Run, Stop};
pub use tracing::trace;
pub use words::{told_onto, words_onto};
