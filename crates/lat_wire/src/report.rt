//! The text of a report on what became of two cores, line by line. `docs/FORMATS.md`, "Reports", has the lines.

mod noted;
mod refused;
mod rows;

pub use noted::{Noted, Refusal, noted_onto};
pub(crate) use refused::old_word;
pub use refused::{Refused, refused_onto, why_onto};
pub use rows::{Flow, SessionRow, done_onto, frames_onto, grant_onto, request_onto, session_onto};
