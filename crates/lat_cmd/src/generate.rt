//! Generated schedules: the draws, the event of each turn, and what both cores are made of; the text as it grows beside the
//! world of its events, and what it comes to in one line. `docs/FORMATS.md`, "Generated schedules", has the draws, the turns
//! and the line.

mod front;
mod generator;
mod growth;
mod texts;
mod turn;

pub use texts::{benched, generated};
