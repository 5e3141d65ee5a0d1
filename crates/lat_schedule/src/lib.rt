//! Written schedules: what a text says of two cores and of the events that they are told.
//! `docs/FORMATS.md`, "Schedules", has the lines.
#![tactic(auto)]

mod event;
mod event_line;
mod front;
mod groups;
pub mod laws;
mod line_numbers;
mod listed;
mod numbers;
mod opening;
mod print;
mod read;
mod rest;
mod schedule;
mod setup;
mod setup_line;
mod silent;
mod verb;

pub use event::{WorldEvent, WorldEvents};
pub use line_numbers::LineNumbers;
pub use print::event_onto;
pub use read::read_schedule;
pub use schedule::{Schedule, ScheduleFault};
pub use setup::Setup;
