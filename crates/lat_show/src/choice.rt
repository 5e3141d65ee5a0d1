//! The choice of a node over written announcements: the lines of an input, and what `lat choose` answers to them.
//! `docs/FORMATS.md`, "Choices", has the lines.

mod entry;
mod input;
mod opening;
mod print;

pub use input::choose;
