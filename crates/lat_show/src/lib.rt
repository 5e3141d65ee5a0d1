//! What is printed of an input by itself: of payloads a line for each value that they carry, or the first bad field; and of
//! written announcements which node is chosen.
#![tactic(auto)]

mod choice;
mod message;
mod notice;
mod params;
mod payload;
mod print;
mod slot;
mod start;

pub use choice::choose;
pub use payload::payload_onto;
pub use print::show;
