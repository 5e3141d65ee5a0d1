//! A history that exists as a whole in the proofs, and what a running program keeps of it.
#![tactic(auto)]

mod entry;
mod history;
mod kept;
mod past;
mod seats;

pub use entry::{Entry, Told, told_in};
pub use history::History;
pub use kept::{Kept, MOST_ENTRIES, MOST_KEPT_BYTES};
pub use past::{CLOCK, Past, SEATS, WIRE, bytes, put, seat, took};
pub use seats::{SeatCounts, SeatTotals};
