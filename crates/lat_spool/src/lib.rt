//! The spool of a node: the jobs of its queues, in the order in which they came, carried from hand to hand. A job waits
//! here with its client; the clock's worker borrows it for a turn, and a line's worker while the job has its session there.
//! `docs/PROTOCOL.md`, "Print jobs", has the rules.
#![tactic(auto)]

mod hand;
mod job;
pub mod laws;
mod load;
mod loan;
mod place;
mod spool;

pub use hand::Hand;
pub use load::Load;
pub use loan::Loan;
pub use spool::{JOBS, Spool};
