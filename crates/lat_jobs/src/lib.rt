//! The mind of a print job at a node, the queue of the jobs of a port, and the numbers of their requests. None of it touches a
//! client or the core: a mind is shown what stands under the lock, says the next move, and is told what came of it.
//! `docs/PROTOCOL.md`, "Print jobs", has the rules.
#![tactic(auto)]

mod fact;
pub mod laws;
mod line_look;
mod look;
mod mind;
mod numbers;
mod phase;
mod queue;
#[cfg(test)]
mod tests;

pub use fact::{Fact, Move};
pub use look::{Look, StatusLook};
pub use mind::JobMind;
pub use numbers::Numbers;
pub use phase::{Ask, Pause, Phase, Print};
pub use queue::{JOBS, JobQueue};
