//! The circuits of one core, its lines, and the sessions that they have on them.
#![tactic(auto)]

mod acts;
mod answers;
mod calls;
mod circuits;
mod events;
mod getters;
mod lines;
mod opening;
mod reap;
mod seat;
mod strangers;

pub use answers::hearing_answer;
pub use circuits::{Circuits, Hearing, Info};
pub use events::line_call;
pub use lat_circuit::{Asked, SessionCall, Timing};
pub use lines::Lines;
pub use opening::OpenFault;
