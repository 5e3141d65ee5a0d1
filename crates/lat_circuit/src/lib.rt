//! One end of a circuit: its timers, its frames, and the sessions that it carries; and its numbered messages, as
//! docs/PROTOCOL.md says under "Messages and numbers": their numbers in both directions, and the messages that the peer isn't
//! known to have taken, each kept as the payload that was written once.
#![tactic(auto)]

mod agreed;
mod calls;
mod circuit;
mod config;
mod forming;
mod getters;
mod head;
mod heard;
mod heard_run;
mod hearing;
mod ids;
pub mod laws;
mod link;
mod making;
mod moments;
mod named;
mod patch;
mod room;
mod start;
mod steps;
mod time;
mod timers;

pub use circuit::Circuit;
pub use config::CircuitConfig;
pub use lat_frames::Timing;
pub use lat_session::{Asked, SessionCall, SessionFault};
pub use room::CircuitRoom;
pub use start::stray_stop;
pub use time::Due;
