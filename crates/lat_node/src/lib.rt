//! The node core: what a service node does at each event.
#![tactic(auto)]

mod announce;
mod answering;
mod config;
mod halt;
mod hear;
mod hook;
pub mod laws;
mod message;
mod node;
mod requests;
mod step;
mod told;

pub use config::NodeConfig;
pub use hook::{FreeLines, RateHook, RatingRule};
pub use lat_lines::Timing;
pub use node::NodeCore;
