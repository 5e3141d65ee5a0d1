//! The world of a schedule: a server core and a node core, told the events of a schedule one after another, with all frames
//! that either ever sent and the sessions of the report; and the report of it, appended to a text. `docs/FORMATS.md`,
//! "Reports", has the lines.
#![tactic(auto)]

mod counts;
mod figures;
mod grants;
pub mod laws;
mod notes;
mod play;
mod refused;
mod requests;
mod roster;
mod sessions;
mod step;
mod summary;
mod world;

pub use counts::Counts;
pub use lat_schedule::{
    Schedule, ScheduleFault, Setup, WorldEvent, WorldEvents, event_onto, read_schedule,
};
pub use lat_wire::{
    EventFault, NodeConfig, NodeCore, RateHook, RatingRule, ServerConfig, ServerCore, Wire,
};
pub use play::Stopped;
pub use refused::refused_of;
pub use world::World;
