//! Several sessions on one line: a core over the server core. A line shows one of its sessions at a time, and two keys among
//! the bytes that are put on it show another one and connect one more.
#![tactic(auto)]

mod calls;
mod config;
mod events;
mod inner;
pub mod laws;
mod line;
mod make;
mod piece;
mod put;
mod reading;
mod step;
mod switch;

pub use config::SwitchConfig;
pub use lat_lines::Timing;
pub use switch::SwitchCore;
