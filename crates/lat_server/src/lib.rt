//! The server core: what a terminal server does at each event.
#![tactic(auto)]

mod commands;
mod config;
mod connect;
mod gate;
mod grants;
mod halt;
mod hear;
pub mod laws;
mod server;
mod step;

pub use config::{Offer, Offers, ServerConfig};
pub use lat_lines::Timing;
pub use lat_queue::Record;
pub use server::ServerCore;
