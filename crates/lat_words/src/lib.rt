//! The words of the daemon `latd`: which are right, and what they say. See "The daemon's words" in docs/FORMATS.md.
#![tactic(auto)]

mod command_line;
mod config;
mod fault;
mod groups;
pub mod laws;
mod name_texts;
mod offers;
mod pieces;
mod rates;
mod reader;
mod roles;
mod seats;
mod services;
mod settings;
mod told;
mod values;

pub use config::{PEERS, Role, Station};
pub use fault::{Expected, OptionName, WordsFault};
pub use name_texts::named;
pub use reader::{help_text, read_words};
pub use settings::{
    Level, OFFERS, Offer, Pace, Rate, Rated, SERVICES, Seats, Service, Settings, Stay, Words,
};
pub use told::fault_text;
