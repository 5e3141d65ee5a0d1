//! What an operator asks a daemon and sees of it: the lines of the control socket, and tables of what a core shows.
//! `docs/FORMATS.md`, "The control socket", has the commands and the tables.
#![tactic(auto)]

mod cell;
mod circuits;
mod column;
mod command;
mod counter;
mod counters;
mod counts;
mod fault;
mod field_count;
mod laws;
mod layout;
mod lines;
mod listing;
mod print;
mod reading;
mod requests;
mod row;
mod services;
mod table;
mod word;

pub use cell::Cell;
pub use column::{Column, Side};
pub use command::{Command, Listing, command_onto};
pub use counter::{Counter, counter_onto};
pub use counters::Counters;
pub use counts::{Count, counters_table};
pub use fault::CommandFault;
pub use field_count::{FIELD_COUNT, FIELDS, field_place};
pub use laws::commands_are_read;
pub use listing::{listed, listed_text};
pub use reading::read_command;
pub use row::Row;
pub use table::Table;
