//! Local mode at a calling line: the commands that a caller types at the prompt, the mind of the prompt, which says what each
//! thing that comes does, and what the caller is told. It touches neither the line nor the core. `docs/PROTOCOL.md`, "Local
//! mode", has the rules, `docs/FORMATS.md` the texts.
#![tactic(auto)]

mod command;
mod event;
pub mod laws;
mod meaning;
mod mind;
mod phase;
mod reading;
mod reply;
mod saying;
mod tables;
#[cfg(test)]
mod tests;
mod verb;
mod words;

pub use command::{Command, CommandFault};
pub use event::Event;
pub use meaning::Meaning;
pub use mind::LocalMind;
pub use phase::{Peer, Phase};
pub use reading::read_command;
pub use reply::{Act, Reply, Saying};
pub use saying::{PROMPT, reply_onto};
pub use tables::{ServiceRow, SessionRow};
