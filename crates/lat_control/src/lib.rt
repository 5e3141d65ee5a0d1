//! The control socket of a daemon: its clients, the lines that they give, and what they are answered. What is said of a line is
//! told by whoever has the daemon (`Answers`); `docs/FORMATS.md`, "The control socket", has the lines.
#![tactic(auto)]

mod answers;
mod client;
mod control_fault;
mod control_socket;
mod desk;
mod farewell;
mod memory_client;
mod memory_clients;
mod seat;
mod session;
mod unix_client;
mod worker;

pub use answers::Answers;
pub use client::{Client, Clients};
pub use control_fault::{ControlFault, control_fault_of};
pub use control_socket::ControlSocket;
pub use desk::{Desk, MOST_CLIENTS};
pub use farewell::{Farewell, Gone};
pub use memory_client::{Manner, MemClient, MemComer};
pub use memory_clients::MemClients;
pub use seat::Seat;
pub use session::{MOST_LINE, MOST_OWED, Session};
pub use unix_client::UnixClient;
pub use worker::{Ending, control_worker};
