//! The real outside: a carrier over UDP and lines over TCP, both on the loopback address, and the system's clock. They tell
//! nothing of content, and are the trusted edge. "The loopback carrier" in docs/FORMATS.md has the datagrams.
#![tactic(auto)]

mod ahead;
mod callers;
mod clock;
mod connection;
mod datagram;
mod ear;
mod fault;
mod line;
mod opener;
mod ports;
mod udp;

pub use callers::{Listening, TcpCallers};
pub use clock::RealClock;
pub use connection::Connection;
pub use datagram::{DATAGRAM_BYTES, heard, put_datagram};
pub use ear::{Ear, is_peer};
pub use line::TcpLine;
pub use opener::NetOpener;
pub use ports::{NetPorts, fault_of};
pub use udp::{PEERS, UdpRx, UdpTx};
