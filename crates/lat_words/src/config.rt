//! Which core a daemon runs, and how it stands on the carrier.

use arrayvec::ArrayVec;
use lat_base::{Addr, Name};

/// How many ports frames go to at most.
pub const PEERS: usize = 8;

/// Which kind of core it runs.
#[derive(Clone, Copy, Debug, PartialEq, Eq)]
pub enum Role {
    Server,
    /// A server with several sessions on each line.
    Switch,
    Node,
    /// A node that offers the services of the tariff.
    Tariff,
}

/// How it stands on the carrier.
pub struct Station {
    pub name: Name,
    pub address: Addr,
    /// The port that frames come to.
    pub port: u16,
    /// The ports that frames go to.
    pub peers: ArrayVec<u16, PEERS>,
}

impl Drop for Station {
    fn drop(self) {
        let Self {
            name,
            address,
            port,
            peers,
        } = self;
    }
}
