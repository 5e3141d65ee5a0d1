//! What a core shows of itself.

use crate::addr::Addr;
use crate::name::Name;
use crate::state::{SessionEnd, SessionState};

/// What a core shows of a line in one look: its newest session, which is the present one or, where it has none, the last.
#[derive(Clone, Copy)]
pub struct LineLook {
    /// The number of this session among all line sessions of the core, 0 where the line never had one. It stops at the
    /// greatest number of 64 bits.
    pub newest: u64,
    /// Its state, `Free` where the line has none.
    pub state: SessionState,
    /// How many heard items a take could give now, 0 where it would be refused. At most 3,825.
    pub waiting: u16,
    /// How many bytes a put could take now, 0 where it would be refused. At most 4,096.
    pub room: u16,
    /// How it ended. `None` while it isn't free, and where there never was one.
    pub end: Option<SessionEnd>,
}

/// Whom the newest session of a line is or was with, and what for.
#[derive(Clone, Copy)]
pub struct Correspondent {
    /// The station at the other end.
    pub peer: Addr,
    /// The service that was asked for.
    pub service: Name,
    /// The number of the peer's request that it answers, where it answers one.
    pub request: Option<u16>,
}

/// What a core shows of a circuit that lives.
#[derive(Clone, Copy)]
pub struct CircuitLook {
    /// Its id at this end.
    pub id: u16,
    /// Its id at the peer, 0 where it isn't known.
    pub peer_id: u16,
    /// The station at the other end.
    pub peer: Addr,
    /// The name of that station.
    pub name: Name,
    /// Its timer, in 10 ms.
    pub timer: u8,
    /// How long it may be silent, in seconds.
    pub keep_alive: u8,
    /// How many sessions aren't free.
    pub held: u8,
    /// How many of this end's messages the peer isn't known to have taken.
    pub unacknowledged: u8,
    /// The rounds of repeats without progress, at most 8.
    pub rounds: u8,
}

/// What a core shows of a node that offers services and is live.
#[derive(Clone, Copy)]
pub struct NodeLook {
    /// Its name, as it announced it.
    pub name: Name,
    /// Its address.
    pub from: Addr,
    /// How many services it announced.
    pub services: usize,
    /// The moment from which on it isn't live any more, in milliseconds. It stops at the greatest number of 64 bits.
    pub until: u64,
}

/// A service that a node announced.
#[derive(Clone, Copy)]
pub struct ServiceLook {
    /// Its name, in upper case.
    pub name: Name,
    /// How well the node can take a session, 0 where it can't.
    pub rating: u8,
}

/// A request that waits for a service.
#[derive(Clone, Copy)]
pub struct WaiterLook {
    /// The name of the node that asks.
    pub node: Name,
    /// The address that its first command came from.
    pub from: Addr,
    /// The number of the request there.
    pub request: u16,
}
