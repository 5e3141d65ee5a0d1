//! What circuits tell of a session.

use lat_base::{Addr, SessionEnd};

/// The present or last session of an id of a circuit, as the circuit knows it.
#[derive(Clone, Copy)]
pub struct Info {
    /// The station at the other end.
    pub peer: Addr,
    /// The ids of circuit and session at the peer, 0 where one isn't known.
    pub peer_circuit: u16,
    pub peer_session: u8,
    /// The credits that this end has given, and those that it has used.
    pub given: u64,
    pub used: u64,
    /// How it ended, `None` while it isn't over.
    pub end: Option<SessionEnd>,
    /// It waits for this end's answer, or did when its circuit ended.
    pub is_asked: bool,
}
