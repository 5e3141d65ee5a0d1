//! Where a caller in local mode is.

use lat_base::Name;

/// Whom a session is with.
#[derive(Clone, Copy)]
pub struct Peer {
    /// The service that was asked for.
    pub service: Name,
    /// The node that offers it.
    pub node: Name,
}

/// Where a caller in local mode is.
#[derive(Clone, Copy)]
pub enum Phase {
    /// At the prompt, with the session that stays, if one does.
    Prompt(Option<Peer>),
    /// It waits for a session with this service.
    Connecting(Name),
    /// In its session.
    Session(Peer),
    /// It has logged out, or is gone.
    Out,
}
