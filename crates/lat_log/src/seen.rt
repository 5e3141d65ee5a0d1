//! What is remembered of a core between two notices.

use crate::entry::Flow;
use lat_base::{Addr, Correspondent, LineLook, Name};

/// At which end of its circuits a core stands, and how it shows its lines.
#[derive(Clone, Copy)]
pub enum Side {
    Server,
    /// A server with several sessions on each line, of which it shows one.
    Switch,
    Node,
}

/// How far a session came.
#[derive(Clone, Copy)]
pub enum Reached {
    /// It isn't answered yet.
    Waiting,
    /// It carries items, or is being closed.
    Live,
    Over,
}

/// A session of a line, as it was seen last.
#[derive(Clone, Copy)]
pub struct SessionSeen {
    pub number: u64,
    pub with: Correspondent,
    pub reached: Reached,
    /// What its line had carried when the session was first seen.
    pub began: Flow,
}

/// A line, with its newest session as that was seen last.
#[derive(Clone, Copy)]
pub struct LineSeen {
    pub line: u8,
    pub session: Option<SessionSeen>,
}

/// A line, as it was seen last and as it is shown now.
#[derive(Clone, Copy)]
pub struct LineSight {
    pub line: u8,
    pub seen: Option<SessionSeen>,
    pub look: LineLook,
    pub with: Option<Correspondent>,
    /// What the line has carried so far.
    pub flow: Flow,
}

/// A request that waits, with its place in its service's queue, counted from 1.
#[derive(Clone, Copy)]
pub struct Waiting {
    pub service: Name,
    pub from: Addr,
    pub request: u16,
    pub place: u16,
}
