//! A frame that was sent, as it is told of.

use lat_base::{Addr, Mark};

/// A frame as it went out. Its payload is lent.
#[derive(Clone, Copy)]
pub struct SentFrame<'a> {
    /// The station that it goes to.
    pub to: Addr,
    pub payload: &'a [u8],
    /// The sender's id of the circuit that it belongs to, 0 where it belongs to none.
    pub circuit: u16,
    pub mark: Mark,
}

/// A frame with its sender.
#[derive(Clone, Copy)]
pub struct Post<'a> {
    pub by_server: bool,
    pub frame: SentFrame<'a>,
    /// The two numbers of a RUN, unbounded, as they are tallied.
    pub number: u64,
    pub acknowledgement: u64,
}

/// A frame with what is known of it.
#[derive(Clone, Copy)]
pub struct Sent<'a> {
    pub post: Post<'a>,
    /// Its place, from 0 on, among the frames that its sender sent the other end or everyone. `None` where it isn't one.
    pub turn: Option<u64>,
    /// It was delivered at least once.
    pub delivered: bool,
}
