//! The timing of an end.

/// The numbers that an end states in its STARTs. Valid where the timer is 1 to 100, the keep-alive at least 1, the sessions
/// 1 to 64 and the ceiling 1 to 15. See "Circuits" in docs/PROTOCOL.md.
#[derive(Clone, Copy)]
pub struct Timing {
    /// The circuit timer in 10 ms.
    pub timer: u8,
    /// The keep-alive in seconds.
    pub keepalive: u8,
    /// How many sessions the end holds on a circuit.
    pub sessions: u8,
    /// How many buffers beyond the first it has for messages.
    pub extra: u8,
    /// The greatest number of credits that a session has given and that aren't used up.
    pub ceiling: u8,
    /// Whether it takes circuits whose message numbers have two bytes.
    pub wide: bool,
}
