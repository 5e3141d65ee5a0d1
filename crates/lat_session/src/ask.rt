//! The asks that a slave has heard.

/// An ask for a session that was neither answered nor told its reject.
#[derive(Clone, Copy)]
pub enum Ask {
    /// Of the session of this id, which waits to be answered.
    Waits(u8),
    /// Rejected, and its reject waits to be sent.
    Rejected {
        /// The peer's id of the session.
        peer: u8,
        /// 0 to 15.
        reason: u8,
    },
}
