//! What is kept of a session that a line has.

use lat_base::LineSession;
use lat_queue::Key;

/// A session that a line has.
#[derive(Clone, Copy)]
pub(crate) struct Seat {
    pub(crate) line: u8,
    /// Of the request that it was granted for.
    pub(crate) key: Option<Key>,
    /// As it stood after the last act.
    pub(crate) session: LineSession,
}
