//! A session that a line has got.

use lat_base::LineSession;

/// A line's present session, and the one that it had before, as its book tells them.
#[derive(Clone, Copy)]
pub(crate) struct Newcomer {
    pub(crate) line: u8,
    pub(crate) session: LineSession,
    pub(crate) last: Option<LineSession>,
}
