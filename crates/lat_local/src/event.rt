//! What the mind of local mode is told.

use crate::command::{Command, CommandFault};
use lat_base::{Name, SessionEnd};

/// What comes to a caller in local mode.
#[derive(Clone, Copy)]
pub enum Event {
    /// A line was typed at the prompt.
    Typed(Result<Command, CommandFault>),
    /// The byte 1d was typed in a session.
    Escape,
    /// No node offers the service that is asked for.
    Unoffered,
    /// The session that was asked for came to nothing at this node, and ended so.
    Unmet(Name, SessionEnd),
    /// The session that was asked for is live, at this node.
    Met(Name),
    /// The session was live, and ended so.
    Over(SessionEnd),
    /// The caller has left, or the daemon is ending.
    Gone,
}
