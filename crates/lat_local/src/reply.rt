//! What the mind of local mode answers.

use crate::command::CommandFault;
use crate::phase::Peer;
use lat_base::{Name, SessionEnd};

/// What is to be done for the caller.
#[derive(Clone, Copy)]
pub enum Act {
    /// Nothing.
    Nothing,
    /// A session for this service is connected, once the line's last one is free.
    Connect(Name),
    /// So it is, and the node that the last one was asked of is avoided.
    Next(Name),
    /// The session is closed.
    Close,
    /// The session is closed, if there is one, and the caller is hung up.
    HangUp,
}

/// What a caller is told. `docs/FORMATS.md`, "Local mode", has the texts.
#[derive(Clone, Copy)]
pub enum Saying {
    /// Of a caller who has just come: the server, and the line.
    Greeting(Name, u8),
    /// Of a line that is no command.
    Wrong(CommandFault),
    /// A session is asked for.
    Connecting,
    /// This node, which was asked, gave none, and the next one is asked.
    Next(Name, SessionEnd),
    /// This node, which was asked, gave none.
    Unmet(Name, SessionEnd),
    /// No node offers this service.
    Unoffered(Name),
    /// The session is live.
    Connected(Peer),
    /// The caller is back in its session.
    Resumed(Peer),
    /// The caller has left its session, which stays.
    Left,
    /// There is no session.
    NoSession,
    /// The session that there is has to be closed before.
    Busy(Peer),
    /// The session ended by itself.
    Ended(SessionEnd),
    /// The session was closed by the caller.
    Disconnected,
    /// The services that are known.
    Services,
    /// The sessions of the line.
    Sessions,
    /// The commands.
    Help,
    /// The caller is hung up at its own wish.
    LoggedOut,
}

/// What comes of an event.
#[derive(Clone, Copy)]
pub struct Reply {
    /// What is to be done.
    pub act: Act,
    /// What is said.
    pub saying: Option<Saying>,
    /// Whether the prompt is said behind it.
    pub prompts: bool,
}
