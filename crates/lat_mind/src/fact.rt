//! The moves of a mind, and what it is told of them.

ghost use Rattle.std.specs.Prelude.{◌≡◌};
ghost use Rattle.lat_mind.specs.Facts.{is_attended, is_avoided, is_ended, is_failed, is_quiet, wrote_of};

/// What a worker does next. An event is told to the core at the very look that the move was made at.
#[derive(Clone, Copy)]
pub enum Move {
    /// It ends.
    Finish,
    /// It waits for the next connection to its port.
    Accept,
    /// It dials a caller for the newest session.
    Dial,
    /// It dials the line's device, for sessions that will come.
    Attach,
    /// It tells the core that the line is ready.
    Ready,
    /// It tells the core that the line isn't ready.
    Unready,
    /// It gives the newest session to the line's caller.
    Join,
    /// It connects a session for the line's caller.
    Connect,
    /// It lets the next session go to another node.
    Avoid,
    /// It lets its caller wait for another session.
    Lose,
    /// It tells the peer, by an attention, that the device has gone.
    Attend,
    /// It closes the newest session.
    Close,
    /// It takes the items that wait.
    Take,
    /// It puts the bytes that were read.
    Put,
    /// It reads from its caller.
    Read,
    /// It writes to its caller the items that were taken.
    Write,
    /// It looks whether its caller stays, and takes no byte of it.
    Watch,
    /// It hangs up the caller of the newest session, or the one who waits where there is none.
    HangUp,
    /// It pauses.
    Rest,
}

/// What a mind is told of its move.
#[derive(Clone, Copy)]
pub enum Fact {
    /// Of a finish.
    Finished,
    /// Of an accept or an attach: a caller is there.
    Came,
    /// Of an accept, a read or a watch: nothing by now.
    Quiet,
    /// Of a dial: a caller is there.
    Dialled,
    /// Of a dial: it failed.
    Undialled,
    /// Of an attach: it failed.
    Away,
    /// Of a ready.
    Readied,
    /// Of an unready.
    Unreadied,
    /// Of a join.
    Joined,
    /// Of a connect: the line has a session of this number now.
    Connected(u64),
    /// Of a connect: it was refused.
    Unconnected,
    /// Of an avoid.
    Avoided,
    /// Of a lose.
    Lost,
    /// Of an attend, however it was answered.
    Attended,
    /// Of a close, however it was answered.
    Closed,
    /// Of a take: it gave so many items.
    Took(u16),
    /// Of a put: so many of the bytes were taken.
    Put(u16),
    /// Of a read: so many bytes.
    Read(u16),
    /// Of a read or a watch: the caller gives no more.
    Ended,
    /// Of a read, a watch or a write: the caller's connection failed.
    Failed,
    /// Of a write: so many of the items were written.
    Written(u16),
    /// Of a hang-up.
    HungUp,
    /// Of a rest.
    Rested,
    /// Of a move with an event: no memory was found, and nothing has changed.
    Lacking,
}

impl Fact {
    /// Whether nothing happened.
    pub(crate) fn is_quiet(self) -> bool
        ensures { result ≡ is_quiet self }
    {
        matches!(
            self,
            Fact::Quiet | Fact::Rested | Fact::Unconnected | Fact::Away | Fact::Lacking
        ) || self.wrote() == Some(0)
    }

    /// How many items it wrote, where it was a write.
    pub(crate) fn wrote(self) -> Option<u16>
        ensures { result ≡ wrote_of self }
    {
        match self {
            Fact::Written(count) => Some(count),
            _ => None,
        }
    }

    pub(crate) fn is_ended(self) -> bool
        ensures { result ≡ is_ended self }
    {
        matches!(self, Fact::Ended)
    }

    pub(crate) fn is_failed(self) -> bool
        ensures { result ≡ is_failed self }
    {
        matches!(self, Fact::Failed)
    }

    pub(crate) fn is_avoided(self) -> bool
        ensures { result ≡ is_avoided self }
    {
        matches!(self, Fact::Avoided)
    }

    pub(crate) fn is_attended(self) -> bool
        ensures { result ≡ is_attended self }
    {
        matches!(self, Fact::Attended)
    }
}
