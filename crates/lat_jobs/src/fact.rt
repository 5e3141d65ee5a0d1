//! The moves of a job's mind, and what it is told of them.

ghost use Rattle.std.specs.Prelude.{◌≡◌};
ghost use Rattle.lat_jobs.specs.Facts.{is_closed, is_ended, is_failed, is_quiet, is_read, is_write};

/// What a job's worker does next. An event is told to the core at the very look that the move was made at.
#[derive(Clone, Copy, PartialEq, Eq)]
pub enum Move {
    /// It draws a number, and requests a session under it.
    Ask,
    /// It makes the request of its number again.
    Repeat,
    /// It cancels the request of its number.
    Cancel,
    /// It lets its client wait for another request.
    Lose,
    /// It gives the session that came under its number to its client.
    Join,
    /// It looks whether its client's connection was reset, and takes no byte of it.
    Watch,
    /// It reads from its client.
    Read,
    /// It puts the bytes that were read.
    Put,
    /// It takes the items that wait.
    Take,
    /// It writes to its client the items that were taken.
    Write,
    /// It closes its session.
    Close,
    /// It pauses.
    Rest,
    /// It hangs its client up: the job is done.
    HangUp,
    /// It resets its client's connection: the job failed, or was given up.
    Reset,
    /// It has ended, and its place is free.
    Stop,
}

/// What a job's mind is told of its move.
#[derive(Clone, Copy)]
pub enum Fact {
    /// Of an ask: a session was requested under this number.
    Asked(u16),
    /// Of an ask: no number is left.
    Unasked,
    /// Of a repeat, however it was answered.
    Repeated,
    /// Of a cancel, however it was answered.
    Cancelled,
    /// Of a lose.
    Lost,
    /// Of a join.
    Joined,
    /// Of a watch or a read: nothing by now.
    Quiet,
    /// Of a read: so many bytes.
    Read(u16),
    /// Of a read: the client has sent all.
    Ended,
    /// Of a watch, a read or a write: the client's connection failed.
    Failed,
    /// Of a put: so many of the bytes were taken.
    Put(u16),
    /// Of a take: it gave so many items.
    Took(u16),
    /// Of a write: so many of the items were written.
    Written(u16),
    /// Of a close, however it was answered.
    Closed,
    /// Of a rest.
    Rested,
    /// Of a hang-up.
    HungUp,
    /// Of a reset.
    Reset,
    /// Of a move with an event: no memory was found, and nothing has changed.
    Lacking,
}

impl Fact {
    /// Whether nothing happened.
    pub(crate) fn is_quiet(self) -> bool
        ensures { result ≡ is_quiet self }
    {
        match self {
            Fact::Quiet | Fact::Rested | Fact::Lacking => true,
            Fact::Written(count) => count == 0,
            _ => false,
        }
    }

    pub(crate) fn is_read(self) -> bool
        ensures { result ≡ is_read self }
    {
        matches!(self, Fact::Read(_))
    }

    pub(crate) fn is_ended(self) -> bool
        ensures { result ≡ is_ended self }
    {
        matches!(self, Fact::Ended)
    }

    pub(crate) fn is_failed(self) -> bool
        ensures { result ≡ is_failed self }
    {
        matches!(self, Fact::Failed)
    }

    pub(crate) fn is_closed(self) -> bool
        ensures { result ≡ is_closed self }
    {
        matches!(self, Fact::Closed)
    }

    /// Whether a write was tried.
    pub(crate) fn is_write(self) -> bool
        ensures { result ≡ is_write self }
    {
        matches!(self, Fact::Written(_) | Fact::Failed)
    }
}
