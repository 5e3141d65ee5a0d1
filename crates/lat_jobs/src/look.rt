//! What a job's mind is shown.

ghost use Rattle.std.specs.Prelude.{◌≡◌};
ghost use Rattle.lat_jobs.specs.Looks.{is_for, is_placed, is_refused, last_heard, refuses, tells};

use lat_base::{Kept, LineLook};

/// What the server's last status said of a request.
#[derive(Clone, Copy)]
pub struct StatusLook {
    /// The number of the request.
    pub request: u16,
    /// What the server keeps of it.
    pub kept: Kept,
    /// When it was heard, in milliseconds.
    pub heard: u64,
}

/// What a job's mind is shown for its next move.
#[derive(Clone, Copy)]
pub struct Look {
    /// The number of the request that the shown session answers. `None` where no session came under the job's number.
    pub request: Option<u16>,
    /// What the core shows of the line that has this session as its newest.
    pub line: LineLook,
    /// Whether the peer has said, by an attention with the flag 01 in this session, that its device has gone.
    pub broken: bool,
    /// The last status that was heard under the job's number.
    pub status: Option<StatusLook>,
    /// Whether the daemon is ending.
    pub stopping: bool,
    /// The core's moment, in milliseconds.
    pub moment: u64,
}

// Whether no session will come of a request of which the server keeps this.
fn refuses(kept: Kept) -> bool
    ensures { result ≡ refuses kept }
{
    !matches!(kept, Kept::Waiting(_) | Kept::Granted)
}

impl Look {
    /// Whether the shown session came under this number.
    pub(crate) fn is_for(&self, number: u16) -> bool
        ensures { result ≡ is_for self.now.request number }
    {
        match self.request {
            Some(request) => request == number,
            None => false,
        }
    }

    /// Whether a status was heard under this number.
    pub(crate) fn tells(&self, number: u16) -> bool
        ensures { result ≡ tells self.now.status number }
    {
        match self.status {
            Some(status) => status.request == number,
            None => false,
        }
    }

    /// Whether the last status under this number says that no session will come.
    pub(crate) fn is_refused(&self, number: u16) -> bool
        ensures { result ≡ is_refused self.now.status number }
    {
        match self.status {
            Some(status) => status.request == number && refuses(status.kept),
            None => false,
        }
    }

    /// Whether the last status under this number says that it has a place in the server's queue, or has a session.
    pub(crate) fn is_placed(&self, number: u16) -> bool
        ensures { result ≡ is_placed self.now.status number }
    {
        match self.status {
            Some(status) => status.request == number && !refuses(status.kept),
            None => false,
        }
    }

    /// When a status was heard for last under this number that was first asked for at this moment: then, where none was.
    pub(crate) fn last_heard(&self, number: u16, since: u64) -> u64
        ensures { result ≡ last_heard self.now.status number since }
    {
        match self.status {
            Some(status) if status.request == number => status.heard,
            _ => since,
        }
    }
}
