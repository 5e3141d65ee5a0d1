//! What a mind is shown.

ghost use Rattle.std.specs.Prelude.{◌≡◌};
ghost use Rattle.lat_mind.specs.Looks.{at_port, is_job, is_own};

use lat_base::LineLook;

/// Who is the caller of the newest session.
#[derive(Clone, Copy)]
pub enum Owner {
    /// Whoever waits at the line's port, or comes there next.
    Port,
    /// The line's device, or the one that is dialled for this session.
    Device,
    /// A job, whatever line the session has: the line's worker leaves it alone.
    Job,
    /// Nobody: its request was given up.
    Nobody,
}

/// What a mind is shown for its next move.
#[derive(Clone, Copy)]
pub struct Look {
    /// What the core shows of the line.
    pub line: LineLook,
    /// Who is the caller of the newest session.
    pub owner: Owner,
    /// Whether somebody waits for the service that the line offers.
    pub wanted: bool,
    /// Whether the daemon is ending.
    pub stopping: bool,
    /// The core's moment, in milliseconds.
    pub moment: u64,
}

impl Owner {
    /// Whether it is a caller of the line.
    pub(crate) fn is_own(self) -> bool
        ensures { result ≡ is_own self }
    {
        matches!(self, Owner::Port | Owner::Device)
    }

    pub(crate) fn at_port(self) -> bool
        ensures { result ≡ at_port self }
    {
        matches!(self, Owner::Port)
    }

    pub(crate) fn is_job(self) -> bool
        ensures { result ≡ is_job self }
    {
        matches!(self, Owner::Job)
    }
}
