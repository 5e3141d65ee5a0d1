//! Who has a job that is lent.

ghost use Rattle.std.specs.Prelude.{◌≡◌};
ghost use Rattle.lat_spool.specs.Jobs.{hand_passes, is_clock, is_hand_of};

/// Who has a job that is lent.
#[derive(Clone, Copy)]
pub enum Hand {
    /// The clock's worker, for a turn. Whether those behind the job in its queue might ask then.
    Clock { placed: bool },
    /// The worker of this line, since the job's session has come there.
    Line { line: u8 },
}

impl Hand {
    /// Whether those behind the job in its queue may ask.
    pub(crate) fn passes(self) -> bool
        ensures { result ≡ hand_passes self }
    {
        match self {
            Hand::Clock { placed } => placed,
            Hand::Line { .. } => true,
        }
    }

    /// Whether it is the worker of this line.
    pub(crate) fn is_of(self, line: u8) -> bool
        ensures { result ≡ is_hand_of line self }
    {
        match self {
            Hand::Clock { .. } => false,
            Hand::Line { line: other } => other == line,
        }
    }

    /// Whether it is the clock's worker.
    pub(crate) fn is_clock(self) -> bool
        ensures { result ≡ is_clock self }
    {
        matches!(self, Hand::Clock { .. })
    }
}
