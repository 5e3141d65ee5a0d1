//! How far a daemon is with its end.

ghost use Rattle.std.specs.Prelude.{◌≡◌};
ghost use Rattle.lat_history.specs.Stages.{is_ending, is_over, stopped};

/// How far a daemon is with its end.
#[derive(Clone, Copy, Debug, PartialEq, Eq)]
pub enum Stage {
    /// It serves.
    Serving,
    /// No caller is taken any more, and sessions are closed.
    Ending,
    /// The workers of the wire and of the clock end too.
    Over,
}

impl Stage {
    /// No caller is taken from now on.
    pub(crate) fn stopped(self) -> Stage
        ensures { result ≡ stopped self }
    {
        match self {
            Stage::Serving => Stage::Ending,
            Stage::Ending | Stage::Over => self,
        }
    }

    pub(crate) fn is_ending(self) -> bool
        ensures { result ≡ is_ending self }
    {
        !matches!(self, Stage::Serving)
    }

    pub(crate) fn is_over(self) -> bool
        ensures { result ≡ is_over self }
    {
        matches!(self, Stage::Over)
    }
}
