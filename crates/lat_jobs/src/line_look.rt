//! What a job's mind reads in the look of a line.

ghost use Rattle.std.specs.Prelude.{◌≡◌};
ghost use Rattle.lat_mind.specs.Looks.{holds_on, is_answered, is_free, is_live};
ghost use Rattle.lat_jobs.specs.Looks.{is_stopped};

use lat_base::{LineLook, SessionEnd, SessionState};

pub(crate) fn is_free(line: &LineLook) -> bool
    ensures { result ≡ is_free line.now.state }
{
    matches!(line.state, SessionState::Free)
}

pub(crate) fn is_live(line: &LineLook) -> bool
    ensures { result ≡ is_live line.now.state }
{
    matches!(line.state, SessionState::Live)
}

/// Whether the newest session is or was live, and isn't free.
pub(crate) fn is_answered(line: &LineLook) -> bool
    ensures { result ≡ is_answered line.now.state }
{
    matches!(
        line.state,
        SessionState::Live | SessionState::Closing | SessionState::Left
    )
}

/// Whether the newest session needs its worker still: it isn't over at this end, or items of it wait.
pub(crate) fn holds_on(line: &LineLook) -> bool
    ensures { result ≡ holds_on line.now }
{
    match line.state {
        SessionState::Free => false,
        SessionState::Calling | SessionState::Asked | SessionState::Live => true,
        SessionState::Closing | SessionState::Left => line.waiting > 0,
    }
}

/// Whether the newest session ended by both stops.
pub(crate) fn is_stopped(line: &LineLook) -> bool
    ensures { result ≡ is_stopped line.now.end }
{
    matches!(line.end, Some(SessionEnd::Closed))
}
