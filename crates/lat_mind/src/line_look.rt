//! What a mind reads in the look of a line.

ghost use Rattle.std.specs.Prelude.{◌≡◌};
ghost use Rattle.lat_mind.specs.Looks.{avoidable, holds_on, is_answered, is_free, is_live, is_shunned, is_unanswered, shows_live, was_closed};

use lat_base::{LineLook, SessionEnd, SessionState};

/// A reject with this reason says that the service isn't offered any more.
const NOT_OFFERED: u8 = 4;

/// A reject with this reason says that there is no room.
const NO_ROOM: u8 = 7;

/// A circuit that ends with this reason heard nothing any more.
const SILENCE: u8 = 6;

/// A circuit that ends with this reason isn't known to its peer, which has been started again.
const NO_CIRCUIT: u8 = 5;

fn was_closed(end: Option<SessionEnd>) -> bool
    ensures { result ≡ was_closed end }
{
    matches!(end, Some(SessionEnd::Closed))
}

/// Whether the node of a session that ended so, and was live or never was, is to be avoided.
pub(crate) fn avoidable(end: Option<SessionEnd>, live: bool) -> bool
    ensures { result ≡ avoidable end live }
{
    match end {
        Some(SessionEnd::Rejected(reason)) => reason == NO_ROOM || reason == NOT_OFFERED,
        Some(SessionEnd::Circuit(reason)) => reason != NO_CIRCUIT && (!live || reason == SILENCE),
        _ => false,
    }
}

pub(crate) fn is_free(line: &LineLook) -> bool
    ensures { result ≡ is_free line.now.state }
{
    matches!(line.state, SessionState::Free)
}

pub(crate) fn is_live(line: &LineLook) -> bool
    ensures { result ≡ is_live line.now.state }
{
    matches!(line.state, SessionState::Live)
}

/// Whether the newest session is or was live, and isn't free.
pub(crate) fn is_answered(line: &LineLook) -> bool
    ensures { result ≡ is_answered line.now.state }
{
    matches!(
        line.state,
        SessionState::Live | SessionState::Closing | SessionState::Left
    )
}

/// Whether the newest session was asked for, and neither answered nor ended.
fn is_unanswered(line: &LineLook) -> bool
    ensures { result ≡ is_unanswered line.now.state }
{
    matches!(line.state, SessionState::Calling | SessionState::Asked)
}

/// Whether the node of the newest session, which the mind closed before it was live, is to be avoided.
pub(crate) fn is_shunned(line: &LineLook) -> bool
    ensures { result ≡ is_shunned line.now }
{
    is_unanswered(line) || avoidable(line.end, false)
}

/// Whether the newest session needs its worker still: it isn't over at this end, or items of it wait.
pub(crate) fn holds_on(line: &LineLook) -> bool
    ensures { result ≡ holds_on line.now }
{
    match line.state {
        SessionState::Free => false,
        SessionState::Calling | SessionState::Asked | SessionState::Live => true,
        SessionState::Closing | SessionState::Left => line.waiting > 0,
    }
}

/// Whether it shows that the session of this number was live.
pub(crate) fn shows_live(line: &LineLook, session: u64) -> bool
    ensures { result ≡ shows_live line.now session }
{
    line.newest == session && (is_answered(line) || was_closed(line.end))
}
