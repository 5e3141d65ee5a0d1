//! What the mind of a line is shown: a switch's, and one that serves one caller.

ghost use Rattle.std.specs.Prelude.{◌≡◌};
ghost use Rattle.lat_mind.specs.Looks.{holds_on, is_answered, is_free, shows_live, was_closed};
ghost use Rattle.lat_turns.specs.Kept.{is_over, kept_at, kept_look, line_as, lived, look_as, stay_after, stay_look};

use lat_base::{LineLook, SessionEnd, SessionState};
use lat_mind::{LineMind, Look, Phase};

/// How many sessions a line may have at a time for its one caller.
#[derive(Clone, Copy)]
pub enum Sessions {
    /// One.
    One,
    /// Several, between which the caller switches: the line shows the one that the caller is in. Its mind is shown the caller's
    /// first one in its stead, until all are over: so a switch hangs nobody up, and the end of the last session does.
    Several,
}

/// How long the worker of a line takes callers.
#[derive(Clone, Copy)]
pub enum Stay {
    /// As long as the daemon stays.
    Always,
    /// Until one caller was served.
    OneCaller,
    /// No longer.
    Over,
}

impl Stay {
    fn is_over(self) -> bool
        ensures { result ≡ is_over self }
    {
        matches!(self, Stay::Over)
    }

    /// Behind a hang-up of a caller who was served, or behind anything else.
    pub(crate) fn after(self, served: bool) -> Stay
        ensures { result ≡ stay_after self served }
    {
        match self {
            Stay::OneCaller if served => Stay::Over,
            _ => self,
        }
    }

    /// The look of a worker that takes no caller any more is that at a daemon which is ending.
    pub(crate) fn shown(self, see: Look) -> Look
        ensures { result ≡ stay_look self see }
    {
        Look {
            stopping: see.stopping || self.is_over(),
            ..see
        }
    }
}

fn is_free(state: SessionState) -> bool
    ensures { result ≡ is_free state }
{
    matches!(state, SessionState::Free)
}

fn is_answered(state: SessionState) -> bool
    ensures { result ≡ is_answered state }
{
    matches!(
        state,
        SessionState::Live | SessionState::Closing | SessionState::Left
    )
}

fn was_closed(end: Option<SessionEnd>) -> bool
    ensures { result ≡ was_closed end }
{
    matches!(end, Some(SessionEnd::Closed))
}

// Whether the shown session needs its worker still.
fn holds_on(line: LineLook) -> bool
    ensures { result ≡ holds_on line }
{
    match line.state {
        SessionState::Free => false,
        SessionState::Calling | SessionState::Asked | SessionState::Live => true,
        SessionState::Closing | SessionState::Left => line.waiting > 0,
    }
}

// Whether it shows that the session of this number was live.
fn shows_live(line: LineLook, session: u64) -> bool
    ensures { result ≡ shows_live line session }
{
    line.newest == session && (is_answered(line.state) || was_closed(line.end))
}

// The number of the caller's session, where it isn't the one that was shut.
fn kept_at(shut: u64, phase: Phase) -> Option<u64>
    ensures { result ≡ kept_at shut phase }
{
    match phase {
        Phase::Joined(guest) => {
            if shut == guest.session {
                None
            } else {
                Some(guest.session)
            }
        }
        _ => None,
    }
}

// A line that shows another session for the one of this number.
fn line_as(line: LineLook, session: u64) -> LineLook
    ensures { result ≡ line_as line session }
{
    if holds_on(line) {
        return LineLook {
            newest: session,
            ..line
        };
    }
    LineLook {
        newest: session,
        state: SessionState::Live,
        waiting: 0,
        room: 0,
        end: line.end,
    }
}

// The session of this number, where there is one, is shown as long as the line isn't free.
fn look_as(see: Look, session: Option<u64>) -> Look
    ensures { result ≡ look_as see session }
{
    match session {
        Some(session) => {
            if is_free(see.line.state) {
                see
            } else {
                Look {
                    line: line_as(see.line, session),
                    ..see
                }
            }
        }
        None => see,
    }
}

/// What this mind is shown and told of a line with such sessions.
pub(crate) fn kept_look(sessions: Sessions, mind: LineMind, see: Look) -> Look
    ensures { result ≡ kept_look sessions mind see }
{
    match sessions {
        Sessions::One => see,
        Sessions::Several => look_as(see, kept_at(mind.shut(), mind.phase())),
    }
}

/// Whether the caller's session is or was live, by the looks so far and this one.
pub(crate) fn lived(phase: Phase, line: LineLook) -> bool
    ensures { result ≡ lived phase line }
{
    match phase {
        Phase::Joined(guest) => guest.live || shows_live(line, guest.session),
        _ => false,
    }
}
