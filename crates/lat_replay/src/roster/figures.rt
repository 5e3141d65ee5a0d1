//! The figures of a session at one end.

ghost use Rattle.std.specs.Prelude.{◌≡◌, ℕ, Some, option_map};
ghost use Rattle.lat_machines.specs.cores.Books.{line_session};
ghost use Rattle.lat_machines.specs.cores.Cores.{Seat, Core};
ghost use Rattle.lat_lines.specs.Stands.{session_shown, session_info};
ghost use Rattle.lat_laws.specs.tales.Rows.{figures_of};
ghost use Rattle.lat_replay.specs.roster.Rows.{ShowsFigures};

use lat_base::{LineSession, SessionEnd};

/// What one end tells of a session: the credits that it has given and those that it has used, and how the session ended.
#[derive(Clone, Copy)]
pub struct Figures {
    pub given: u64,
    pub used: u64,
    /// `None` while the session isn't over.
    pub end: Option<SessionEnd>,
}

impl Figures {
    /// Those of a session of which nothing is told.
    pub const NONE: Figures = Figures {
        given: 0,
        used: 0,
        end: None,
    };
}

/// The figures of a session that a line tells of; `Figures::NONE` where it tells of none.
pub fn figures_of(session: Option<LineSession>) -> Figures
    ensures { (c : Core) (number : ℕ) (s : Seat) →
        option_map session_shown session ≡ Some (session_info (line_session c number s)) →
        ShowsFigures result (figures_of c s) }
{
    match session {
        Some(session) => Figures {
            given: session.given,
            used: session.used,
            end: session.end,
        },
        None => Figures::NONE,
    }
}
