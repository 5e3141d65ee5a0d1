//! Whether a line that is typed has ended.

ghost use Rattle.std.specs.Prelude.{◌≡◌};
ghost use Rattle.lat_terminal.specs.LineStates.{is_open, joins, state_behind};

use crate::key::Key;

/// Whether a line that is typed has ended. One that has ended stands until the next key.
#[derive(Clone, Copy)]
pub enum LineState {
    /// It is being typed.
    Open,
    /// It has ended at a carriage return, to which a line feed may still belong.
    Returned,
    /// It has ended.
    Ended,
}

impl LineState {
    /// Whether this key is the second half of CR LF, and so ends no line.
    pub(crate) fn joins(self, key: Key) -> bool
        ensures { result ≡ joins self key }
    {
        match self {
            LineState::Returned => matches!(key, Key::Feed),
            LineState::Open | LineState::Ended => false,
        }
    }

    /// Whether the next key belongs to the line as it stands.
    pub(crate) fn is_open(self) -> bool
        ensures { result ≡ is_open self }
    {
        matches!(self, LineState::Open)
    }

    /// Behind this key.
    pub(crate) fn behind(key: Key) -> LineState
        ensures { result ≡ state_behind key }
    {
        match key {
            Key::Return => LineState::Returned,
            Key::Feed => LineState::Ended,
            Key::Text | Key::Erase | Key::Kill | Key::Reprint | Key::Null | Key::Control =>
                LineState::Open,
        }
    }
}
