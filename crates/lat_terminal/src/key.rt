//! What each byte that is typed into a line means.

ghost use Rattle.std.specs.Prelude.{◌≡◌};
ghost use Rattle.lat_terminal.specs.Keys.{key_of};

/// What a byte that is typed means: `docs/PROTOCOL.md`, "Typed lines".
#[derive(Clone, Copy)]
pub enum Key {
    /// It belongs to the line.
    Text,
    /// Backspace or delete: the last byte of the line goes.
    Erase,
    /// Control-U: all of the line goes.
    Kill,
    /// Control-R: the line is shown again.
    Reprint,
    /// A carriage return: the line ends.
    Return,
    /// A line feed: the line ends, unless it has ended at the carriage return before.
    Feed,
    /// A NUL, which counts for nothing.
    Null,
    /// Another control byte: it counts for nothing and rings the bell.
    Control,
}

impl Key {
    /// What this byte means.
    pub(crate) fn of(byte: u8) -> Key
        ensures { result ≡ key_of byte }
    {
        match byte {
            0 => Key::Null,
            8 | 127 => Key::Erase,
            10 => Key::Feed,
            13 => Key::Return,
            18 => Key::Reprint,
            21 => Key::Kill,
            _ => if byte < 32 { Key::Control } else { Key::Text },
        }
    }
}
