//! What the program ends with.

/// What the program ends with.
#[derive(Clone, Copy, PartialEq, Eq)]
pub enum Status {
    /// The command was done.
    Done,
    /// The command was refused.
    Refused,
    /// The words are wrong.
    Words,
    /// Nobody listens.
    Nobody,
    /// The answer broke off, or can't be written.
    Broken,
    /// No memory was found.
    Memory,
}

impl Status {
    /// Its number.
    pub fn number(self) -> u8 {
        match self {
            Status::Done => 0,
            Status::Refused => 1,
            Status::Words => 2,
            Status::Nobody => 4,
            Status::Broken => 5,
            Status::Memory => 9,
        }
    }
}
