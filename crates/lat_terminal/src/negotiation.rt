//! What one side says of an option.

ghost use Rattle.std.specs.Prelude.{◌≡◌};
ghost use Rattle.lat_terminal.specs.Negotiations.{code_of, negotiation_bytes};

/// "Interpret as command": the byte that begins a command of telnet.
pub(crate) const IAC: u8 = 255;

/// What is said of an option.
#[derive(Clone, Copy, PartialEq, Eq)]
pub enum Verb {
    /// The speaker will use it.
    Will,
    /// The speaker won't use it.
    Wont,
    /// The hearer is asked to use it.
    Do,
    /// The hearer is asked not to use it.
    Dont,
}

/// A request of either side, or the answer to one: `docs/PROTOCOL.md`, "Telnet".
#[derive(Clone, Copy, PartialEq, Eq)]
pub struct Negotiation {
    /// What is said.
    pub verb: Verb,
    /// The option of which it is said, by its number.
    pub option: u8,
}

impl Verb {
    /// The byte that stands for it.
    fn code(self) -> u8
        ensures { result ≡ code_of self }
    {
        match self {
            Verb::Will => 251,
            Verb::Wont => 252,
            Verb::Do => 253,
            Verb::Dont => 254,
        }
    }
}

impl Negotiation {
    /// The three bytes that say it. They are sent as they are, and not doubled.
    pub fn bytes(self) -> [u8; 3]
        ensures { result ≡ negotiation_bytes self }
    {
        [IAC, self.verb.code(), self.option]
    }
}
