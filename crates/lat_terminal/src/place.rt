//! Where the filter stands in what a client sends, and what each byte means there.

ghost use Rattle.std.specs.Prelude.{◌≡◌};
ghost use Rattle.lat_terminal.specs.Places.{command_of, place_after, place_behind, token_at, token_behind};

use crate::negotiation::{IAC, Negotiation, Verb};

/// Behind IAC: the end of a subnegotiation.
const SE: u8 = 240;

/// What a byte behind IAC means.
#[derive(Clone, Copy)]
pub enum Command {
    /// The byte 255 itself.
    Data,
    /// BREAK, or INTERRUPT PROCESS.
    Attention,
    /// A subnegotiation begins.
    Subnegotiation,
    /// An option follows, of which this is said.
    Verb(Verb),
    /// Any other command, which is dropped.
    Other,
}

/// Where the filter stands.
#[derive(Clone, Copy)]
pub enum Place {
    /// In text.
    Text,
    /// Behind IAC.
    Command,
    /// Before the option of which this is said.
    Verb(Verb),
    /// In a subnegotiation, which is skipped.
    Subnegotiation,
    /// In a subnegotiation, behind IAC.
    SubnegotiationCommand,
}

/// What a byte brings.
#[derive(Clone, Copy)]
pub enum Token {
    /// Nothing: its rest is to come, or it is skipped.
    Part,
    /// A byte of text.
    Text(u8),
    /// An attention.
    Attention,
    /// A whole request.
    Request(Negotiation),
}

impl Command {
    // The command of this byte.
    fn of(byte: u8) -> Command
        ensures { result ≡ command_of byte }
    {
        match byte {
            243 | 244 => Command::Attention,
            250 => Command::Subnegotiation,
            251 => Command::Verb(Verb::Will),
            252 => Command::Verb(Verb::Wont),
            253 => Command::Verb(Verb::Do),
            254 => Command::Verb(Verb::Dont),
            255 => Command::Data,
            _ => Command::Other,
        }
    }

    fn place(self) -> Place
        ensures { result ≡ place_behind self }
    {
        match self {
            Command::Subnegotiation => Place::Subnegotiation,
            Command::Verb(verb) => Place::Verb(verb),
            Command::Data | Command::Attention | Command::Other => Place::Text,
        }
    }

    fn token(self) -> Token
        ensures { result ≡ token_behind self }
    {
        match self {
            Command::Data => Token::Text(IAC),
            Command::Attention => Token::Attention,
            Command::Subnegotiation | Command::Verb(_) | Command::Other => Token::Part,
        }
    }
}

impl Place {
    /// Where the filter stands behind this byte.
    pub(crate) fn after(self, byte: u8) -> Place
        ensures { result ≡ place_after self byte }
    {
        match self {
            Place::Text => if byte == IAC {
                Place::Command
            } else {
                Place::Text
            },
            Place::Command => Command::of(byte).place(),
            Place::Verb(_) => Place::Text,
            Place::Subnegotiation => if byte == IAC {
                Place::SubnegotiationCommand
            } else {
                Place::Subnegotiation
            },
            Place::SubnegotiationCommand => if byte == SE {
                Place::Text
            } else {
                Place::Subnegotiation
            },
        }
    }

    /// What this byte brings here.
    pub(crate) fn token(self, byte: u8) -> Token
        ensures { result ≡ token_at self byte }
    {
        match self {
            Place::Text => if byte == IAC {
                Token::Part
            } else {
                Token::Text(byte)
            },
            Place::Command => Command::of(byte).token(),
            Place::Verb(verb) => Token::Request(Negotiation { verb, option: byte }),
            Place::Subnegotiation | Place::SubnegotiationCommand => Token::Part,
        }
    }
}
