//! How far an option that the line offers has come.

ghost use Rattle.std.specs.Prelude.{◌≡◌};
ghost use Rattle.lat_terminal.specs.Options.{is_on, option_after};

use crate::negotiation::Verb;
use crate::place::Token;

/// How far an option that the line offers has come: `docs/PROTOCOL.md`, "Telnet".
#[derive(Clone, Copy)]
pub enum OptionState {
    /// It was offered, and the client hasn't answered.
    Offered,
    /// The client has agreed.
    On,
    /// The client has refused.
    Off,
}

impl OptionState {
    /// How far it is behind what a byte brought; it is the option of this number.
    pub(crate) fn after(self, option: u8, token: Token) -> OptionState
        ensures { result ≡ option_after self option token }
    {
        match token {
            Token::Request(said) if said.option == option => match said.verb {
                Verb::Do => OptionState::On,
                Verb::Dont => OptionState::Off,
                Verb::Will | Verb::Wont => self,
            },
            _ => self,
        }
    }

    /// Whether it is in use, or offered.
    pub(crate) fn is_on(self) -> bool
        ensures { result ≡ is_on self }
    {
        !matches!(self, OptionState::Off)
    }
}
