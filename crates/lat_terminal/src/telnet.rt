//! The filter of a line whose clients speak telnet.

ghost use Rattle.std.specs.Prelude.{◌≡◌, ◌≤◌, ◌+◌, ◌++◌, length, vec_capacity, vec_len};
ghost use Rattle.std.specs.Option.{option_to_list};
ghost use Rattle.lat_terminal.specs.Options.{is_on};
ghost use Rattle.lat_terminal.specs.Telnets.{answer_to, behind_after, fresh_telnet, heard_all, heard_at, heard_of, heard_text, offers, option_at, telnet_after, telnet_next};

use crate::negotiation::{Negotiation, Verb};
use crate::option_state::OptionState;
use crate::place::{Place, Token};

/// The option by which the line echoes what is typed.
const ECHO: u8 = 1;

/// The option by which neither side waits for the other's leave to go ahead.
const SUPPRESS_GO_AHEAD: u8 = 3;

const RETURN: u8 = 13;

/// What comes of a byte.
#[derive(Clone, Copy, PartialEq, Eq)]
pub enum Heard {
    /// A byte that was typed.
    Byte(u8),
    /// An attention: the client sent BREAK or INTERRUPT PROCESS.
    Attention,
    /// What is to be answered to the client.
    Answer(Negotiation),
}

/// The filter of one client: what it knows of what the client has sent. `docs/PROTOCOL.md`, "Telnet", has its rules.
#[derive(Clone, Copy)]
pub struct Telnet {
    place: Place,
    /// Whether the last byte of text was a carriage return.
    behind_return: bool,
    echo: OptionState,
    suppress: OptionState,
}

fn behind_after(behind: bool, token: Token) -> bool
    ensures { result ≡ behind_after behind token }
{
    match token {
        Token::Text(byte) => byte == RETURN,
        _ => behind,
    }
}

fn heard_text(behind: bool, byte: u8) -> Option<Heard>
    ensures { result ≡ heard_text behind byte }
{
    if behind && byte == 0 {
        None
    } else {
        Some(Heard::Byte(byte))
    }
}

fn keep(heard: Option<Heard>, out: &mut Vec<Heard>)
    requires { vec_len out.now + 1 ≤ vec_capacity out.now }
    ensures heard { out.new.items ≡ out.old.items ++ option_to_list heard }
    ensures len { vec_len out.new ≤ vec_len out.old + 1 }
    ensures room { vec_capacity out.new ≡ vec_capacity out.old }
{
    if let Some(heard) = heard {
        out.push_reserved(heard);
    }
}

impl Telnet {
    /// The filter of a client that was sent `offers`, and has sent nothing.
    pub fn make() -> Telnet
        ensures { result ≡ fresh_telnet }
    {
        Telnet {
            place: Place::Text,
            behind_return: false,
            echo: OptionState::Offered,
            suppress: OptionState::Offered,
        }
    }

    /// What a client is told first: that the line will echo, and needs no leave to go ahead.
    pub fn offers() -> [Negotiation; 2]
        ensures { result ≡ offers }
    {
        [
            Negotiation {
                verb: Verb::Will,
                option: ECHO,
            },
            Negotiation {
                verb: Verb::Will,
                option: SUPPRESS_GO_AHEAD,
            },
        ]
    }

    /// Whether what is typed in local mode is to be echoed: unless the client has refused it.
    pub fn echoes(&self) -> bool
        ensures { result ≡ is_on self.now.echo }
    {
        self.echo.is_on()
    }

    // How far this option is, where it is one that the line offers.
    fn option(&self, option: u8) -> Option<OptionState>
        ensures { result ≡ option_at self.now option }
    {
        match option {
            ECHO => Some(self.echo),
            SUPPRESS_GO_AHEAD => Some(self.suppress),
            _ => None,
        }
    }

    // What is answered to this request.
    fn answer(&self, said: Negotiation) -> Option<Negotiation>
        ensures { result ≡ answer_to self.now said }
    {
        let option = said.option;
        match said.verb {
            Verb::Will => Some(Negotiation {
                verb: Verb::Dont,
                option,
            }),
            Verb::Wont => None,
            Verb::Do => match self.option(option) {
                None => Some(Negotiation {
                    verb: Verb::Wont,
                    option,
                }),
                Some(OptionState::Off) => Some(Negotiation {
                    verb: Verb::Will,
                    option,
                }),
                Some(_) => None,
            },
            Verb::Dont => match self.option(option) {
                Some(OptionState::On) => Some(Negotiation {
                    verb: Verb::Wont,
                    option,
                }),
                _ => None,
            },
        }
    }

    // What comes of what a byte brought.
    fn heard(&self, token: Token) -> Option<Heard>
        ensures { result ≡ heard_at self.now token }
    {
        match token {
            Token::Part => None,
            Token::Text(byte) => heard_text(self.behind_return, byte),
            Token::Attention => Some(Heard::Attention),
            Token::Request(said) => match self.answer(said) {
                Some(answer) => Some(Heard::Answer(answer)),
                None => None,
            },
        }
    }

    /// Takes in a byte, and says what comes of it.
    pub fn hear(&mut self, byte: u8) -> Option<Heard>
        ensures state { self.new ≡ telnet_next self.old byte }
        ensures heard { result ≡ heard_of self.old byte }
    {
        let token = self.place.token(byte);
        let heard = self.heard(token);
        self.place = self.place.after(byte);
        self.behind_return = behind_after(self.behind_return, token);
        self.echo = self.echo.after(ECHO, token);
        self.suppress = self.suppress.after(SUPPRESS_GO_AHEAD, token);
        heard
    }

    /// Takes in a piece of what the client sends, and puts what comes of it behind what `out` has, in order. `out` has room for
    /// as many things as there are bytes, so no memory is taken.
    pub fn feed(&mut self, bytes: &[u8], out: &mut Vec<Heard>)
        requires { vec_len out.now + length bytes.now ≤ vec_capacity out.now }
        ensures state { self.new ≡ telnet_after self.old bytes.now }
        ensures heard { out.new.items ≡ out.old.items ++ heard_all self.old bytes.now }
        ensures room { vec_capacity out.new ≡ vec_capacity out.old }
    {
        for byte in bytes {
            let heard = self.hear(*byte);
            keep(heard, out);
        }
    }
}
