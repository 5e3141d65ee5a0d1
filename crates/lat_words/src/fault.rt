//! What is wrong with the words.

ghost use Rattle.std.specs.Prelude.{◌≡◌};
ghost use Rattle.lat_words.specs.Options.{is_flag, option_text};

use lat_base::{Bytes, Memory};

/// An option, or the words beside all options.
#[derive(Clone, Copy, Debug, PartialEq, Eq)]
pub enum OptionName {
    Role,
    Name,
    Address,
    Port,
    Lines,
    LinePort,
    Service,
    Rate,
    Offer,
    Groups,
    Timer,
    KeepAlive,
    Credits,
    Announce,
    Sessions,
    Once,
    Linger,
    Log,
    History,
    Help,
    Version,
    /// The words beside all options: the ports of the peers.
    Peer,
}

impl OptionName {
    /// Its text, without the hyphens in front.
    pub fn text(self) -> &'static str
        ensures { result.now ≡ option_text self }
    {
        match self {
            OptionName::Role => "role",
            OptionName::Name => "name",
            OptionName::Address => "address",
            OptionName::Port => "port",
            OptionName::Lines => "lines",
            OptionName::LinePort => "line-port",
            OptionName::Service => "service",
            OptionName::Rate => "rate",
            OptionName::Offer => "offer",
            OptionName::Groups => "groups",
            OptionName::Timer => "timer",
            OptionName::KeepAlive => "keep-alive",
            OptionName::Credits => "credits",
            OptionName::Announce => "announce",
            OptionName::Sessions => "sessions",
            OptionName::Once => "once",
            OptionName::Linger => "linger",
            OptionName::Log => "log",
            OptionName::History => "history",
            OptionName::Help => "help",
            OptionName::Version => "version",
            OptionName::Peer => "peer",
        }
    }
}

/// What was expected in place of a value.
#[derive(Clone, Copy, Debug, PartialEq, Eq)]
pub enum Expected {
    /// A value: the option is needed, and isn't there.
    Needed,
    /// One value alone: this is the second.
    One,
    /// `server`, `switch`, `node` or `tariff`.
    Role,
    /// The text of a name.
    Name,
    /// 12 hex digits.
    Address,
    /// A number in decimal, so much at least and so much at most.
    Number { least: u64, most: u64 },
    /// NAME, or NAME=PORT.
    Service,
    /// No more than so many.
    Most(u8),
    /// A service that no value before it offers.
    OtherService,
    /// NAME=free, NAME=each:N or NAME=while-free:N, with N from 1 to 255.
    Rate,
    /// A service that is offered.
    Offered,
    /// LINE=NAME=PORT, with a line of 1 to so many.
    Offer(u8),
    /// A line that no value before it names.
    OtherLine,
    /// Groups of 0 to 255, as `0,3,7-9`.
    Groups,
    /// `off`, `error`, `info` or `debug`.
    Level,
    /// Another role.
    OtherRole,
}

/// A value that is wrong, or an option that isn't there.
#[derive(Clone, Copy, PartialEq, Eq)]
pub struct Wrong {
    pub option: OptionName,
    /// Which of the option's values, counted from 0.
    pub place: usize,
    pub expected: Expected,
}

/// Why the words aren't right.
#[derive(Drop)]
pub enum WordsFault {
    /// No memory was found.
    Memory,
    /// `clap` doesn't take this word: it is no option, or an option that takes no value has one.
    Word(Bytes),
    /// This option has this value in place of what was expected. There is none where it was needed and isn't there.
    Option {
        option: OptionName,
        value: Option<Bytes>,
        expected: Expected,
    },
}

impl From<Memory> for WordsFault {
    ghost use Rattle.std.specs.Prelude.{◌≡◌};
    ghost use Rattle.lat_words.specs.declared.fault.WordsFault.TheVariants as faults;

    ghost from_gives = { λ _ fault. fault ≡ faults.Memory };

    fn from(_e: Memory) -> WordsFault {
        WordsFault::Memory
    }
}

impl OptionName {
    // Whether it has no value.
    pub(crate) fn is_flag(self) -> bool
        ensures { result ≡ is_flag self }
    {
        matches!(
            self,
            OptionName::Once | OptionName::Help | OptionName::Version
        )
    }
}

// What was expected at this value of the option.
pub(crate) fn wrong_at(option: OptionName, place: usize, expected: Expected) -> Wrong
    ensures { result ≡ record { option = option; place = place; expected = expected } }
{
    Wrong {
        option,
        place,
        expected,
    }
}
