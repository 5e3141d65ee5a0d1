//! The words of a command.

ghost use Rattle.std.specs.Prelude.{◌≡◌, map, string_bytes};
ghost use Rattle.lat_text.specs.Numbers.{number_within};
ghost use Rattle.lat_cmd.specs.Commands.{command_of, plain_of, numbered_of, reads};

use lat_text::number_within;

/// A command of the program.
#[derive(Clone, Copy)]
pub enum Command {
    /// `show`: prints the payloads that the input's lines spell.
    Show,
    /// `choose`: names the best nodes that the input's lines ask for.
    Choose,
    /// `replay`: plays the schedule that the input is, and prints its report.
    Replay,
    /// `capture P`: plays the schedule, and prints what is captured of circuit P of the server.
    Capture(u16),
    /// `settle K`: plays the schedule, runs so many rounds behind it, and prints the report.
    Settle(u32),
    /// `audit`: audits the capture that the input is.
    Audit,
    /// `pcap`: prints the frames that the input, a pcap file, holds.
    Pcap,
    /// `trace`: plays the schedule, and prints all that happened, in order.
    Trace,
    /// `draw`: plays the schedule, and prints a picture of all that happened.
    Draw,
    /// `gen N`: prints the schedule that is generated from this number.
    Gen(u64),
    /// `bench N`: plays that schedule, and prints what it came to in one line.
    Bench(u64),
}

impl Command {
    /// Whether it reads the input.
    pub fn reads(self) -> bool
        ensures { result ≡ reads self }
    {
        !matches!(self, Command::Gen(_) | Command::Bench(_))
    }
}

// The command that is this word alone.
fn plain_of(word: &str) -> Option<Command>
    ensures { result ≡ plain_of word.now }
{
    match word {
        "show" => Some(Command::Show),
        "choose" => Some(Command::Choose),
        "replay" => Some(Command::Replay),
        "audit" => Some(Command::Audit),
        "pcap" => Some(Command::Pcap),
        "trace" => Some(Command::Trace),
        "draw" => Some(Command::Draw),
        _ => None,
    }
}

// The id of a circuit.
fn circuit_of(number: &[u8]) -> Option<u16>
    ensures { result ≡ number_within 1 65535 number.now }
{
    let id = number_within(1, 65_535, number)?;
    Some(id as u16)
}

// A number of rounds.
fn rounds_of(number: &[u8]) -> Option<u32>
    ensures { result ≡ number_within 0 100000 number.now }
{
    let rounds = number_within(0, 100_000, number)?;
    Some(rounds as u32)
}

// The command that is this word with a number behind it.
fn numbered_of(word: &str, number: &str) -> Option<Command>
    ensures { result ≡ numbered_of word.now number.now }
{
    match word {
        "gen" => number_within(0, u64::MAX, number.as_bytes()).map(Command::Gen),
        "bench" => number_within(0, u64::MAX, number.as_bytes()).map(Command::Bench),
        "capture" => circuit_of(number.as_bytes()).map(Command::Capture),
        "settle" => rounds_of(number.as_bytes()).map(Command::Settle),
        _ => None,
    }
}

/// The command that the words are, behind the program's name.
pub fn command_of(words: &[String]) -> Option<Command>
    ensures { result ≡ command_of (map string_bytes words.now) }
{
    match words {
        [word] => plain_of(word.as_str()),
        [word, number] => numbered_of(word.as_str(), number.as_str()),
        _ => None,
    }
}
