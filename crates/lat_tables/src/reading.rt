//! How the lines of the control socket are read.

ghost use Rattle.std.specs.Prelude.{◌≡◌};
ghost use Rattle.lat_tables.specs.Commands.{alone, by_verb, command_of, hang_up_of, history_of, shown_by, verb_of};

use crate::command::{Command, Listing};
use crate::fault::CommandFault;
use crate::word::{is_blank, next_word};
use lat_text::number_within;

/// How many entries are asked for at most.
const MOST_ENTRIES: u64 = 1_000_000;

/// The greatest number of a line.
const LAST_LINE: u64 = 255;

/// The word that a command begins with.
#[derive(Clone, Copy)]
pub enum Verb {
    Show,
    HangUp,
    Stop,
    Help,
}

impl Verb {
    // The verb that a word is.
    fn of(word: &[u8]) -> Option<Verb>
        ensures { result ≡ verb_of word.now }
    {
        if word == "show".as_bytes() {
            Some(Verb::Show)
        } else if word == "hang-up".as_bytes() {
            Some(Verb::HangUp)
        } else if word == "stop".as_bytes() {
            Some(Verb::Stop)
        } else if word == "help".as_bytes() {
            Some(Verb::Help)
        } else {
            None
        }
    }
}

// A command behind which no word may stand.
fn alone(command: Command, behind: &[u8]) -> Result<Command, CommandFault>
    ensures { result ≡ alone command behind.now }
{
    if is_blank(behind) {
        Ok(command)
    } else {
        Err(CommandFault::Further)
    }
}

fn history_of(text: &[u8]) -> Result<Command, CommandFault>
    ensures { result ≡ history_of text.now }
{
    let (word, behind) = next_word(text);
    match number_within(1, MOST_ENTRIES, word) {
        Some(count) => alone(Command::ShowHistory(count as u32), behind),
        None => Err(CommandFault::Count),
    }
}

fn hang_up_of(text: &[u8]) -> Result<Command, CommandFault>
    ensures { result ≡ hang_up_of text.now }
{
    let (word, behind) = next_word(text);
    match number_within(1, LAST_LINE, word) {
        Some(line) => alone(Command::HangUp(line as u8), behind),
        None => Err(CommandFault::Line),
    }
}

// What is shown by this word, and what stands behind it.
fn shown_by(word: &[u8], behind: &[u8]) -> Result<Command, CommandFault>
    ensures { result ≡ shown_by word.now behind.now }
{
    if word == "lines".as_bytes() {
        alone(Command::Show(Listing::Lines), behind)
    } else if word == "services".as_bytes() {
        alone(Command::Show(Listing::Services), behind)
    } else if word == "circuits".as_bytes() {
        alone(Command::Show(Listing::Circuits), behind)
    } else if word == "requests".as_bytes() {
        alone(Command::Show(Listing::Requests), behind)
    } else if word == "counters".as_bytes() {
        alone(Command::ShowCounters, behind)
    } else if word == "history".as_bytes() {
        history_of(behind)
    } else {
        Err(CommandFault::Shown)
    }
}

// The command of this verb, by what stands behind that.
fn by_verb(verb: Verb, behind: &[u8]) -> Result<Command, CommandFault>
    ensures { result ≡ by_verb verb behind.now }
{
    match verb {
        Verb::Show => {
            let (word, rest) = next_word(behind);
            shown_by(word, rest)
        }
        Verb::HangUp => hang_up_of(behind),
        Verb::Stop => alone(Command::Stop, behind),
        Verb::Help => alone(Command::Help, behind),
    }
}

/// The command that a line is, without its line feed: words between which blanks stand, one at least; blanks may stand in front
/// and behind. Its fault is that of the first word that isn't as expected.
pub fn read_command(line: &[u8]) -> Result<Command, CommandFault>
    ensures { result ≡ command_of line.now }
{
    let (word, behind) = next_word(line);
    match Verb::of(word) {
        Some(verb) => by_verb(verb, behind),
        None => Err(CommandFault::Command),
    }
}
