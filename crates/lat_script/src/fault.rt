//! Why a line of a script is refused.

ghost use Rattle.std.specs.Prelude.{◌≡◌, ◌++◌, OnOk, string_bytes};
ghost use Rattle.lat_script.specs.Refusal.{no_choice, no_number, no_word, one_of, other_of, refusal_text, wanted_text};

use lat_base::Memory;
use std::alloc::{AllocError, AllocFailed};

/// What a word has to be that is no number and no choice.
#[derive(Clone, Copy)]
pub enum Wanted {
    /// A command of the program, or what a command is told to do.
    Command,
    /// An even number of hex digits.
    Digits,
    /// The ten hex digits of a setting.
    Setting,
    /// The twelve hex digits of an address.
    Address,
    /// A name.
    Name,
}

/// Two words of which one has to stand at a place.
#[derive(Clone, Copy)]
pub enum Pair {
    /// `m`, the master, and `s`, the slave.
    Ends,
    /// `s`, the server, and `n`, the node.
    Cores,
    /// `word` and `byte`: how many bytes a message number has.
    Spans,
}

/// Why a line of a script isn't done. Words are counted from 0.
#[derive(Clone, Copy)]
pub enum ScriptFault {
    /// The word at this place isn't a number, or is one below `least` or above `most`.
    Number { place: u8, least: u64, most: u64 },
    /// The word at this place isn't what is wanted there.
    Word { place: u8, wanted: Wanted },
    /// The word at this place is neither of these two.
    Choice { place: u8, pair: Pair },
    /// No memory was found.
    Memory,
}

impl From<Memory> for ScriptFault {
    ghost use Rattle.std.specs.Prelude.{◌≡◌};
    ghost use Rattle.lat_script.specs.declared.fault.ScriptFault.TheVariants as faults;

    ghost from_gives = { λ _ fault. fault ≡ faults.Memory };

    fn from(_e: Memory) -> ScriptFault {
        ScriptFault::Memory
    }
}

impl From<AllocError> for ScriptFault {
    ghost use Rattle.std.specs.Prelude.{◌≡◌};
    ghost use Rattle.lat_script.specs.declared.fault.ScriptFault.TheVariants as faults;

    ghost from_gives = { λ _ fault. fault ≡ faults.Memory };

    fn from(_e: AllocError) -> ScriptFault {
        ScriptFault::Memory
    }
}

impl<T: Drop> From<AllocFailed<T>> for ScriptFault {
    ghost use Rattle.std.specs.Prelude.{◌≡◌};
    ghost use Rattle.lat_script.specs.declared.fault.ScriptFault.TheVariants as faults;

    ghost from_gives = { λ _ fault. fault ≡ faults.Memory };

    fn from(_e: AllocFailed<T>) -> ScriptFault {
        ScriptFault::Memory
    }
}

// What a word isn't that isn't what is wanted.
fn wanted_text(wanted: Wanted) -> &'static str
    ensures { result.now ≡ wanted_text wanted }
{
    match wanted {
        Wanted::Command => "a command",
        Wanted::Digits => "hex digits",
        Wanted::Setting => "a setting",
        Wanted::Address => "an address",
        Wanted::Name => "a name",
    }
}

/// The one of two words.
pub fn one_of(pair: Pair) -> &'static str
    ensures { result.now ≡ one_of pair }
{
    match pair {
        Pair::Ends => "m",
        Pair::Cores => "s",
        Pair::Spans => "word",
    }
}

/// The other of two words.
pub fn other_of(pair: Pair) -> &'static str
    ensures { result.now ≡ other_of pair }
{
    match pair {
        Pair::Ends => "s",
        Pair::Cores => "n",
        Pair::Spans => "byte",
    }
}

// Adds that a word of a line, both counted from 1, isn't a number of so much at least and so much at most.
fn number_onto(
    text: &mut String,
    line: u64,
    word: u16,
    least: u64,
    most: u64,
) -> Result<(), AllocError>
    ensures { OnOk result (string_bytes text.new
        ≡ string_bytes text.old ++ no_number line word least most) }
{
    if least == 0 {
        write!(
            text,
            "line {line} word {word} isn't a number up to {most}\n"
        )
    } else {
        write!(
            text,
            "line {line} word {word} isn't a number from {least} to {most}\n"
        )
    }
}

// Adds that a word of a line, both counted from 1, isn't what is wanted.
fn word_onto(text: &mut String, line: u64, word: u16, wanted: Wanted) -> Result<(), AllocError>
    ensures { OnOk result (string_bytes text.new
        ≡ string_bytes text.old ++ no_word line word wanted) }
{
    let wanted = wanted_text(wanted);
    write!(text, "line {line} word {word} isn't {wanted}\n")
}

// Adds that a word of a line, both counted from 1, is neither of two.
fn choice_onto(text: &mut String, line: u64, word: u16, pair: Pair) -> Result<(), AllocError>
    ensures { OnOk result (string_bytes text.new
        ≡ string_bytes text.old ++ no_choice line word pair) }
{
    let (one, other) = (one_of(pair), other_of(pair));
    write!(text, "line {line} word {word} isn't {one} or {other}\n")
}

/// Adds why this line of a script, counted from 1, isn't done: nothing where it is. Want of memory goes on to the caller.
pub fn refused_onto(
    text: &mut String,
    line: u64,
    done: Result<(), ScriptFault>,
) -> Result<(), Memory>
    ensures { OnOk result (string_bytes text.new
        ≡ string_bytes text.old ++ refusal_text line done) }
{
    match done {
        Ok(()) => Ok(()),
        Err(ScriptFault::Number { place, least, most }) => {
            Ok(number_onto(text, line, u16::from(place) + 1, least, most)?)
        }
        Err(ScriptFault::Word { place, wanted }) => {
            Ok(word_onto(text, line, u16::from(place) + 1, wanted)?)
        }
        Err(ScriptFault::Choice { place, pair }) => {
            Ok(choice_onto(text, line, u16::from(place) + 1, pair)?)
        }
        Err(ScriptFault::Memory) => Err(Memory),
    }
}
