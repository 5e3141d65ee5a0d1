//! Why words are no command.

ghost use Rattle.std.specs.Prelude.{◌≡◌, ◌∷◌, ◌++◌, OnOk, IfOk, map, string_bytes};
ghost use Rattle.lat_explain.specs.WordsExplained.{
  first_of,
  commands,
  word_found,
  wants,
  wants_command,
  number_explained,
  behind_first,
  words_explained,
};
ghost use Rattle.lat_explain.specs.Wanted.{number_wanted};

use crate::found::quoted_onto;
use crate::wanted::number_onto;
use lat_text::number_within;
use std::alloc::{AllocError, Global};

/// What stands behind a first word.
#[derive(Clone, Copy)]
pub enum First {
    /// Nothing: it is a command alone.
    Plain,
    /// A number, so much at least and so much at most.
    Numbered(u64, u64),
    /// The word of a command, or nothing.
    Help,
    /// It begins no command.
    Other,
}

fn first_of(word: &str) -> First
    ensures { result ≡ first_of word.now }
{
    match word {
        "show"
        | "choose"
        | "replay"
        | "audit"
        | "pcap"
        | "trace"
        | "draw"
        | "--help"
        | "--version" => First::Plain,
        "help" => First::Help,
        "gen" | "bench" => First::Numbered(0, u64::MAX),
        "capture" => First::Numbered(1, 65_535),
        "settle" => First::Numbered(0, 100_000),
        _ => First::Other,
    }
}

// The first of these words, or that there is none.
fn word_found_onto(text: &mut String, words: &[String]) -> Result<(), AllocError>
    ensures { OnOk result (string_bytes text.new
        ≡ string_bytes text.old ++ word_found (map string_bytes words.now)) }
{
    match words {
        [] => text.push_str("no word"),
        [word, ..] => quoted_onto(text, word.as_bytes()),
    }
}

// Behind a command something else was expected.
#[tactic(auto, unfolding(crate::specs::WordsExplained::wants))]
fn wants(alloc: Global, word: &str, wanted: &str, found: &[String]) -> Result<String, AllocError>
    ensures { IfOk result (λ text.
        string_bytes text ≡ wants word.now wanted.now (map string_bytes found.now)) }
{
    let mut text = format!(in alloc; "lat: {word}: {wanted} expected, found ")?;
    word_found_onto(&mut text, found)?;
    text.push_str("\n")?;
    Ok(text)
}

#[tactic(auto, unfolding(crate::specs::WordsExplained::commands))]
fn commands() -> &'static str
    ensures { result.now ≡ commands }
{
    "audit, bench, capture, choose, draw, gen, help, pcap, replay, settle, show, trace, --help or --version"
}

// A command was expected.
#[tactic(auto, unfolding(crate::specs::WordsExplained::wants_command))]
fn wants_command(alloc: Global, found: &[String]) -> Result<String, AllocError>
    ensures { IfOk result (λ text.
        string_bytes text ≡ wants_command (map string_bytes found.now)) }
{
    let wanted = commands();
    let mut text = format!(in alloc; "lat: {wanted} expected, found ")?;
    word_found_onto(&mut text, found)?;
    text.push_str("\n")?;
    Ok(text)
}

// The number behind a command was expected.
fn wants_number(
    alloc: Global,
    word: &str,
    bounds: (u64, u64),
    found: &[String],
) -> Result<String, AllocError>
    ensures { IfOk result (λ text.
        string_bytes text ≡ wants word.now (number_wanted bounds) (map string_bytes found.now)) }
{
    let mut wanted = String::new(alloc);
    number_onto(&mut wanted, bounds)?;
    wants(alloc, word, &wanted, found)
}

// Behind a command with a number.
fn number_explained(
    alloc: Global,
    word: &str,
    least: u64,
    most: u64,
    words: &[String],
) -> Result<String, AllocError>
    ensures { IfOk result (λ text.
        string_bytes text ≡ number_explained word.now least most (map string_bytes words.now)) }
{
    match words {
        [] => wants_number(alloc, word, (least, most), words),
        [number, more @ ..] => {
            if number_within(least, most, number.as_bytes()).is_some() {
                wants(alloc, word, "no further word", more)
            } else {
                wants_number(alloc, word, (least, most), words)
            }
        }
    }
}

fn behind_first(
    alloc: Global,
    word: &str,
    first: First,
    words: &[String],
    all: &[String],
) -> Result<String, AllocError>
    requires { map string_bytes all.now ≡ word.now ∷ map string_bytes words.now }
    ensures { IfOk result (λ text.
        string_bytes text ≡ behind_first word.now first (map string_bytes words.now)) }
{
    match first {
        First::Plain => wants(alloc, word, "no further word", words),
        First::Numbered(least, most) => number_explained(alloc, word, least, most, words),
        First::Help => wants(alloc, word, "a command", words),
        First::Other => wants_command(alloc, all),
    }
}

/// Why words, behind the program's name, are no command: what was expected, and the first word that is another. Takes memory for
/// the text.
#[tactic(auto, unfolding(crate::specs::WordsExplained::words_explained))]
pub fn words_explained(alloc: Global, words: &[String]) -> Result<String, AllocError>
    ensures { IfOk result (λ text.
        string_bytes text ≡ words_explained (map string_bytes words.now)) }
{
    match words {
        [] => wants_command(alloc, words),
        [word, more @ ..] => {
            let word = word.as_str();
            behind_first(alloc, word, first_of(word), more, words)
        }
    }
}
