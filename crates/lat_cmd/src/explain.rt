//! What is told on standard error beside an answer.

ghost use Rattle.std.specs.Prelude.{◌≡◌, ◌≤◌, ◌++◌, ℕ, List, IfOk, length, map, string_bytes};
ghost use Rattle.lat_pcap.specs.Held.{contents_of};
ghost use Rattle.lat_cmd.specs.Befores.{shown, before_told};
ghost use Rattle.lat_cmd.specs.Explanations.{
  lines_before,
  wrong_explained,
  form_explained,
  events_of,
  explained,
  no_memory,
  end_told,
  Tells,
  TellsEnd,
};
ghost use Rattle.lat_explain.specs.RefusedExplained.{bytes_explained, refused_explained};
ghost use Rattle.lat_explain.specs.WordsExplained.{words_explained};

use crate::before::{Before, before_onto};
use crate::command::Command;
use lat_base::Memory;
use lat_explain::{
    Input, file_explained, line_explained, number_told, refused_explained, words_explained,
};
use lat_outside::{Sink, write_all};
use std::alloc::Global;

/// A schedule has so many events at most, and one that is drawn so many.
const EVENTS: u64 = 100_000;

const DRAWN: u64 = 2_000;

/// What is told where no memory is found.
const NO_MEMORY: &str = "lat: no memory was found\n";

// How many lines stand in front of the one that `line N form` names.
fn lines_before(input: &[u8], text: &str) -> usize
    ensures value { result ≡ lines_before input.now text.now }
    ensures most { result ≤ length input.now }
{
    let number = number_told(text.as_bytes()) as usize;
    number.saturating_sub(1).min(input.len())
}

fn wrong_explained(alloc: Global, input: &[u8]) -> Result<String, Memory>
    ensures { IfOk result (λ told.
        string_bytes told ≡ wrong_explained input.now (contents_of input.now).wrong) }
{
    match lat_pcap::read(alloc, input)?.wrong {
        Some(wrong) => Ok(file_explained(alloc, input, wrong)?),
        None => Ok(String::new(alloc)),
    }
}

// Why an input isn't of a command's form, for which this text was written.
fn form_explained(
    alloc: Global,
    command: Command,
    input: &[u8],
    text: &str,
) -> Result<String, Memory>
    ensures { IfOk result (λ told.
        string_bytes told ≡ form_explained command input.now text.now) }
{
    let before = lines_before(input, text);
    match command {
        Command::Pcap => wrong_explained(alloc, input),
        Command::Show => Ok(line_explained(alloc, Input::Payloads, before, input)?),
        Command::Choose => Ok(line_explained(alloc, Input::Choice, before, input)?),
        Command::Audit => Ok(line_explained(alloc, Input::Capture, before, input)?),
        Command::Replay
        | Command::Capture(_)
        | Command::Settle(_)
        | Command::Trace
        | Command::Draw
        | Command::Gen(_)
        | Command::Bench(_) => Ok(line_explained(alloc, Input::Schedule, before, input)?),
    }
}

// How many events a schedule has at most, of a command.
fn events_of(command: Command) -> u64
    ensures { result ≡ events_of command }
{
    match command {
        Command::Draw => DRAWN,
        _ => EVENTS,
    }
}

// Why an event is refused, and what was refused before.
fn stop_explained(
    alloc: Global,
    events: u64,
    text: &str,
    before: Option<Before>,
) -> Result<String, Memory>
    ensures { IfOk result (λ told.
        string_bytes told ≡ refused_explained events text.now ++ before_told (shown before)) }
{
    let mut told = refused_explained(alloc, events, text.as_bytes())?;
    before_onto(&mut told, before)?;
    Ok(told)
}

/// Why an answer has this status and this text, and what was refused before. Takes memory for the text.
pub(crate) fn explained(
    alloc: Global,
    command: Command,
    input: &[u8],
    status: u8,
    text: &str,
    before: Option<Before>,
) -> Result<String, Memory>
    ensures { IfOk result (λ told.
        string_bytes told ≡ explained command input.now status text.now (shown before)) }
{
    match status {
        0 => Ok(String::new(alloc)),
        2 => form_explained(alloc, command, input, text),
        3 => stop_explained(alloc, events_of(command), text, before),
        _ => Ok(refused_explained(alloc, events_of(command), text.as_bytes())?),
    }
}

/// Why an input is too long. Takes memory for the text.
#[tactic(auto, unfolding(lat_explain::specs::RefusedExplained::refused_explained))]
pub(crate) fn limit_explained(alloc: Global) -> Result<String, Memory>
    ensures { IfOk result (λ told.
        string_bytes told ≡ bytes_explained) }
{
    Ok(refused_explained(alloc, EVENTS, "limit bytes\n".as_bytes())?)
}

/// Why words are no command. Takes memory for the text.
pub(crate) fn words_told(alloc: Global, words: &[String]) -> Result<String, Memory>
    ensures { IfOk result (λ told.
        string_bytes told ≡ words_explained (map string_bytes words.now)) }
{
    Ok(words_explained(alloc, words)?)
}

// What is told of an end with this status.
fn end_told(status: u8, why: &str) -> &str
    ensures { result.now ≡ end_told status why.now }
{
    match status {
        0 => "",
        4 => "lat: standard input can't be read\n",
        5 => "lat: standard output can't be written\n",
        9 => NO_MEMORY,
        _ => why,
    }
}

/// Tells why a run ended with this status. Where the status is 0, nothing is written.
pub(crate) fn tell_end<E: Sink>(err: &mut E, status: u8, why: &str)
    ensures told { Tells (end_told status why.now)
        (E.written err.old) (E.written err.new) (E.faults err.old) (E.faults err.new) }
    ensures quiet { status ≡ 0 → err.new ≡ err.old }
    ensures later { E.faults err.old ≤ E.faults err.new }
{
    if status != 0 {
        let _ = write_all(err, end_told(status, why).as_bytes());
    }
}

/// Tells why, or that no memory was found for that.
pub(crate) fn tell_why<E: Sink>(err: &mut E, status: u8, why: &Result<String, Memory>)
    ensures told { (text : List ℕ) →
        IfOk why.now (λ told. string_bytes told ≡ text) →
        TellsEnd status text
        (E.written err.old) (E.written err.new) (E.faults err.old) (E.faults err.new) }
    ensures quiet { status ≡ 0 → err.new ≡ err.old }
    ensures later { E.faults err.old ≤ E.faults err.new }
{
    match why {
        Ok(why) => tell_end(err, status, why.as_str()),
        Err(_) => tell_end(err, status, NO_MEMORY),
    }
}
