//! Why an event of a schedule is refused, or a limit passed, by the line that says so.

ghost use Rattle.std.specs.Prelude.{◌≡◌, ◌==◌, ◌<◌, ◌++◌, [], OnOk, IfOk, IfSome, length, position, string_bytes};
ghost use Rattle.lat_text.specs.Lines.{lines_of};
ghost use Rattle.lat_explain.specs.Awaited.{behind_space};
ghost use Rattle.lat_explain.specs.Forms.{bound};
ghost use Rattle.lat_explain.specs.Walks.{front_word};
ghost use Rattle.lat_explain.specs.RefusedExplained.{
  said,
  too_far_explained,
  old_explained,
  beside,
  limit_explained,
  own_station,
  why_of,
  why_explained,
  parts_explained,
  words_explained,
  bytes_explained,
  final_line,
  front_at,
  behind_at,
  untagged,
  refused_explained,
};

use crate::awaited::behind_space;
use crate::form::bound;
use crate::found::shown_onto;
use crate::walk::front_word;
use lat_text::first_line;
use std::alloc::{AllocError, Global};

/// Why an event is refused, or which limit is passed.
#[derive(Clone, Copy)]
pub enum Why {
    /// Its moment is below one that was.
    Backward,
    /// No frame has this number.
    NoFrame,
    /// A number of the frame is too far behind.
    Old,
    /// It has more events or frames than it may have.
    Limit,
    /// A frame is injected from the address of an end.
    OwnStation,
}

fn why_of(word: &[u8]) -> Why
    ensures { result ≡ why_of word.now }
{
    if word == "backward".as_bytes() {
        Why::Backward
    } else if word == "noframe".as_bytes() {
        Why::NoFrame
    } else if word == "old".as_bytes() {
        Why::Old
    } else if word == "limit".as_bytes() {
        Why::Limit
    } else {
        Why::OwnStation
    }
}

// A word behind this text.
#[tactic(auto, unfolding(crate::specs::RefusedExplained::said))]
fn said_onto(told: &mut String, before: &str, word: &[u8]) -> Result<(), AllocError>
    ensures { OnOk result (string_bytes told.new ≡ string_bytes told.old ++ said before.now word.now) }
{
    told.push_str(before)?;
    shown_onto(told, word)
}

// A frame has a number that is too far behind the last.
fn too_far_onto(
    told: &mut String,
    which: &[u8],
    last: &[u8],
    number: &[u8],
) -> Result<(), AllocError>
    ensures { OnOk result (string_bytes told.new
        ≡ string_bytes told.old ++ too_far_explained which.now last.now number.now) }
{
    said_onto(told, "a frame whose ", which)?;
    said_onto(told, " isn't too far behind ", last)?;
    said_onto(told, " expected, found ", number)
}

// Behind `old`: which number, and the two.
fn old_onto(told: &mut String, text: &[u8]) -> Result<(), AllocError>
    ensures { OnOk result (string_bytes told.new ≡ string_bytes told.old ++ old_explained text.now) }
{
    let numbers = behind_space(text);
    too_far_onto(
        told,
        front_word(text),
        front_word(behind_space(numbers)),
        front_word(numbers),
    )
}

// Two numbers, the first too small or too great beside the second.
fn beside_onto(
    told: &mut String,
    before: &str,
    between: &str,
    text: &[u8],
) -> Result<(), AllocError>
    ensures { OnOk result (string_bytes told.new
        ≡ string_bytes told.old ++ beside before.now between.now text.now) }
{
    said_onto(told, before, front_word(behind_space(text)))?;
    said_onto(told, between, front_word(text))
}

// Behind `limit`, of so many events.
fn limit_onto(told: &mut String, events: u64, word: &[u8]) -> Result<(), AllocError>
    ensures { OnOk result (string_bytes told.new
        ≡ string_bytes told.old ++ limit_explained events word.now) }
{
    if word == "events".as_bytes() {
        write!(told, "at most {events} events expected, found more")
    } else {
        told.push_str("at most 199744 sent frames expected, found more")
    }
}

#[tactic(auto, unfolding(crate::specs::RefusedExplained::own_station))]
fn own_station() -> &'static str
    ensures { result.now ≡ own_station }
{
    "the address of another station expected, found that of an end"
}

fn why_onto(told: &mut String, events: u64, why: Why, rest: &[u8]) -> Result<(), AllocError>
    ensures { OnOk result (string_bytes told.new
        ≡ string_bytes told.old ++ why_explained events why rest.now) }
{
    match why {
        Why::Backward => beside_onto(told, "a moment from ", " on expected, found ", rest),
        Why::NoFrame => beside_onto(
            told,
            "the number of a frame below ",
            " expected, found ",
            rest,
        ),
        Why::Old => old_onto(told, rest),
        Why::Limit => limit_onto(told, events, front_word(rest)),
        Why::OwnStation => told.push_str(own_station()),
    }
}

// By the words of the line.
fn words_onto(told: &mut String, events: u64, text: &[u8]) -> Result<(), AllocError>
    ensures { OnOk result (string_bytes told.new
        ≡ string_bytes told.old ++ words_explained events text.now) }
{
    let number = behind_space(text);
    let why = behind_space(number);
    said_onto(told, "lat: ", front_word(text))?;
    said_onto(told, " ", front_word(number))?;
    told.push_str(": ")?;
    why_onto(told, events, why_of(front_word(why)), behind_space(why))?;
    told.push_str("\n")
}

// The last line of a text but that which ends a picture.
#[tactic(auto, unfolding(crate::specs::RefusedExplained::final_line))]
fn final_line(text: &[u8]) -> &[u8]
    ensures { result.now ≡ final_line (lines_of text.now) [] }
{
    let mut found: &[u8] = &[];
    let mut rest = text;
    while let Some((line, behind)) = first_line(rest) {
        if line != "</svg>".as_bytes() {
            found = line;
        }
        rest = behind;
    }
    found
}

fn tag_end(text: &[u8]) -> Option<usize>
    ensures { result ≡ position (λ b. b == 62) text.now }
{
    text.iter().position(|byte| *byte == b'>')
}

fn tag_begin(text: &[u8]) -> Option<usize>
    ensures { result ≡ position (λ b. b == 60) text.now }
{
    text.iter().position(|byte| *byte == b'<')
}

fn front_at(text: &[u8], end: Option<usize>) -> &[u8]
    requires { IfSome end (λ n. n < length text.now) }
    ensures { result.now ≡ front_at text.now end }
{
    match end {
        Some(end) => {
            let (front, _) = text.split_at(end);
            front
        }
        None => text,
    }
}

fn behind_at(text: &[u8], end: Option<usize>) -> &[u8]
    requires { IfSome end (λ n. n < length text.now) }
    ensures { result.now ≡ behind_at text.now end }
{
    match end {
        Some(end) => {
            let (_, behind) = text.split_at(end + 1);
            behind
        }
        None => text,
    }
}

// What stands within the tags of a line of a picture.
fn untagged(line: &[u8]) -> &[u8]
    ensures { result.now ≡ untagged line.now }
{
    match line {
        [b'<', ..] => {
            let rest = behind_at(line, tag_end(line));
            front_at(rest, tag_begin(rest))
        }
        _ => line,
    }
}

#[tactic(auto, unfolding(crate::specs::RefusedExplained::bytes_explained))]
fn bytes_explained() -> &'static str
    ensures { result.now ≡ bytes_explained }
{
    "lat: at most 16777216 bytes of input expected, found more\n"
}

#[tactic(auto, unfolding(crate::specs::RefusedExplained::refused_explained))]
fn refused_onto(told: &mut String, events: u64, text: &[u8]) -> Result<(), AllocError>
    ensures { OnOk result (string_bytes told.new
        ≡ string_bytes told.old ++ refused_explained events text.now) }
{
    if text == "limit bytes\n".as_bytes() {
        told.push_str(bytes_explained())
    } else {
        words_onto(told, events, untagged(final_line(text)))
    }
}

/// Why an event of a schedule or of a round is refused, or a limit passed, by the text that was written, whose last line says it,
/// of a command that plays so many events at most. Takes memory for the text.
pub fn refused_explained(alloc: Global, events: u64, text: &[u8]) -> Result<String, AllocError>
    ensures { IfOk result (λ told. string_bytes told ≡ refused_explained events text.now) }
{
    let mut told = String::new(alloc);
    refused_onto(&mut told, events, text)?;
    Ok(told)
}

/// The number of the line that the text `line N form` names; 0 where it names none.
pub fn number_told(text: &[u8]) -> u64
    ensures { result ≡ bound (front_word (behind_space text.now)) }
{
    bound(front_word(behind_space(text)))
}
