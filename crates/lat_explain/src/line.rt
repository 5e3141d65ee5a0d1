//! Why a line of an input is wrong.

ghost use Rattle.std.specs.Prelude.{◌≡◌, ◌==◌, ◌≤◌, ◌+◌, ◌^◌, ◌<◌, ◌++◌, OnOk, IfOk, length, position, string_bytes, nat_lt};
ghost use Rattle.lat_text.specs.Lines.{lines_of};
ghost use Rattle.lat_explain.specs.Awaited.{said_before, said_shown};
ghost use Rattle.lat_explain.specs.Columns.{TellsColumn};
ghost use Rattle.lat_explain.specs.LineExplained.{
  feed_in,
  text_behind,
  front_line,
  is_ended,
  begins_comment,
  before_line,
  taken_of,
  table_at,
  passed,
  may_comment,
  is_open_comment,
  comment_walk,
  walk_at,
  place_told,
  line_told,
  walk_explained,
  rest_explained,
  line_explained,
};
ghost use Rattle.lat_explain.specs.Walks.{shown};

use crate::awaited::{Input, Said, capture_forms, choice_forms, schedule_forms};
use crate::before::{last_behind, last_line, seconds, silent_lines};
use crate::form::Taken;
use crate::found::{found_onto, start_of};
use crate::walk::{Walk, Way, front_word, walked};
use crate::wanted::wanted_onto;
use std::alloc::{AllocError, Global};

fn feed_in(text: &[u8]) -> Option<usize>
    ensures { result ≡ feed_in text.now }
{
    text.iter().position(|byte| *byte == b'\n')
}

// The text behind its first line; all of it where no line feed ends that.
#[tactic(auto, unfolding(crate::specs::LineExplained::text_behind))]
fn past_line(text: &[u8]) -> &[u8]
    ensures value { result.now ≡ text_behind 1 text.now }
    ensures most { length result.now ≤ length text.now }
{
    match feed_in(text) {
        Some(end) => {
            let (_, behind) = text.split_at(end + 1);
            behind
        }
        None => text,
    }
}

// The text behind its first lines, so many.
#[tactic(auto, unfolding(crate::specs::LineExplained::text_behind))]
fn text_behind(count: usize, text: &[u8]) -> &[u8]
    ensures value { result.now ≡ text_behind count text.now }
    ensures most { length result.now ≤ length text.now }
{
    let mut rest = text;
    for _ in 0..count {
        rest = past_line(rest);
    }
    rest
}

pub(crate) fn front_line(text: &[u8]) -> &[u8]
    ensures value { result.now ≡ front_line text.now }
    ensures most { length result.now ≤ length text.now }
{
    match feed_in(text) {
        Some(end) => {
            let (line, _) = text.split_at(end);
            line
        }
        None => text,
    }
}

fn is_ended(text: &[u8]) -> bool
    ensures { result ≡ is_ended text.now }
{
    feed_in(text).is_some()
}

fn begins_comment(text: &[u8]) -> bool
    ensures { result ≡ begins_comment text.now }
{
    match text.first() {
        Some(byte) => *byte == b'#',
        None => false,
    }
}

// The lines that may stand behind the first ones, so many, and silent ones or not.
fn table_at(
    alloc: Global,
    input: Input,
    before: usize,
    silent: bool,
    text: &[u8],
    said: Said<'_>,
) -> Result<Vec<u8>, AllocError>
    requires { said_shown said ≡ said_before before (lines_of text.now) }
    ensures { IfOk result (λ table. table.items ≡ table_at input before silent text.now) }
{
    match input {
        Input::Payloads => Vec::from_slice(alloc, "H0-8192\n\n".as_bytes()),
        Input::Choice => choice_forms(alloc, before, last_line(before, text)),
        Input::Capture => Vec::from_slice(alloc, capture_forms(before).as_bytes()),
        Input::Schedule => {
            let table = schedule_forms(alloc, silent, last_line(before, text), said)?;
            Vec::from_slice(alloc, table.as_bytes())
        }
    }
}

fn passed(input: Input, before: usize, text: &[u8]) -> usize
    ensures value { result ≡ passed input before text.now }
    ensures most { result ≤ length text.now }
{
    match input {
        Input::Schedule if last_line(before, text).is_empty() => {
            silent_lines(text_behind(before, text))
        }
        _ => 0,
    }
}

fn may_comment(input: Input, before: usize, text: &[u8]) -> bool
    ensures { result ≡ may_comment input before text.now }
{
    match input {
        Input::Schedule => {
            last_line(before, text).is_empty() || last_behind("lat", before, text) == "3".as_bytes()
        }
        _ => false,
    }
}

// A comment that no line feed ends.
fn is_open_comment(input: Input, before: usize, text: &[u8], rest: &[u8]) -> bool
    ensures { result ≡ is_open_comment input before text.now rest.now }
{
    !is_ended(rest) && begins_comment(rest) && may_comment(input, before, text)
}

// How far a comment goes that no line feed ends.
fn comment_walk(alloc: Global, line: &[u8]) -> Result<Walk, AllocError>
    ensures walk { IfOk result (λ w. shown w ≡ comment_walk line.now) }
    ensures within { IfOk result (λ w. w.best ≤ length line.now) }
{
    let wanted = Vec::from_slice(alloc, "\n".as_bytes())?;
    Ok(Walk {
        best: line.len(),
        wanted,
        way: Way::Stuck,
    })
}

// How far the line goes that this rest of a text begins with.
fn walk_at(
    alloc: Global,
    input: Input,
    before: usize,
    silent: bool,
    text: &[u8],
    rest: &[u8],
) -> Result<Walk, AllocError>
    ensures walk { IfOk result (λ w. shown w ≡ walk_at input before silent text.now rest.now) }
    ensures within { IfOk result (λ w. w.best ≤ length rest.now) }
    ensures line { IfOk result (λ w. w.best ≤ length (front_line rest.now)) }
{
    if is_open_comment(input, before, text, rest) {
        return comment_walk(alloc, front_line(rest));
    }
    let services = seconds(alloc, "service", before, text)?;
    let offers = seconds(alloc, "offer", before, text)?;
    let said = Said {
        version: last_behind("lat", before, text),
        server: last_behind("server", before, text),
        services: &services,
        offers: &offers,
    };
    let table = table_at(alloc, input, before, silent, text, said)?;
    let taken = Taken {
        server: front_word(said.server),
        services: said.services,
    };
    walked(alloc, taken, front_line(rest), &table)
}

fn place_told(alloc: Global, number: usize, column: usize) -> Result<String, AllocError>
    ensures { IfOk result (λ text. string_bytes text ≡ place_told number column) }
{
    format!(in alloc; "lat: line {number}, column {column}: ")
}

// What could follow at this place of a line, and what was found.
fn line_onto(
    text: &mut String,
    ended: bool,
    line: &[u8],
    at: usize,
    forms: &[u8],
) -> Result<(), AllocError>
    ensures { OnOk result (string_bytes text.new
        ≡ string_bytes text.old ++ line_told ended line.now at forms.now) }
{
    wanted_onto(text, ended, at - start_of(line, at), forms)?;
    text.push_str(" expected, found ")?;
    found_onto(text, ended, line, at)
}

// The line that says how far a line of this number goes, what could follow and what was found.
#[tactic(auto, unfolding(crate::specs::LineExplained::walk_explained))]
fn walk_explained(
    alloc: Global,
    number: usize,
    rest: &[u8],
    walk: &Walk,
) -> Result<String, AllocError>
    requires { walk.now.best ≤ length rest.now }
    ensures { IfOk result (λ text.
        string_bytes text ≡ walk_explained number rest.now (shown walk.now)) }
{
    let at = walk.best;
    let column = at + 1;
    let mut text = place_told(alloc, number, column)?;
    line_onto(
        &mut text,
        is_ended(rest),
        front_line(rest),
        at,
        &walk.wanted,
    )?;
    text.push_str("\n")?;
    Ok(text)
}

/// Why the line of an input behind its first lines, so many, is wrong: the column of the first byte that no line has that may
/// stand there, what could stand at that place, and what was found. Lines and columns are counted from 1. In front of the first
/// line of a schedule silent lines are passed over. Takes memory for the text and what the lines in front say.
#[tactic(auto, unfolding(crate::specs::LineExplained::line_explained))]
pub fn line_explained(
    alloc: Global,
    input: Input,
    before: usize,
    text: &[u8],
) -> Result<String, AllocError>
    requires { before ≤ length text.now }
    ensures told { IfOk result (λ told. string_bytes told ≡ line_explained input before text.now) }
    ensures column { IfOk result (λ told. TellsColumn input before text.now (string_bytes told)) }
{
    let passed = passed(input, before, text);
    let behind = before + passed;
    let rest = text_behind(behind, text);
    let walk = walk_at(alloc, input, before, 0 < passed, text, rest)?;
    walk_explained(alloc, behind + 1, rest, &walk)
}
