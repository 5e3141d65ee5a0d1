//! What the lines in front of a line said.

ghost use Rattle.std.specs.Prelude.{◌≡◌, ◌≤◌, ◌++◌, [], OnOk, IfOk, length, option_map};
ghost use Rattle.lat_text.specs.Lines.{lines_of};
ghost use Rattle.lat_explain.specs.Before.{is_silent, last_behind, last_line, said_or, second_said, seconds, silent_lines, unless_silent};

use crate::walk::front_word;
use lat_text::{behind_word, first_line};
use std::alloc::{AllocError, Global};

fn said_or<'a>(said: Option<&'a [u8]>, found: &'a [u8]) -> &'a [u8]
    ensures { result.now ≡ said_or (option_map (λ r. r.now) said.entry) found.now }
{
    match said {
        Some(said) => said,
        None => found,
    }
}

/// What stands behind this word in the last of the first lines that begins with it; no byte where none does.
#[tactic(auto, unfolding(crate::specs::Before::last_behind))]
pub(crate) fn last_behind<'a>(word: &str, count: usize, text: &'a [u8]) -> &'a [u8]
    ensures { result.now ≡ last_behind word.now count (lines_of text.now) [] }
{
    let mut found: &[u8] = &[];
    let mut rest = text;
    for _ in 0..count {
        let Some((line, behind)) = first_line(rest) else {
            return found;
        };
        found = said_or(behind_word(word, line), found);
        rest = behind;
    }
    found
}

/// Whether a line says nothing in a schedule of the third version: it has no byte, or begins with `#`.
pub(crate) fn is_silent(line: &[u8]) -> bool
    ensures { result ≡ is_silent line.now }
{
    match line.first() {
        Some(byte) => *byte == b'#',
        None => true,
    }
}

fn unless_silent<'a>(line: &'a [u8], found: &'a [u8]) -> &'a [u8]
    ensures { result.now ≡ unless_silent line.now found.now }
{
    if is_silent(line) { found } else { line }
}

/// The last of the first lines that says something; no byte where none does.
#[tactic(auto, unfolding(crate::specs::Before::last_line))]
pub(crate) fn last_line(count: usize, text: &[u8]) -> &[u8]
    ensures { result.now ≡ last_line count (lines_of text.now) [] }
{
    let mut found: &[u8] = &[];
    let mut rest = text;
    for _ in 0..count {
        let Some((line, behind)) = first_line(rest) else {
            return found;
        };
        found = unless_silent(line, found);
        rest = behind;
    }
    found
}

// Adds the first word of what a line says, ended by a line feed.
fn second_onto(all: &mut Vec<u8>, said: Option<&[u8]>) -> Result<(), AllocError>
    ensures { OnOk result (all.new.items
        ≡ all.old.items ++ second_said (option_map (λ r. r.now) said.entry)) }
{
    let Some(text) = said else {
        return Ok(());
    };
    all.extend_from_slice(front_word(text))?;
    Ok(all.push(b'\n')?)
}

/// The second words of those of the first lines that begin with this word, each ended by a line feed. Takes memory for them.
#[tactic(auto, unfolding(crate::specs::Before::seconds))]
pub(crate) fn seconds(
    alloc: Global,
    word: &str,
    count: usize,
    text: &[u8],
) -> Result<Vec<u8>, AllocError>
    ensures { IfOk result (λ all. all.items ≡ seconds word.now count (lines_of text.now)) }
{
    let mut all = Vec::new(alloc);
    let mut rest = text;
    for _ in 0..count {
        let Some((line, behind)) = first_line(rest) else {
            return Ok(all);
        };
        second_onto(&mut all, behind_word(word, line))?;
        rest = behind;
    }
    Ok(all)
}

/// How many silent lines stand in front of a text.
#[tactic(auto, unfolding(crate::specs::Before::silent_lines))]
pub(crate) fn silent_lines(text: &[u8]) -> usize
    ensures value { result ≡ silent_lines (lines_of text.now) }
    ensures most { result ≤ length text.now }
{
    let mut count: usize = 0;
    let mut rest = text;
    while let Some((line, behind)) = first_line(rest) {
        if !is_silent(line) {
            return count;
        }
        count += 1;
        rest = behind;
    }
    count
}
