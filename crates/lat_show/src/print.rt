//! The whole of an input in print.

ghost use Rattle.std.specs.Prelude.{◌≡◌, IfOk, string_bytes};
ghost use Rattle.std.specs.Option.{option_map};
ghost use Rattle.lat_show.specs.ShowOf.{payload_of, show_of};

use crate::payload::payload_onto;
use lat_base::Memory;
use lat_text::{LineFault, bytes_of, first_line, wrong_line};
use std::alloc::Global;

/// A line has at most so many hex digits.
const MOST_DIGITS: usize = 8192;

// The payload that a line writes, if it is a right one.
#[tactic(auto, unfolding(crate::specs::ShowOf::payload_of))]
fn payload_of(alloc: Global, line: &[u8]) -> Result<Option<Vec<u8>>, Memory>
    ensures { IfOk result (λ found.
        option_map (λ payload. payload.items) found ≡ payload_of line.now) }
{
    match bytes_of(alloc, 0, MOST_DIGITS, line) {
        Ok(payload) => Ok(Some(payload)),
        Err(LineFault::Form) => Ok(None),
        Err(LineFault::Memory) => Err(Memory),
    }
}

/// What is printed of an input of lines, with the status: 0 and the texts of all payloads in order, where every line
/// is an even number of hex digits of either case, at most 8,192, perhaps none, and is ended by a line feed; else 2
/// and the first wrong line, counted from 1. Takes memory for the text and for each payload that is read.
pub fn show(alloc: Global, input: &[u8]) -> Result<(u8, String), Memory>
    ensures { IfOk result (λ r. (r.0, string_bytes r.1) ≡ show_of input.now) }
{
    let mut text = String::new(alloc);
    let mut rest = input;
    let mut number = 1;
    while let Some((line, behind)) = first_line(rest) {
        let Some(payload) = payload_of(alloc, line)? else {
            return Ok((2, wrong_line(alloc, number)?));
        };
        payload_onto(alloc, &mut text, &payload)?;
        rest = behind;
        number += 1;
    }
    if !rest.is_empty() {
        return Ok((2, wrong_line(alloc, number)?));
    }
    Ok((0, text))
}
