//! The whole of an input.

ghost use Rattle.std.specs.Prelude.{◌≡◌, IfOk, string_bytes};
ghost use Rattle.lat_show.specs.choice.ChooseOf.{choose_of};

use crate::choice::entry::entry_from;
use crate::choice::opening::opening;
use crate::choice::print::entry_onto;
use lat_base::Memory;
use lat_dir::Directory;
use lat_text::{first_line, wrong_line};
use std::alloc::Global;

/// What is printed of an input of lines, with the status: 0 and the answers to all of them, where the input has its
/// form, and else 2 and the first wrong line, counted from 1. Takes memory for the text, the directory and each payload.
pub fn choose(alloc: Global, input: &[u8]) -> Result<(u8, String), Memory>
    ensures { IfOk result (λ r. (r.0, string_bytes r.1) ≡ choose_of input.now) }
{
    let (groups, first, lines) = opening(input);
    let mut directory = Directory::make(alloc, &groups)?;
    let mut text = String::new(alloc);
    let mut number = first;
    let mut last = 0;
    let mut rest = lines;
    while let Some((line, behind)) = first_line(rest) {
        let Some(entry) = entry_from(alloc, last, line)? else {
            return Ok((2, wrong_line(alloc, number)?));
        };
        last = entry.moment();
        entry_onto(alloc, &mut text, &mut directory, number, entry)?;
        number += 1;
        rest = behind;
    }
    if !rest.is_empty() {
        return Ok((2, wrong_line(alloc, number)?));
    }
    Ok((0, text))
}
