//! What a rerun comes to.

ghost use Rattle.std.specs.Prelude.{◌≡◌, ◌+◌, ◌<◌, ◌≤◌, ◌^◌, length, IfOk, string_bytes};
ghost use Rattle.lat_rerun.specs.Reruns.{told};
ghost use Rattle.lat_rerun.specs.RowText.{agrees_text, differs_text, rows_of};

use crate::compare::compare;
use crate::rows::rows_onto;
use lat_base::{Core, Memory};
use lat_record::Entry;
use std::alloc::{AllocError, Global};

fn differs_text(alloc: Global, number: usize) -> Result<String, AllocError>
    ensures { IfOk result (λ text. string_bytes text ≡ differs_text number) }
{
    format!(in alloc; "line {number} answer\n")
}

fn agrees_text<C: Core>(
    alloc: Global,
    count: usize,
    core: &C,
    lines: u8,
) -> Result<String, AllocError>
    requires valid { C.valid core.now }
    requires few { lines ≤ 64 }
    ensures { IfOk result (λ text. (s : C.State) → C.stands core.now s →
        string_bytes text ≡ agrees_text count (rows_of (C.look_of s) lines)) }
{
    let mut text = String::new(alloc);
    write!(text, "agrees {count}\n")?;
    rows_onto(&mut text, core, lines)?;
    Ok(text)
}

/// Tells a core the events of a record, of which the first stands on the line of this number: the status and the text that say
/// whether each answer was the one that stands there. `Memory` where none is found.
pub fn told<C: Core>(
    alloc: Global,
    core: C,
    lines: u8,
    first: usize,
    entries: &[Entry],
) -> Result<(u8, String), Memory>
    requires valid { C.valid core }
    requires few { lines ≤ 64 }
    requires counted { first + length entries.now < 2 ^ 64 }
    ensures { IfOk result (λ r. (s : C.State) → C.stands core s →
        (r.0, string_bytes r.1) ≡ told C.next C.answer C.look_of s lines first entries.now) }
{
    let mut core = core;
    match compare(alloc, &mut core, entries)? {
        Some(place) => Ok((3, differs_text(alloc, first + place)?)),
        None => Ok((0, agrees_text(alloc, entries.len(), &core, lines)?)),
    }
}
