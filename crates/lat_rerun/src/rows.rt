//! The newest session of each line in print.

ghost use Rattle.std.specs.Prelude.{◌≡◌, ◌++◌, ◌≤◌, OnOk, string_bytes};
ghost use Rattle.lat_rerun.specs.RowText.{end_words, row_text, rows_of};

use lat_base::{Core, LineLook, SessionEnd};
use std::alloc::AllocError;

fn end_onto(text: &mut String, end: Option<SessionEnd>) -> Result<(), AllocError>
    ensures { OnOk result (string_bytes text.new ≡ string_bytes text.old ++ end_words end) }
{
    match end {
        None => text.push_str("open"),
        Some(SessionEnd::Closed) => text.push_str("closed"),
        Some(SessionEnd::Rejected(reason)) => write!(text, "rejected {reason}"),
        Some(SessionEnd::Circuit(reason)) => write!(text, "circuit {reason}"),
    }
}

fn row_onto(text: &mut String, line: u8, look: LineLook) -> Result<(), AllocError>
    ensures { OnOk result (string_bytes text.new ≡ string_bytes text.old ++ row_text line look) }
{
    let newest = look.newest;
    if newest == 0 {
        return Ok(());
    }
    write!(text, "line {line} session {newest} end ")?;
    end_onto(text, look.end)?;
    text.push_str("\n")
}

/// Adds a row for each line that had a session, of its newest one, by rising number. After want of memory a part of them may stand
/// in the text.
pub fn rows_onto<C: Core>(text: &mut String, core: &C, lines: u8) -> Result<(), AllocError>
    requires valid { C.valid core.now }
    requires few { lines ≤ 64 }
    ensures { OnOk result ((s : C.State) → C.stands core.now s →
        string_bytes text.new ≡ string_bytes text.old ++ rows_of (C.look_of s) lines) }
{
    for k in 0..lines {
        let line = k + 1;
        row_onto(text, line, core.look(line))?;
    }
    Ok(())
}
