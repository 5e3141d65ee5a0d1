//! The lines of a capture, as they are printed.

ghost use Rattle.std.specs.Prelude.{◌≡◌, ◌++◌, OnOk, string_bytes};
ghost use Rattle.lat_audit.specs.Written.{span_text, side_text, title_text, entry_text};

use lat_captures::Title;
use lat_text::hex_onto;
use std::alloc::{AllocError, Global};

fn span_text(wide: bool) -> &'static str
    ensures { result.now ≡ span_text wide }
{
    if wide { "word" } else { "byte" }
}

fn side_text(by_master: bool) -> &'static str
    ensures { result.now ≡ side_text by_master }
{
    if by_master { "m" } else { "s" }
}

/// Adds the first line of a capture to a text. After want of memory a part of it may stand in the text.
pub fn title_onto(text: &mut String, title: &Title) -> Result<(), AllocError>
    ensures { OnOk result (string_bytes text.new ≡ string_bytes text.old ++ title_text title.now) }
{
    let (master, slave, span) = (title.master, title.slave, span_text(title.wide));
    write!(text, "circuit {master} {slave} {span}\n")
}

/// Adds the line of a payload to a text, which the master or the slave sent. After want of memory a part of it may stand in the
/// text.
pub fn entry_onto(
    alloc: Global,
    text: &mut String,
    by_master: bool,
    payload: &[u8],
) -> Result<(), AllocError>
    ensures { OnOk result (string_bytes text.new
        ≡ string_bytes text.old ++ entry_text by_master payload.now) }
{
    text.push_str(side_text(by_master))?;
    text.push_str(" ")?;
    hex_onto(alloc, text, payload)?;
    text.push_str("\n")
}
