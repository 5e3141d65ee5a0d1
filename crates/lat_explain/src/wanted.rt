//! What could stand where a line goes no further.

ghost use Rattle.std.specs.Prelude.{◌≡◌, ◌++◌, OnOk, string_bytes};
ghost use Rattle.lat_text.specs.Lines.{lines_of};
ghost use Rattle.lat_explain.specs.Wanted.{number_wanted, hex_wanted, word_wanted, end_wanted, form_wanted, separator, others_wanted, wanted};

use crate::form::{Kind, kind_of};
use crate::found::shown_onto;
use lat_text::first_line;
use std::alloc::AllocError;

pub(crate) fn number_onto(text: &mut String, bounds: (u64, u64)) -> Result<(), AllocError>
    ensures { OnOk result (string_bytes text.new ≡ string_bytes text.old ++ number_wanted bounds) }
{
    let (least, most) = bounds;
    write!(text, "a number from {least} to {most}")
}

// Hex digits, of which so many stand there.
fn hex_onto(text: &mut String, bounds: (u64, u64), good: usize) -> Result<(), AllocError>
    ensures { OnOk result (string_bytes text.new ≡ string_bytes text.old ++ hex_wanted bounds good) }
{
    let (least, most) = bounds;
    if least == most {
        return write!(text, "{most} hex digits");
    }
    if good as u64 == most {
        return write!(text, "at most {most} hex digits");
    }
    if good % 2 == 1 {
        text.push_str("an even number of hex digits")
    } else {
        text.push_str("hex digits")
    }
}

fn word_onto(text: &mut String, word: &[u8]) -> Result<(), AllocError>
    ensures { OnOk result (string_bytes text.new ≡ string_bytes text.old ++ word_wanted word.now) }
{
    text.push_str("\"")?;
    shown_onto(text, word)?;
    text.push_str("\"")
}

fn end_wanted(ended: bool) -> &'static str
    ensures { result.now ≡ end_wanted ended }
{
    if ended {
        "the end of the line"
    } else {
        "a line feed"
    }
}

// A word of this form, of which so many bytes stand there.
#[tactic(auto, unfolding(crate::specs::Wanted::form_wanted))]
fn form_onto(text: &mut String, ended: bool, good: usize, form: &[u8]) -> Result<(), AllocError>
    ensures { OnOk result (string_bytes text.new
        ≡ string_bytes text.old ++ form_wanted ended good form.now) }
{
    match kind_of(form) {
        Kind::End => text.push_str(end_wanted(ended)),
        Kind::Number(least, most) => number_onto(text, (least, most)),
        Kind::Hex(least, most) => hex_onto(text, (least, most), good),
        Kind::Station => text.push_str("the 12 hex digits of another station"),
        Kind::Name => text.push_str("a name of 1 to 16 bytes"),
        Kind::Service => text.push_str("the name of another service"),
        Kind::Word => word_onto(text, form),
    }
}

fn separator(more: &[u8]) -> &'static str
    ensures { result.now ≡ separator (lines_of more.now) }
{
    if more.is_empty() { " or " } else { ", " }
}

#[tactic(auto, unfolding(crate::specs::Wanted::others_wanted))]
fn others_onto(text: &mut String, ended: bool, good: usize, forms: &[u8]) -> Result<(), AllocError>
    ensures { OnOk result (string_bytes text.new
        ≡ string_bytes text.old ++ others_wanted ended good (lines_of forms.now)) }
{
    let mut rest = forms;
    while let Some((form, more)) = first_line(rest) {
        text.push_str(separator(more))?;
        form_onto(text, ended, good, form)?;
        rest = more;
    }
    Ok(())
}

/// Adds what could stand there: words of these forms, of which so many bytes stand there, each ended by a line feed.
pub(crate) fn wanted_onto(
    text: &mut String,
    ended: bool,
    good: usize,
    forms: &[u8],
) -> Result<(), AllocError>
    ensures { OnOk result (string_bytes text.new
        ≡ string_bytes text.old ++ wanted ended good (lines_of forms.now)) }
{
    match first_line(forms) {
        Some((form, more)) => {
            form_onto(text, ended, good, form)?;
            others_onto(text, ended, good, more)
        }
        None => text.push_str("the end of the text"),
    }
}
