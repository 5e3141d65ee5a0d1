//! The lines of a script.

ghost use Rattle.std.specs.Prelude.{◌≡◌, ◌+◌, ◌-◌, ◌^◌, ◌++◌, min, not, IfOk, OnOk, string_bytes};
ghost use Rattle.lat_script.specs.Lines.{is_remark, line_feeds, printed};

use crate::words::word;
use std::alloc::AllocError;

/// Lines of a script that stand one behind another, and the number of the first of them in the script, counted from 1.
#[derive(Clone, Copy)]
pub struct Part<'a> {
    pub first: u64,
    pub text: &'a str,
}

// Whether a line is printed and no more.
fn is_remark(line: &str) -> bool
    ensures { result ≡ is_remark line.now }
{
    line.is_empty() || word(line, 0) == "#"
}

/// Prints a line, a command behind `> `, and tells whether it is one: no line without a letter is one, and none whose first
/// word is `#`.
pub fn is_command(line: &str, text: &mut String) -> Result<bool, AllocError>
    ensures command { IfOk result (λ command. command ≡ not (is_remark line.now)) }
    ensures printed { OnOk result (string_bytes text.new
        ≡ string_bytes text.old ++ printed line.now) }
{
    if is_remark(line) {
        write!(text, "{line}\n")?;
        return Ok(false);
    }
    write!(text, "> {line}\n")?;
    Ok(true)
}

fn line_feeds(text: &str) -> usize
    ensures { result ≡ line_feeds text.now }
{
    text.as_bytes()
        .iter()
        .filter(|byte| **byte == b'\n')
        .count()
}

/// The number of the line behind a part of a script whose first line has the number `first`. The texts are the part and what
/// ends it.
pub fn line_behind(first: u64, part: &str, end: &str) -> u64
    ensures { result ≡ min (first + line_feeds part.now + line_feeds end.now) (2 ^ 64 - 1) }
{
    first
        .saturating_add(line_feeds(part) as u64)
        .saturating_add(line_feeds(end) as u64)
}
