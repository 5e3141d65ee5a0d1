//! The lines of a text, one after another.

ghost use Rattle.std.specs.Prelude.{◌+◌, ◌<◌, ◌^◌, length};

use crate::silent::{is_silent, may_be_silent};
use lat_text::first_line;

/// What is left of a text: its lines, of which the first has this number.
#[derive(Clone, Copy)]
pub struct Rest<'a> {
    pub number: usize,
    pub text: &'a [u8],
    /// Whether lines that say nothing are passed over.
    pub silent: bool,
    ghost counted: { number + length text.now < 2 ^ 64 },
}

/// A line with its number, and what is left behind it.
#[derive(Clone, Copy)]
pub struct Next<'a> {
    pub number: usize,
    pub line: &'a [u8],
    pub behind: Rest<'a>,
}

impl<'a> Rest<'a> {
    ghost use Rattle.std.specs.Prelude.{◌≡◌, ◌≤◌, IfOk};
    ghost use Rattle.std.specs.Result.{result_map_both};
    ghost use Rattle.lat_text.specs.Lines.{lines_of};
    ghost use Rattle.lat_schedule.specs.Places.{line_at, nothing_at, opening, place};
    ghost use Rattle.lat_schedule.specs.Rests.{Says};

    /// The lines of a text, counted from 1.
    pub fn new(text: &'a [u8]) -> Rest<'a>
        ensures { place result ≡ opening text.now }
    {
        Rest {
            number: 1,
            text,
            silent: may_be_silent(text),
        }
    }

    // What is left behind the silent lines in front, where they are passed over.
    fn heard(self) -> Rest<'a>
        ensures same { place result ≡ place self.entry }
        ensures says { Says result.silent (lines_of result.text.now) }
        ensures shorter { length result.text.now ≤ length self.entry.text.now }
    {
        let silent = self.silent;
        let mut number = self.number;
        let mut text = self.text;
        while let Some((line, behind)) = first_line(text) {
            if !silent || !is_silent(line) {
                return Rest {
                    number,
                    text,
                    silent,
                };
            }
            number += 1;
            text = behind;
        }
        Rest {
            number,
            text,
            silent,
        }
    }

    /// The next line, and the lines behind it. The number of the missing one where there is none that a line feed ends.
    pub fn line(self) -> Result<Next<'a>, usize>
        ensures value { result_map_both (λ r. (r.number, r.line.now, place r.behind)) (λ number. number) result
            ≡ line_at (place self.entry) }
        ensures shorter { IfOk result (λ r. length r.behind.text.now < length self.entry.text.now) }
    {
        let rest = self.heard();
        match first_line(rest.text) {
            Some((line, text)) => {
                let number = rest.number + 1;
                let behind = Rest {
                    number,
                    text,
                    silent: rest.silent,
                };
                Ok(Next {
                    number: rest.number,
                    line,
                    behind,
                })
            }
            None => Err(rest.number),
        }
    }

    /// Nothing is left but silent lines that are passed over. The number of the first line that is one too many, or of bytes
    /// that no line feed ends.
    pub fn nothing(self) -> Result<(), usize>
        ensures { result_map_both (λ done. tt) (λ number. number) result ≡ nothing_at (place self.entry) }
    {
        let rest = self.heard();
        if rest.text.is_empty() {
            Ok(())
        } else {
            Err(rest.number)
        }
    }
}
