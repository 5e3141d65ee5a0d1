//! The lines of a text, one after another.

ghost use Rattle.std.specs.Prelude.{◌+◌, ◌<◌, ◌^◌, length};

use lat_text::first_line;

/// What is left of a text: its lines, of which the first has this number.
#[derive(Clone, Copy)]
pub struct Cursor<'a> {
    pub number: usize,
    pub text: &'a [u8],
    ghost counted: { number + length text.now < 2 ^ 64 },
}

/// A line with its number, and what is left behind it.
#[derive(Clone, Copy)]
pub struct Next<'a> {
    pub number: usize,
    pub line: &'a [u8],
    pub behind: Cursor<'a>,
}

impl<'a> Cursor<'a> {
    ghost use Rattle.std.specs.Prelude.{◌≡◌, IfOk};
    ghost use Rattle.std.specs.Result.{result_map_both};
    ghost use Rattle.lat_schedule.specs.Places.{line_at};
    ghost use Rattle.lat_record.specs.Cursors.{place, first_place, number_of, over_at};

    /// The lines of a text, counted from 1.
    pub fn new(text: &'a [u8]) -> Cursor<'a>
        ensures { place result ≡ first_place text.now }
    {
        Cursor { number: 1, text }
    }

    /// The next line, and the lines behind it. The number of the missing one where there is none that a line feed ends.
    pub fn line(self) -> Result<Next<'a>, usize>
        ensures value { result_map_both (λ r. (r.number, r.line.now, place r.behind)) (λ number. number) result
            ≡ line_at (place self.entry) }
        ensures shorter { IfOk result (λ r. length r.behind.text.now < length self.entry.text.now) }
    {
        match first_line(self.text) {
            Some((line, text)) => {
                let number = self.number + 1;
                let behind = Cursor { number, text };
                Ok(Next {
                    number: self.number,
                    line,
                    behind,
                })
            }
            None => Err(self.number),
        }
    }

    /// The number of the next line.
    pub fn number(self) -> usize
        ensures value { result ≡ number_of (place self.entry) }
        ensures own { result ≡ self.entry.number }
    {
        self.number
    }

    /// No whole line is left, but perhaps bytes that no line feed ends. The number of the first line that is one too many.
    pub fn over(self) -> Result<(), usize>
        ensures { result_map_both (λ done. tt) (λ number. number) result ≡ over_at (place self.entry) }
    {
        match first_line(self.text) {
            Some(_) => Err(self.number),
            None => Ok(()),
        }
    }
}
