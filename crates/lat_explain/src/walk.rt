//! How far a line goes with the forms that it may have.

ghost use Rattle.lat_explain.specs.declared.walk.Way.TheVariants.{Stuck};
ghost use Rattle.std.specs.Prelude.{ℕ, ◌≡◌, ◌==◌, ◌≤◌, OnOk, IfOk, length, position, drop, unwrap_or};
ghost use Rattle.lat_text.specs.Lines.{lines_of};
ghost use Rattle.lat_explain.specs.Forms.{taken_shown};
ghost use Rattle.lat_explain.specs.Walks.{
  shown,
  has_line,
  with_form,
  stops,
  front_word,
  way_behind,
  goes,
  meets,
  ends,
  again,
  IsWithin,
  step,
  walked,
};

use crate::form::{Taken, begun, fits};
use lat_text::first_line;
use std::alloc::{AllocError, Global};

/// Where the next word of a line is read.
#[derive(Clone, Copy)]
pub enum Way {
    /// It begins here.
    Open(usize),
    /// There is no further word.
    Over,
    /// The line doesn't go further with this form.
    Stuck,
}

/// How far a line goes with some form, and which words could stand there.
#[derive(Drop)]
pub struct Walk {
    pub best: usize,
    /// Each ended by a line feed; a word without a byte stands for the end of the line.
    pub wanted: Vec<u8>,
    pub way: Way,
}

/// Whether a text has this line.
#[tactic(auto, unfolding(crate::specs::Walks::has_line))]
pub(crate) fn has_line(form: &[u8], text: &[u8]) -> bool
    ensures { result ≡ has_line form.now (lines_of text.now) }
{
    let mut rest = text;
    while let Some((line, behind)) = first_line(rest) {
        if line == form {
            return true;
        }
        rest = behind;
    }
    false
}

fn space_in(text: &[u8]) -> Option<usize>
    ensures { result ≡ position (λ b. b == 32) text.now }
{
    text.iter().position(|byte| *byte == b' ')
}

// The word in front of a text's first space, or all of it.
pub(crate) fn front_word(text: &[u8]) -> &[u8]
    ensures { result.now ≡ front_word text.now }
{
    match space_in(text) {
        Some(end) => {
            let (word, _) = text.split_at(end);
            word
        }
        None => text,
    }
}

fn way_behind(line: &[u8], end: usize) -> Way
    requires { end ≤ length line.now }
    ensures { result ≡ way_behind line.now end }
{
    if end < line.len() {
        Way::Open(end + 1)
    } else {
        Way::Over
    }
}

impl Walk {
    // Adds a form to those that could stand there, unless it is there.
    fn want(&mut self, form: &[u8]) -> Result<(), AllocError>
        ensures wanted { OnOk result (self.new.wanted.items
            ≡ with_form form.now self.old.wanted.items) }
        ensures same { OnOk result ((self.new.best ≡ self.old.best) × (self.new.way ≡ self.old.way)) }
    {
        if has_line(form, &self.wanted) {
            return Ok(());
        }
        self.wanted.extend_from_slice(form)?;
        Ok(self.wanted.push(b'\n')?)
    }

    // The line goes up to here with a form, and this would follow.
    fn stop(&mut self, at: usize, form: &[u8]) -> Result<(), AllocError>
        ensures walk { OnOk result (shown self.new ≡ stops (shown self.old) at form.now) }
        ensures best { OnOk result ((most : ℕ) → self.old.best ≤ most → at ≤ most → self.new.best ≤ most) }
        ensures way { OnOk result (self.new.way ≡ Stuck) }
    {
        self.way = Way::Stuck;
        if at < self.best {
            return Ok(());
        }
        if self.best < at {
            self.best = at;
            self.wanted.clear();
            self.wanted.extend_from_slice(form)?;
            return Ok(self.wanted.push(b'\n')?);
        }
        self.want(form)
    }

    // The word that begins here goes with this form, or the line stops in it.
    fn go(
        &mut self,
        taken: Taken<'_>,
        line: &[u8],
        form: &[u8],
        at: usize,
    ) -> Result<(), AllocError>
        requires at { at ≤ length line.now }
        requires best { self.old.best ≤ length line.now }
        ensures walk { OnOk result (shown self.new
            ≡ goes (taken_shown taken.entry) line.now form.now at (front_word (drop at line.now)) (shown self.old)) }
        ensures within { OnOk result (IsWithin (length line.now) self.new) }
    {
        let (_, rest) = line.split_at(at);
        let word = front_word(rest);
        if fits(taken, form, word) {
            self.way = way_behind(line, at + word.len());
            Ok(())
        } else {
            self.stop(at + begun(taken, form, word), form)
        }
    }

    // One more word of a form.
    fn meet(&mut self, taken: Taken<'_>, line: &[u8], form: &[u8]) -> Result<(), AllocError>
        requires { IsWithin (length line.now) self.old }
        ensures walk { OnOk result (shown self.new
            ≡ meets (taken_shown taken.entry) line.now form.now (shown self.old) self.old.way) }
        ensures within { OnOk result (IsWithin (length line.now) self.new) }
    {
        match self.way {
            Way::Open(at) => self.go(taken, line, form, at),
            Way::Over => self.stop(line.len(), form),
            Way::Stuck => Ok(()),
        }
    }

    // Nothing follows behind the last word of a form.
    fn end(&mut self, line: &[u8]) -> Result<(), AllocError>
        requires { IsWithin (length line.now) self.old }
        ensures walk { OnOk result (shown self.new ≡ again (ends line.now (shown self.old) self.old.way)) }
        ensures within { OnOk result (IsWithin (length line.now) self.new) }
    {
        match self.way {
            Way::Open(at) => self.stop(at.saturating_sub(1), &[])?,
            Way::Over => self.stop(line.len(), &[])?,
            Way::Stuck => {}
        }
        self.way = Way::Open(0);
        Ok(())
    }

    fn step(&mut self, taken: Taken<'_>, line: &[u8], form: &[u8]) -> Result<(), AllocError>
        requires { IsWithin (length line.now) self.old }
        ensures walk { OnOk result (shown self.new
            ≡ step (taken_shown taken.entry) line.now form.now (shown self.old)) }
        ensures within { OnOk result (IsWithin (length line.now) self.new) }
    {
        if form.is_empty() {
            self.end(line)
        } else {
            self.meet(taken, line, form)
        }
    }
}

/// How far a line goes with the forms of a table: the words of each, each ended by a line feed, and behind the last a line
/// without a byte. Takes memory for the words that could follow.
#[tactic(auto, unfolding(crate::specs::Walks::walk))]
pub fn walked(
    alloc: Global,
    taken: Taken<'_>,
    line: &[u8],
    table: &[u8],
) -> Result<Walk, AllocError>
    ensures walk { IfOk result (λ w. shown w ≡ walked (taken_shown taken.entry) line.now table.now) }
    ensures within { IfOk result (λ w. w.best ≤ length line.now) }
{
    let mut walk = Walk {
        best: 0,
        wanted: Vec::new(alloc),
        way: Way::Open(0),
    };
    let mut rest = table;
    while let Some((form, more)) = first_line(rest) {
        walk.step(taken, line, form)?;
        rest = more;
    }
    Ok(walk)
}
