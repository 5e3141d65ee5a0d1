//! The bytes that were read of a caller.

ghost use Rattle.std.specs.Prelude.{◌≡◌, ◌≤◌, [], drop, take, length};
ghost use Rattle.lat_outside.specs.Visits.{GivesAs, MayAnswer, read_by, with_present};
ghost use Rattle.lat_turns.specs.Hands.{HandAfter};

use lat_outside::{CALLER_BYTES, CallerGot, Callers, Failed};
use std::marker::Model;

/// The bytes of the last read, less those that puts took. Contracts see the list.
#[derive(Drop)]
pub struct Hand {
    buf: [u8; CALLER_BYTES],
    at: usize,
    end: usize,
}

impl Model for Hand {
    ghost use Rattle.std.specs.Prelude.{◌≡◌, ◌≤◌, ℕ, List, length, slice_range};

    ghost Value = { List ℕ };

    ghost view = { λ a. slice_range a.buf a.at a.end };

    ghost invariant = { λ a. (a.at ≤ a.end) × (a.end ≤ 1024) × (length a.buf ≡ 1024) };
}

impl Hand {
    /// Without a byte.
    pub fn new() -> Hand
        ensures { result ≡ [] }
    {
        Hand {
            buf: [0; CALLER_BYTES],
            at: 0,
            end: 0,
        }
    }

    /// All its bytes.
    pub fn all(&self) -> &[u8]
        ensures { result.now ≡ self.now }
    {
        &self.buf[self.at..self.end]
    }

    /// The first of its bytes, so many at most.
    pub fn front(&self, most: u16) -> &[u8]
        ensures { result.now ≡ take most self.now }
    {
        first(self.all(), most as usize)
    }

    /// The first of its bytes are taken.
    pub fn took(&mut self, count: u16)
        requires { count ≤ length self.old }
        ensures { self.new ≡ drop count self.old }
    {
        self.at += count as usize;
    }

    /// Reads who has the line. What is read takes the place of what was there.
    pub fn read<K: Callers>(&mut self, callers: &mut K) -> Result<CallerGot, Failed>
        ensures hand { HandAfter result self.old self.new }
        ensures may { MayAnswer GivesAs (K.visits callers.old) result }
        ensures visits { K.visits callers.new ≡ with_present (K.visits callers.old) (read_by result self.new) }
    {
        let mut buf = [0; CALLER_BYTES];
        let got = callers.read(&mut buf);
        if let Ok(CallerGot::Bytes(count)) = got {
            self.buf = buf;
            self.at = 0;
            self.end = count;
        }
        got
    }
}

// The first of the bytes, so many at most.
fn first(bytes: &[u8], most: usize) -> &[u8]
    ensures { result.now ≡ take most bytes.now }
{
    if most < bytes.len() {
        &bytes[..most]
    } else {
        bytes
    }
}
