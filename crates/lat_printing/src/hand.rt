//! The bytes that were read of a client.

ghost use Rattle.std.specs.Prelude.{◌≡◌, ◌≤◌, [], drop, take, length};

use std::marker::Model;

/// How many bytes a read gives at most.
pub const READ_BYTES: usize = 1024;

/// The bytes of the last read, less those that puts took. Contracts see the list.
#[derive(Drop)]
pub struct Hand {
    buf: [u8; READ_BYTES],
    at: usize,
    end: usize,
}

impl Model for Hand {
    ghost use Rattle.std.specs.Prelude.{◌≡◌, ◌≤◌, ℕ, List, length, slice_range};

    ghost Value = { List ℕ };

    ghost view = { λ a. slice_range a.buf a.at a.end };

    ghost invariant = { λ a. (a.at ≤ a.end) × (a.end ≤ 1024) × (length a.buf ≡ 1024) };
}

impl Hand {
    /// Without a byte.
    pub fn new() -> Hand
        ensures { result ≡ [] }
    {
        Hand {
            buf: [0; READ_BYTES],
            at: 0,
            end: 0,
        }
    }

    /// All its bytes.
    pub fn all(&self) -> &[u8]
        ensures { result.now ≡ self.now }
    {
        &self.buf[self.at..self.end]
    }

    /// The first of its bytes, so many at most.
    pub fn front(&self, most: u16) -> &[u8]
        ensures { result.now ≡ take most self.now }
    {
        first(self.all(), most as usize)
    }

    /// The first of its bytes are taken.
    pub fn took(&mut self, count: u16)
        requires { count ≤ length self.old }
        ensures { self.new ≡ drop count self.old }
    {
        self.at += count as usize;
    }
}

// The first of the bytes, so many at most.
fn first(bytes: &[u8], most: usize) -> &[u8]
    ensures { result.now ≡ take most bytes.now }
{
    if most < bytes.len() {
        &bytes[..most]
    } else {
        bytes
    }
}
