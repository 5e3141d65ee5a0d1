//! Bytes that were read ahead, so that the end behind them is noticed.

ghost use Rattle.std.specs.Prelude.{◌≡◌, [], ◌+◌, ◌++◌, ◌≤◌, take, length};
ghost use Rattle.lat_udp.specs.Aheads.{Fills};

use crate::fault::is_quiet;
use lat_outside::CALLER_BYTES;
use std::io::Read;
use std::marker::Model;

/// What came of reading ahead.
#[derive(Clone, Copy)]
pub enum Filled {
    /// The reader goes on, as far as is known.
    Goes,
    /// It gives no more.
    Ended,
    /// It failed.
    Failed,
}

/// Bytes that were read ahead, 1,024 at most. Contracts see these bytes.
#[derive(Drop)]
pub struct Ahead {
    place: [u8; CALLER_BYTES],
    len: usize,
}

impl Model for Ahead {
    ghost use Rattle.std.specs.Prelude.{◌≡◌, ℕ, List, ◌≤◌, take, length};

    ghost Value = { List ℕ };

    ghost view = { λ a. take a.len a.place };

    ghost invariant = { λ a. (a.len ≤ 1024) × (length a.place ≡ 1024) };
}

impl Ahead {
    /// None was read ahead.
    pub fn new() -> Ahead
        ensures { result ≡ [] }
    {
        Ahead {
            place: [0; CALLER_BYTES],
            len: 0,
        }
    }

    // Puts bytes behind the others.
    fn push(&mut self, bytes: &[u8])
        requires { length self.old + length bytes.now ≤ 1024 }
        ensures { self.new ≡ self.old ++ bytes.now }
    {
        let end = self.len + bytes.len();
        self.place[self.len..end].copy_from_slice(bytes);
        self.len = end;
    }

    /// Reads once, as much as there is room for, behind the bytes that were read before. No byte is lost, and none is read twice.
    pub fn fill<R: Read>(&mut self, from: &mut R) -> Filled
        ensures { Fills (R.remaining from.old) (R.remaining from.new) self.old self.new }
    {
        let room = CALLER_BYTES - self.len;
        if room == 0 {
            return Filled::Goes;
        }
        let mut piece = [0; CALLER_BYTES];
        match from.read(&mut piece[..room]) {
            Ok(0) => Filled::Ended,
            Ok(count) => {
                self.push(&piece[..count]);
                Filled::Goes
            }
            Err(error) if is_quiet(error.kind()) => Filled::Goes,
            Err(_) => Filled::Failed,
        }
    }

    /// Hands all of them out, at the front of the buffer, and answers how many. None is left.
    pub fn take(&mut self, buf: &mut [u8; CALLER_BYTES]) -> usize
        ensures most { result ≤ 1024 }
        ensures bytes { take result buf.new ≡ self.old }
        ensures none { self.new ≡ [] }
    {
        let count = self.len;
        buf[..count].copy_from_slice(&self.place[..count]);
        self.len = 0;
        count
    }
}
