//! One caller in memory.

ghost use Rattle.std.specs.Prelude.{◌≡◌, [], ◌++◌, ◌≤◌, length, IfOk};
ghost use Rattle.lat_outside.specs.Visits.{GaveWithin, GivesAs, StaysAs, TakesAs, failed, fresh_visit, read_by, watched_by, written_by};

use crate::callers::{CALLER_BYTES, CallerGot, Presence};
use crate::outside::Failed;
use crate::visit::{Standing, Visit};
use lat_base::Bytes;
use lat_tale::Tale;
use std::alloc::Global;
use std::marker::Model;

/// What a caller in memory does behind its last byte.
#[derive(Clone, Copy, Debug, PartialEq, Eq)]
pub enum Leave {
    /// It stays.
    Stays,
    /// It gives no more.
    Ends,
    /// Its connection fails.
    Breaks,
}

/// A caller in memory.
#[derive(Drop)]
pub struct MemCaller {
    /// The port at which it is dialled, where it doesn't come to the line's own.
    pub dialled: Option<u16>,
    /// It comes once so many callers were hung up.
    pub behind: u64,
    /// The bytes that it gives.
    pub gives: Bytes,
    /// At most so many of them a read, but one at least.
    pub most_read: usize,
    /// How many bytes it takes in all.
    pub takes: usize,
    /// At most so many of them a write.
    pub most_written: usize,
    /// What it does behind its last byte.
    pub leaves: Leave,
}

/// A caller in memory who has the line, or waits beside. Contracts see its visit, and which of its bytes are left.
#[derive(Drop)]
pub struct MemConnection<'a> {
    dialled: Option<u16>,
    given: Tale<u8>,
    rest: &'a [u8],
    most_read: usize,
    written: Vec<u8>,
    takes: usize,
    most_written: usize,
    leaves: Leave,
    standing: Standing,
}

impl<'a> Model for MemConnection<'a> {
    ghost use Rattle.lat_outside.specs.Visits.{MemConnectionView};

    ghost Value = { MemConnectionView };

    ghost view = { λ a. record {
      visit = record {
        dialled = a.dialled;
        given = a.given.items;
        written = a.written.items;
        standing = a.standing;
      };
      left = a.rest.now;
    } };
}

impl<'a> MemConnection<'a> {
    /// This caller, who has just come.
    pub fn new(alloc: Global, caller: &'a MemCaller) -> MemConnection<'a>
        ensures visit { result.visit ≡ fresh_visit caller.entry.now.dialled }
        ensures left { result.left ≡ caller.entry.now.gives }
    {
        MemConnection {
            dialled: caller.dialled,
            given: Tale::new(),
            rest: caller.gives.as_slice(),
            most_read: caller.most_read,
            written: Vec::new(alloc),
            takes: caller.takes,
            most_written: caller.most_written,
            leaves: caller.leaves,
            standing: Standing::Stays,
        }
    }

    /// Its visit.
    pub fn into_visit(self) -> Visit
        ensures { result ≡ self.entry.visit }
    {
        let mut wrote = Tale::new();
        wrote.push_all(self.written.as_slice());
        Visit::of(self.dialled, self.given, wrote, self.standing)
    }

    /// What was written to it.
    pub fn written(&self) -> &[u8]
        ensures { result.now ≡ self.now.visit.written }
    {
        self.written.as_slice()
    }

    /// Its connection fails.
    pub fn fail(&mut self)
        ensures visit { self.new.visit ≡ failed self.old.visit }
        ensures left { self.new.left ≡ self.old.left }
    {
        self.standing = Standing::Failed;
    }

    // No byte is left.
    fn read_at_end(&mut self) -> Result<CallerGot, Failed>
        ensures visit { self.new.visit ≡ read_by result [] self.old.visit }
        ensures left { self.new.left ≡ self.old.left }
        ensures may { GivesAs self.old.visit.standing result }
        ensures none { IfOk result (λ got. GaveWithin got 0) }
    {
        match (self.standing, self.leaves) {
            (Standing::Failed, _) => Err(Failed),
            (Standing::Stays, Leave::Stays) => Ok(CallerGot::Quiet),
            (Standing::Stays, Leave::Breaks) => {
                self.standing = Standing::Failed;
                Err(Failed)
            }
            _ => {
                self.standing = Standing::Ended;
                Ok(CallerGot::Ended)
            }
        }
    }

    /// As `Callers::read`. Its bytes come in order, each once.
    pub fn read(&mut self, buf: &mut [u8; CALLER_BYTES]) -> Result<CallerGot, Failed>
        ensures bound { IfOk result (λ got. GaveWithin got 1024) }
        ensures visit { self.new.visit ≡ read_by result buf.new self.old.visit }
        ensures left { self.old.visit.given ++ self.old.left ≡ self.new.visit.given ++ self.new.left }
        ensures may { GivesAs self.old.visit.standing result }
    {
        if self.rest.is_empty() || !matches!(self.standing, Standing::Stays | Standing::Leaves) {
            return self.read_at_end();
        }
        let n = self.rest.len().min(self.most_read.max(1)).min(CALLER_BYTES);
        let (front, behind) = self.rest.split_at(n);
        buf[..n].copy_from_slice(front);
        self.given.push_all(front);
        self.rest = behind;
        Ok(CallerGot::Bytes(n))
    }

    /// As `Callers::write`. It fails where no memory is found.
    pub fn write(&mut self, piece: &[u8]) -> Result<usize, Failed>
        ensures bound { IfOk result (λ n. n ≤ length piece.now) }
        ensures visit { self.new.visit ≡ written_by result piece.now self.old.visit }
        ensures left { self.new.left ≡ self.old.left }
        ensures may { TakesAs self.old.visit.standing result }
    {
        let n = piece.len().min(self.takes).min(self.most_written);
        if self.standing == Standing::Failed
            || self.written.extend_from_slice(&piece[..n]).is_err()
        {
            self.standing = Standing::Failed;
            return Err(Failed);
        }
        self.takes -= n;
        Ok(n)
    }

    /// As `Callers::watch`.
    pub fn watch(&mut self) -> Result<Presence, Failed>
        ensures visit { self.new.visit ≡ watched_by result self.old.visit }
        ensures left { self.new.left ≡ self.old.left }
        ensures may { StaysAs self.old.visit.standing result }
    {
        match (self.standing, self.leaves) {
            (Standing::Failed, _) => Err(Failed),
            (Standing::Stays, Leave::Stays) => Ok(Presence::Stays),
            (Standing::Stays, Leave::Breaks) => {
                self.standing = Standing::Failed;
                Err(Failed)
            }
            (Standing::Stays, Leave::Ends) => {
                self.standing = Standing::Leaves;
                Ok(Presence::Leaves)
            }
            _ => Ok(Presence::Leaves),
        }
    }
}
