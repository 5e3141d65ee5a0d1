//! A client in memory.

ghost use Rattle.std.specs.Prelude.{◌≡◌, ◌≤◌, [], ◌++◌};
ghost use Rattle.lat_outside.specs.Causes.{Rose};

use crate::client::Client;
use lat_base::Bytes;
use lat_outside::{CALLER_BYTES, CallerGot, Failed, Leave};
use lat_tale::Tale;
use std::alloc::Global;

/// A client in memory. Contracts see what it gave, and what was written to it.
#[derive(Drop)]
pub struct MemClient<'a> {
    rest: &'a [u8],
    given: Tale<u8>,
    written: Vec<u8>,
    most_read: usize,
    most_written: usize,
    takes: Option<usize>,
    leaves: Leave,
    faults: u64,
}

/// How a client in memory behaves.
#[derive(Clone, Copy, Drop)]
pub struct Manner {
    /// At most so many bytes a read, but one at least.
    pub most_read: usize,
    /// At most so many bytes a write.
    pub most_written: usize,
    /// How many bytes it takes in all. `None`: each write fails.
    pub takes: Option<usize>,
    /// What it does behind its last byte.
    pub leaves: Leave,
}

/// A client in memory who is to come: the bytes that it gives, and how it behaves.
#[derive(Drop)]
pub struct MemComer {
    pub gives: Bytes,
    pub manner: Manner,
}

impl<'a> MemClient<'a> {
    /// A client who has just come.
    pub fn new(alloc: Global, comer: &'a MemComer) -> MemClient<'a>
        ensures given { ⟦<MemClient<'a> as Client>⟧.given result ≡ [] }
        ensures written { ⟦<MemClient<'a> as Client>⟧.written result ≡ [] }
        ensures faults { ⟦<MemClient<'a> as Client>⟧.faults result ≡ 0 }
        ensures rest { result.rest.now ≡ comer.entry.now.gives }
    {
        MemClient {
            rest: comer.gives.as_slice(),
            given: Tale::new(),
            written: Vec::new(alloc),
            most_read: comer.manner.most_read,
            most_written: comer.manner.most_written,
            takes: comer.manner.takes,
            leaves: comer.manner.leaves,
            faults: 0,
        }
    }

    /// What was written to it.
    pub fn written(&self) -> &[u8]
        ensures { result.now ≡ ⟦<MemClient<'a> as Client>⟧.written self.now }
    {
        self.written.as_slice()
    }

    // A fault.
    fn fail(&mut self) -> Failed
        ensures faults { Rose self.old.faults self.new.faults × (self.old.faults ≤ self.new.faults) }
        ensures same { (self.new.given ≡ self.old.given) × (self.new.written ≡ self.old.written) }
    {
        self.faults = self.faults.saturating_add(1);
        Failed
    }
}

impl Client for MemClient<'_> {
    ghost given = { λ c. c.given.items };

    ghost written = { λ c. c.written.items };

    ghost faults = { λ c. c.faults };

    fn read(&mut self, buf: &mut [u8; CALLER_BYTES]) -> Result<CallerGot, Failed> {
        if self.rest.is_empty() {
            return match self.leaves {
                Leave::Stays => Ok(CallerGot::Quiet),
                Leave::Ends => Ok(CallerGot::Ended),
                Leave::Breaks => Err(self.fail()),
            };
        }
        let count = self.rest.len().min(self.most_read.max(1)).min(CALLER_BYTES);
        let (front, behind) = self.rest.split_at(count);
        buf[..count].copy_from_slice(front);
        self.given.push_all(front);
        self.rest = behind;
        Ok(CallerGot::Bytes(count))
    }

    fn write(&mut self, piece: &[u8]) -> Result<usize, Failed> {
        let Some(takes) = self.takes else {
            return Err(self.fail());
        };
        let count = piece.len().min(takes).min(self.most_written);
        if self.written.extend_from_slice(&piece[..count]).is_err() {
            return Err(self.fail());
        }
        self.takes = Some(takes - count);
        Ok(count)
    }
}
