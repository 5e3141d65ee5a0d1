//! The lines of events that were read.

ghost use Rattle.std.specs.Prelude.{◌≡◌, [], ◌∷◌, ◌++◌, OnOk, OnErr};

use lat_base::{Bytes, Event, Memory};
use std::alloc::Global;
use std::marker::Model;

/// An event of a record, and the words of its answer.
pub struct Entry {
    pub event: Event,
    pub answer: Bytes,
}

impl Drop for Entry {
    fn drop(self) {
        let Self { event, answer } = self;
    }
}

/// A list of entries. Contracts see the list.
pub struct Entries {
    entries: Vec<Entry>,
}

impl Drop for Entries {
    fn drop(self) {
        let Self { entries } = self;
    }
}

impl Model for Entries {
    ghost use Rattle.std.specs.Prelude.{List};
    ghost use Rattle.lat_record.specs.declared.entry.Entry.{Entry};

    ghost Value = { List Entry };

    ghost view = { λ a. a.entries.items };
}

impl Entries {
    /// No entry. It takes no memory.
    pub fn new(alloc: Global) -> Entries
        ensures { result ≡ [] }
    {
        Entries {
            entries: Vec::new(alloc),
        }
    }

    /// Adds an entry at the end, for which it may take memory. `Memory` where none is found; then nothing has changed.
    pub fn push(&mut self, entry: Entry) -> Result<(), Memory>
        ensures ok { OnOk result (self.new ≡ self.old ++ entry ∷ []) }
        ensures err { OnErr result (self.new ≡ self.old) }
    {
        match self.entries.push(entry) {
            Ok(()) => Ok(()),
            Err(_) => Err(Memory),
        }
    }

    /// The entries, first to last.
    pub fn as_slice(&self) -> &[Entry]
        ensures { result.now ≡ self.now }
    {
        self.entries.as_slice()
    }
}
