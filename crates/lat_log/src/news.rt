//! Lists of entries.

ghost use Rattle.std.specs.Prelude.{◌≡◌, [], ◌∷◌, ◌++◌, OnOk};

use crate::entry::Entry;
use lat_base::Memory;
use std::alloc::Global;
use std::marker::Model;

/// A list of entries, in order. Contracts see the list.
#[derive(Drop)]
pub struct News {
    entries: Vec<Entry>,
}

impl Model for News {
    ghost use Rattle.std.specs.Prelude.{List};
    ghost use Rattle.lat_log.specs.declared.entry.Entry.{Entry};

    ghost Value = { List Entry };

    ghost view = { λ a. a.entries.items };
}

impl News {
    /// No entry. It takes no memory.
    pub fn new(alloc: Global) -> News
        ensures { result ≡ [] }
    {
        News {
            entries: Vec::new(alloc),
        }
    }

    /// Adds an entry at the end, for which it may take memory. `Memory` where none is found.
    pub fn push(&mut self, entry: Entry) -> Result<(), Memory>
        ensures { OnOk result (self.new ≡ self.old ++ entry ∷ []) }
    {
        self.entries.push(entry)?;
        Ok(())
    }

    /// Adds entries at the end, in order. `Memory` where none is found.
    pub fn append(&mut self, entries: &[Entry]) -> Result<(), Memory>
        ensures { OnOk result (self.new ≡ self.old ++ entries.now) }
    {
        self.entries.extend_from_slice(entries)?;
        Ok(())
    }

    /// The entries, first to last.
    pub fn as_slice(&self) -> &[Entry]
        ensures { result.now ≡ self.now }
    {
        self.entries.as_slice()
    }
}
