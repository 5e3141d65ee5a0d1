//! Entries on their way out.

ghost use Rattle.std.specs.Prelude.{◌≡◌, ◌<◌, [], ◌∷◌, ◌++◌, length, nat_le, IfOk};

use crate::entry::Entry;
use lat_base::Memory;
use std::alloc::Global;
use std::marker::Model;

/// How many entries a page has room for.
pub const PAGE_ENTRIES: usize = 1000;

/// An entry with its moment, the core's, in milliseconds. Contracts see both.
#[derive(Clone, Copy)]
pub struct Stamped {
    moment: u64,
    entry: Entry,
}

impl Model for Stamped {
    ghost use Rattle.lat_log.specs.Journals.{Told};

    ghost Value = { Told };

    ghost view = { λ a. record { moment = a.moment; entry = a.entry } };

    ghost inverse = { λ a. record { moment = a.moment; entry = a.entry } };
}

impl Stamped {
    /// The entry with this moment.
    pub fn of(moment: u64, entry: Entry) -> Stamped
        ensures { (result.moment ≡ moment) × (result.entry ≡ entry) }
    {
        Stamped { moment, entry }
    }

    /// Its moment.
    pub fn moment(&self) -> u64
        ensures { result ≡ self.now.moment }
    {
        self.moment
    }

    /// The entry.
    pub fn entry(&self) -> Entry
        ensures { result ≡ self.now.entry }
    {
        self.entry
    }
}

/// At most 1,000 entries with their moments, in order, for which it has the room from the beginning. Contracts see the list.
#[derive(Drop)]
pub struct Page {
    entries: Vec<Stamped>,
}

impl Model for Page {
    ghost use Rattle.std.specs.Prelude.{List, ◌≤◌, vec_len, vec_capacity};
    ghost use Rattle.lat_log.specs.Journals.{Told};

    ghost Value = { List Told };

    ghost view = { λ a. a.entries.items };

    ghost invariant = { λ a. (vec_len a.entries ≤ 1000) × (1000 ≤ vec_capacity a.entries) };
}

impl Page {
    /// A page without an entry, for which it takes all its memory. `Memory` where none is found.
    pub fn make(alloc: Global) -> Result<Page, Memory>
        ensures { IfOk result (λ page. page ≡ []) }
    {
        Ok(Page {
            entries: Vec::with_capacity(alloc, PAGE_ENTRIES)?,
        })
    }

    /// Whether there is no room left.
    pub fn is_full(&self) -> bool
        ensures { result ≡ nat_le 1000 (length self.now) }
    {
        self.entries.len() >= PAGE_ENTRIES
    }

    /// Adds an entry at the end. There must be room. It takes no memory.
    pub fn push(&mut self, stamped: Stamped)
        requires { length self.old < 1000 }
        ensures { self.new ≡ self.old ++ stamped ∷ [] }
    {
        self.entries.push_reserved(stamped);
    }

    /// Drops all its entries. The room stays.
    pub fn clear(&mut self)
        ensures { self.new ≡ [] }
    {
        self.entries.clear();
    }

    /// The entries, first to last.
    pub fn as_slice(&self) -> &[Stamped]
        ensures { result.now ≡ self.now }
    {
        self.entries.as_slice()
    }
}
