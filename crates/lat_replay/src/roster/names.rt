//! The rows by the ids of their sessions.

ghost use Rattle.std.specs.Prelude.{◌≡◌, ◌+◌, ◌<◌, ◌≤◌, cond, OnOk};
ghost use Rattle.lat_replay.specs.roster.Names.{key_of, place_of, same_key};
ghost use Rattle.lat_replay.specs.declared.roster.names.RowKey.{RowKey};

use indexmap::IndexMap;
use lat_base::Memory;
use std::alloc::Global;
use std::marker::Model;

/// The server's ids of the circuit and of the session.
#[derive(Clone, Copy, PartialEq, Eq, Hash)]
pub(crate) struct RowKey {
    circuit: u16,
    id: u8,
}

/// For each circuit and session id of the server the place, from 1 on, of the last row that has them. Contracts see the places
/// as a function of the ids, and for how many more there is room.
pub(crate) struct Names {
    places: IndexMap<RowKey, usize>,
}

impl Drop for Names {
    fn drop(self) {
        let Self { places } = self;
    }
}

impl Model for Names {
    ghost use Rattle.indexmap.specs.IndexMap.{spare};
    ghost use Rattle.lat_replay.specs.roster.Names.{Names};

    ghost Value = { Names };

    ghost view = { λ a. record { entries = a.places.entries; reserved = spare a.places } };
}

impl Names {
    /// No places. It takes no memory.
    pub(crate) fn new(alloc: Global) -> Names
        ensures { (key : RowKey) → place_of result key ≡ 0 }
    {
        Names {
            places: IndexMap::new(alloc),
        }
    }

    /// Takes room for `n` more. `Memory` where none is found.
    pub(crate) fn reserve(&mut self, n: usize) -> Result<(), Memory>
        ensures same { (key : RowKey) → place_of self.new key ≡ place_of self.old key }
        ensures ok { OnOk result (n ≤ self.new.reserved) }
    {
        self.places.reserve(n)?;
        Ok(())
    }

    /// Notes the place of the last row with these ids, for which there is room.
    pub(crate) fn set(&mut self, circuit: u16, id: u8, place: usize)
        requires { 0 < self.old.reserved }
        ensures place { (k : RowKey) → place_of self.new k
            ≡ cond (same_key (key_of circuit id) k) place (place_of self.old k) }
        ensures reserved { self.old.reserved ≤ self.new.reserved + 1 }
    {
        let Ok(_) = self.places.insert(RowKey { circuit, id }, place) else {
            unreachable!()
        };
    }

    /// The place of the last row with these ids, 0 where there is none.
    pub(crate) fn get(&self, circuit: u16, id: u8) -> usize
        ensures { result ≡ place_of self.now (key_of circuit id) }
    {
        match self.places.get(&RowKey { circuit, id }) {
            Some(place) => *place,
            None => 0,
        }
    }
}
