//! What is counted of the circuits of one end.

ghost use Rattle.std.specs.Prelude.{◌≡◌, ℕ, ◌≤◌, cond, nat_eq, vec_len, vec_capacity, IfOk};
ghost use Rattle.lat_wire.specs.ledger.Tallies.{nothing, tally_at};

use lat_base::Memory;
use std::alloc::Global;
use std::marker::Model;

/// How many circuit ids there are.
const IDS: usize = 65_536;

/// What is counted of one circuit: the messages that it formed and took, and the greatest acknowledgement that it has shown.
#[derive(Clone, Copy)]
pub struct Tally {
    pub formed: u64,
    pub taken: u64,
    pub shown: u64,
}

const NOTHING: Tally = Tally {
    formed: 0,
    taken: 0,
    shown: 0,
};

/// The tallies of one end, each found by the id of its circuit. It has room for all ids from the beginning, and grows up to the
/// greatest id of which anything was counted.
pub struct Tallies {
    table: Vec<Tally>,
}

impl Drop for Tallies {
    fn drop(self) {
        let Self { table } = self;
    }
}

impl Model for Tallies {
    ghost use Rattle.std.specs.Prelude.{List, ◌≤◌, vec_len, vec_capacity};
    ghost use Rattle.lat_wire.specs.declared.ledger.tallies.Tally.{Tally};

    ghost Value = { List Tally };

    ghost view = { λ a. a.table.items };

    ghost invariant = { λ a. (vec_len a.table ≤ 65536) × (65536 ≤ vec_capacity a.table) };
}

// Sees to it that the table has so many ids. Nothing is counted of those that come to it.
fn reach(table: &mut Vec<Tally>, ids: usize)
    requires ids { ids ≤ 65536 }
    requires room { (vec_len table.old ≤ 65536) × (65536 ≤ vec_capacity table.old) }
    ensures there { (ids ≤ vec_len table.new) × (vec_len table.new ≤ 65536) }
    ensures room { 65536 ≤ vec_capacity table.new }
    ensures same { (x : ℕ) → tally_at table.new.items x ≡ tally_at table.old.items x }
{
    while table.len() < ids {
        table.push_reserved(NOTHING);
    }
}

impl Tallies {
    /// Nothing is counted yet. Takes the memory of all ids; `Memory` where none is found.
    pub fn make(alloc: Global) -> Result<Tallies, Memory>
        ensures { IfOk result (λ made. (x : ℕ) → tally_at made x ≡ nothing) }
    {
        Ok(Tallies {
            table: Vec::with_capacity(alloc, IDS)?,
        })
    }

    /// What is counted of the circuit of this id.
    pub fn of(&self, circuit: u16) -> Tally
        ensures { result ≡ tally_at self.now circuit }
    {
        match self.table.get(circuit as usize) {
            Some(tally) => *tally,
            None => NOTHING,
        }
    }

    /// Counts this of the circuit of this id.
    pub fn set(&mut self, circuit: u16, tally: Tally)
        ensures { (x : ℕ) → tally_at self.new x
            ≡ cond (nat_eq x circuit) tally (tally_at self.old x) }
    {
        let at = circuit as usize;
        reach(&mut self.table, at + 1);
        self.table[at] = tally;
    }
}
