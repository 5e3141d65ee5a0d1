//! The row of one session.

ghost use Rattle.std.specs.Prelude.{◌≡◌, ◌+◌, ◌≤◌, ◌++◌, [], ◌∷◌, ℕ, List, length, map, vec_len, vec_capacity, OnOk};
ghost use Rattle.lat_model.specs.sessions.Slots as slots;
ghost use Rattle.lat_base.specs.declared.item.Item.TheVariants.{Byte};
ghost use Rattle.lat_machines.specs.cores.Cores.{Seat};
ghost use Rattle.lat_laws.specs.tales.Rows as rows;
ghost use Rattle.lat_laws.specs.tales.Keeping.{new_row, with_items};
ghost use Rattle.lat_stream.specs.Kept.{item_of};
ghost use Rattle.lat_replay.specs.roster.Rows.{IsSeat, ShowsRow, HasReserved};

use crate::roster::figures::Figures;
use lat_base::{Item, Memory};
use std::alloc::Global;

/// The items that went one way: those that the sending end put, and those that the other end's Takes gave.
pub struct Flow {
    pub put: Vec<Item>,
    pub taken: Vec<Item>,
}

impl Drop for Flow {
    fn drop(self) {
        let Self { put, taken } = self;
    }
}

/// What is kept of one session of the server. `node_line` is the line that the node gave it, if it gave one. The figures are
/// those that were written down when the line of that end got another session.
pub struct Row {
    pub line: u8,
    /// The server's ids of circuit and session.
    pub circuit: u16,
    pub id: u8,
    pub node_line: Option<u8>,
    /// From the server to the node.
    pub up: Flow,
    /// From the node to the server.
    pub down: Flow,
    pub server: Figures,
    pub node: Figures,
}

impl Drop for Row {
    fn drop(self) {
        let Self {
            line,
            circuit,
            id,
            node_line,
            up,
            down,
            server,
            node,
        } = self;
    }
}

impl Flow {
    /// Nothing yet. It takes no memory.
    pub(crate) fn new(alloc: Global) -> Flow
        ensures put { result.put.items ≡ [] }
        ensures taken { result.taken.items ≡ [] }
    {
        Flow {
            put: Vec::new(alloc),
            taken: Vec::new(alloc),
        }
    }
}

impl Row {
    /// The row of a session of which nothing is told yet. It takes no memory.
    pub(crate) fn new(alloc: Global, line: u8, circuit: u16, id: u8) -> Row
        ensures { (s : Seat) → IsSeat s line circuit id → ShowsRow result (new_row s) }
    {
        Row {
            line,
            circuit,
            id,
            node_line: None,
            up: Flow::new(alloc),
            down: Flow::new(alloc),
            server: Figures::NONE,
            node: Figures::NONE,
        }
    }

    // The session at this end has put bytes more, for which there is room.
    pub(crate) fn puts(&mut self, server: bool, bytes: &[u8])
        requires { HasReserved server (length bytes.now) 0 self.old }
        ensures { (r : rows.RowAfter) →
            ShowsRow self.old r →
            ShowsRow self.new (with_items server (map slots.Byte bytes.now) [] r) }
    {
        if server {
            add_bytes(&mut self.up.put, bytes);
        } else {
            add_bytes(&mut self.down.put, bytes);
        }
    }

    // The session at this end has put these items more and taken those, for which there is room.
    pub(crate) fn adds(&mut self, server: bool, put: &[Item], taken: &[Item])
        requires { HasReserved server (length put.now) (length taken.now) self.old }
        ensures { (r : rows.RowAfter) (ps ts : List slots.Item) →
            put.now ≡ map item_of ps →
            taken.now ≡ map item_of ts →
            ShowsRow self.old r →
            ShowsRow self.new (with_items server ps ts r) }
    {
        if server {
            add_items(&mut self.up.put, put);
            add_items(&mut self.down.taken, taken);
        } else {
            add_items(&mut self.down.put, put);
            add_items(&mut self.up.taken, taken);
        }
    }

    // Takes room for so many items more that the session at this end puts and takes.
    pub(crate) fn reserve(&mut self, server: bool, put: usize, taken: usize) -> Result<(), Memory>
        ensures same { (r : rows.RowAfter) → ShowsRow self.old r → ShowsRow self.new r }
        ensures reserved { OnOk result (HasReserved server put taken self.new) }
    {
        if server {
            self.up.put.reserve(put)?;
            self.down.taken.reserve(taken)?;
        } else {
            self.down.put.reserve(put)?;
            self.up.taken.reserve(taken)?;
        }
        Ok(())
    }
}

// Adds bytes, for which there is room.
pub(crate) fn add_bytes(list: &mut Vec<Item>, bytes: &[u8])
    requires { vec_len list.old + length bytes.now ≤ vec_capacity list.old }
    ensures { list.new.items ≡ list.old.items ++ map Byte bytes.now }
{
    for byte in bytes {
        list.push_reserved(Item::Byte(*byte));
    }
}

// Adds items, for which there is room.
pub(crate) fn add_items(list: &mut Vec<Item>, items: &[Item])
    requires { vec_len list.old + length items.now ≤ vec_capacity list.old }
    ensures { list.new.items ≡ list.old.items ++ items.now }
{
    for item in items {
        list.push_reserved(*item);
    }
}
