//! The sessions of a report while a world goes on: a row for each session of the server, in the order in which they were
//! connected, with the items that both ends have put and taken. The rows follow the events of the world: the items of its
//! answers, and the new sessions of its two ends. The definitions and the laws are those of `lat_laws`, `tales`.

mod books;
mod changes;
mod figures;
mod items;
mod names;
mod newcomer;
mod reserving;
mod row;
mod sessions;

ghost use Rattle.std.specs.Prelude.{◌≡◌, ◌≢◌, ◌+◌, ◌<◌, ◌≤◌, ℕ, List, [], map, length, slice_index, IfOk, OnOk};
ghost use Rattle.lat_machines.specs.cores.Cores.{Seat};
ghost use Rattle.lat_model.specs.sessions.Slots as slots;
ghost use Rattle.lat_laws.specs.tales.Rows as rows;
ghost use Rattle.lat_laws.specs.tales.Keeping.{no_rows, adds, connects, accepts};
ghost use Rattle.lat_replay.specs.roster.Names.{key_of, place_of};
ghost use Rattle.lat_stream.specs.Kept.{item_of};
ghost use Rattle.lat_replay.specs.roster.Rows.{ShowsFigures, IsSeat};
ghost use Rattle.lat_replay.specs.roster.Roster.{HasRows, last_row, newest, ReservedFor};

use changes::{add_at, hand_over, leave_server, put_at, reserve_at};
pub use figures::{Figures, figures_of};
pub use items::add_items;
use lat_base::{Item, Memory};
use names::Names;
pub use reserving::{reserve_for, reserve_new};
pub use row::Row;
pub use sessions::follow;
use std::alloc::Global;
use std::marker::Model;

/// How many line numbers there are.
const LINES: usize = 256;

/// A row for each session of the server, in the order in which they were connected, and for each line of both ends the place
/// of the row of its newest session.
pub struct Roster {
    rows: Vec<Row>,
    server_lines: Vec<usize>,
    node_lines: Vec<usize>,
    names: Names,
}

impl Drop for Roster {
    fn drop(self) {
        let Self {
            rows,
            server_lines,
            node_lines,
            names,
        } = self;
    }
}

impl Model for Roster {
    ghost use Rattle.std.specs.Prelude.{◌-◌, vec_capacity, vec_len};
    ghost use Rattle.lat_replay.specs.roster.Roster.{Kept, Holds};

    ghost Value = { Kept };

    ghost view = { λ a. record {
      rows = a.rows.items;
      server_lines = a.server_lines.items;
      node_lines = a.node_lines.items;
      names = a.names;
      reserved = vec_capacity a.rows - vec_len a.rows;
    } };

    ghost invariant = { λ a. Holds (record {
      rows = a.rows.items;
      server_lines = a.server_lines.items;
      node_lines = a.node_lines.items;
      names = a.names;
      reserved = 0;
    }) };
}

impl Roster {
    /// No rows, with the places of all lines. `Memory` where none is found.
    pub fn make(alloc: Global) -> Result<Roster, Memory>
        ensures { IfOk result (λ k. HasRows k no_rows) }
    {
        Ok(Roster {
            rows: Vec::new(alloc),
            server_lines: vec![in alloc; 0; LINES]?,
            node_lines: vec![in alloc; 0; LINES]?,
            names: Names::new(alloc),
        })
    }

    /// Takes room for `n` sessions more. `Memory` where none is found; the rows stay.
    pub fn reserve(&mut self, n: usize) -> Result<(), Memory>
        ensures same { (r : rows.RowsAfter) → HasRows self.old r → HasRows self.new r }
        ensures rows { OnOk result (n ≤ self.new.reserved) }
        ensures names { OnOk result (n ≤ self.new.names.reserved) }
    {
        self.rows.reserve(n)?;
        self.names.reserve(n)
    }

    /// The place, from 1 on, of the last row with these ids of the server; 0 where there is none.
    pub fn named(&self, circuit: u16, id: u8) -> usize
        ensures is { (r : rows.RowsAfter) → HasRows self.now r →
            result ≡ last_row circuit id 0 0 r.rows }
        ensures within { result ≤ length self.now.rows }
    {
        self.names.get(circuit, id)
    }

    /// The rows, in the order in which the server connected their sessions.
    pub fn rows(&self) -> &[Row]
        ensures { result.now ≡ self.now.rows }
    {
        self.rows.as_slice()
    }

    /// The place of the row of a line's newest session, 0 where it has none: of the server, or of the node.
    pub fn newest(&self, server: bool, line: u8) -> usize
        ensures { result ≡ newest self.now server line }
    {
        if server {
            self.server_lines[usize::from(line)]
        } else {
            self.node_lines[usize::from(line)]
        }
    }

    /// Takes room in the row of a line's newest session for so many items more that this end puts and takes. `Memory` where
    /// none is found; the rows stay.
    pub fn reserve_items(
        &mut self,
        server: bool,
        line: u8,
        put: usize,
        taken: usize,
    ) -> Result<(), Memory>
        ensures same { (r : rows.RowsAfter) → HasRows self.old r → HasRows self.new r }
        ensures items { OnOk result (ReservedFor self.new server line put taken) }
        ensures rows { self.old.reserved ≡ self.new.reserved }
        ensures names { self.new.names ≡ self.old.names }
    {
        let place = self.newest(server, line);
        reserve_at(self.rows.as_mut_slice(), place, server, put, taken)
    }

    /// The newest session of a line has put bytes more, for which there is room.
    pub fn puts(&mut self, server: bool, line: u8, bytes: &[u8])
        requires { ReservedFor self.old server line (length bytes.now) 0 }
        ensures shows { (r : rows.RowsAfter) →
            HasRows self.old r →
            HasRows self.new (adds server line (map slots.Byte bytes.now) [] r) }
        ensures rows { self.old.reserved ≡ self.new.reserved }
        ensures names { self.new.names ≡ self.old.names }
    {
        let place = self.newest(server, line);
        put_at(self.rows.as_mut_slice(), place, server, bytes);
    }

    /// The newest session of a line has put and taken items more, for which there is room.
    pub fn adds(&mut self, server: bool, line: u8, put: &[Item], taken: &[Item])
        requires { ReservedFor self.old server line (length put.now) (length taken.now) }
        ensures shows { (r : rows.RowsAfter) (ps ts : List slots.Item) →
            put.now ≡ map item_of ps →
            taken.now ≡ map item_of ts →
            HasRows self.old r →
            HasRows self.new (adds server line ps ts r) }
        ensures rows { self.old.reserved ≡ self.new.reserved }
        ensures names { self.new.names ≡ self.old.names }
    {
        let place = self.newest(server, line);
        add_at(self.rows.as_mut_slice(), place, server, put, taken);
    }

    /// A line of the server has a session more, with these ids. The figures of the line's session before are written down,
    /// where it had one. There is room for it.
    pub fn connects(&mut self, alloc: Global, line: u8, circuit: u16, id: u8, before: Figures)
        requires rows { 0 < self.old.reserved }
        requires names { 0 < self.old.names.reserved }
        ensures shows { (r : rows.RowsAfter) (s : Seat) (f : rows.Figures) →
            HasRows self.old r →
            IsSeat s line circuit id →
            (slice_index self.old.server_lines line ≢ 0 → ShowsFigures before f) →
            HasRows self.new (connects s f r) }
        ensures rows { self.old.reserved ≡ self.new.reserved + 1 }
        ensures names { self.old.names.reserved ≤ self.new.names.reserved + 1 }
    {
        leave_server(
            self.rows.as_mut_slice(),
            self.server_lines[usize::from(line)],
            before,
        );
        self.rows.push_reserved(Row::new(alloc, line, circuit, id));
        let place = self.rows.len();
        self.server_lines[usize::from(line)] = place;
        self.names.set(circuit, id, place);
    }

    /// A line of the node has a session more, whose row is the one at this place; at 0 it has none. The figures of the line's
    /// session before are written down, where it had a row.
    pub fn accepts(&mut self, line: u8, place: usize, before: Figures)
        requires line { 0 < line }
        requires place { place ≤ length self.old.rows }
        ensures shows { (r : rows.RowsAfter) (f : rows.Figures) →
            HasRows self.old r →
            (slice_index self.old.node_lines line ≢ 0 → ShowsFigures before f) →
            HasRows self.new (accepts line place f r) }
        ensures rows { self.old.reserved ≡ self.new.reserved }
        ensures names { self.new.names ≡ self.old.names }
    {
        hand_over(
            self.rows.as_mut_slice(),
            self.node_lines[usize::from(line)],
            before,
            place,
            line,
        );
        self.node_lines[usize::from(line)] = place;
    }
}
