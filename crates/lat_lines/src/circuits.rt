//! The circuits of one core: at most eight that live, found by the peer's address and by ids.

mod calls;
mod ending;
mod getters;
mod hearing;
mod info;
mod opening;
mod time;

ghost use Rattle.std.specs.Prelude.{◌≡◌, ℕ, ◌≤◌, ◌<◌, ◌+◌, [], length, replicate, position, not, is_none, vec_capacity, Some, IfOk, OnOk, OnErr};
ghost use Rattle.std.specs.List.{list_any};
ghost use Rattle.lat_machines.specs.values.Addresses.{address};
ghost use Rattle.lat_machines.specs.cores.Cores.{open_core, Core, at_moment};
ghost use Rattle.lat_frames.specs.Timings.{IsTiming};
ghost use Rattle.lat_circuit.specs.Kept.{Kept};
ghost use Rattle.lat_model.specs.Lists.{Each};
ghost use Rattle.lat_lines.specs.circuits.Kept.{side_of, with_memory, HasRooms, AreRooms, SameCore, IsClear};
ghost use Rattle.lat_lines.specs.circuits.Stands.{Stands};

pub use hearing::Hearing;
pub use info::Info;
use lat_base::{Addr, Memory, Name};
use lat_circuit::{Circuit, CircuitRoom, Timing};
use std::alloc::Global;
use std::marker::Model;

/// How many circuits live at most.
pub(crate) const CIRCUITS: usize = 8;

/// The circuits of one core, a server or a node, at the core's moment: those that live, and those that have ended since
/// `clear`, which still tell of their sessions. It takes the memory of a circuit when that is reserved, and keeps it for
/// others. Contracts say for every core of the model that it stands for (`Stands`) what it stands for afterwards. See "Circuits" and "Cores" in
/// docs/PROTOCOL.md.
pub struct Circuits {
    pub(crate) own: Addr,
    pub(crate) name: Name,
    pub(crate) timing: Timing,
    /// A server's: this end is the master of each.
    pub(crate) server: bool,
    /// The id of the circuit that is drawn first, 1 to 65,535.
    pub(crate) first: u16,
    /// How many were drawn.
    pub(crate) drawn: u16,
    /// In milliseconds.
    pub(crate) moment: u64,
    /// By rising id.
    pub(crate) held: Vec<Circuit>,
    /// The memory that no circuit has.
    pub(crate) rooms: Vec<CircuitRoom>,
}

impl Drop for Circuits {
    fn drop(self) {
        let Self {
            own,
            name,
            timing,
            server,
            first,
            drawn,
            moment,
            held,
            rooms,
        } = self;
    }
}

impl Model for Circuits {
    ghost use Rattle.std.specs.Prelude.{◌≤◌, vec_capacity};
    ghost use Rattle.lat_lines.specs.circuits.Kept.{Kept, Holds};
    ghost use Rattle.lat_lines.specs.circuits.Shown.{shown};

    ghost Value = { Kept };

    ghost view = { shown };

    ghost invariant = { λ a. Holds (shown a) × (8 ≤ vec_capacity a.held)
        × (8 ≤ vec_capacity a.rooms) };
}

// The memory of so many circuits with so many sessions.
fn rooms(alloc: Global, sessions: u8, count: usize) -> Result<Vec<CircuitRoom>, Memory>
    requires { (1 ≤ sessions) × (sessions ≤ 64) }
    ensures { IfOk result (λ v. v.items ≡ replicate count sessions) }
{
    let mut all = Vec::with_capacity(alloc, count)?;
    for _ in 0..count {
        all.push_reserved(CircuitRoom::make(alloc, sessions)?);
    }
    Ok(all)
}

// Adds these rooms, for which there is place.
fn add_all(rooms: &mut Vec<CircuitRoom>, more: Vec<CircuitRoom>)
    requires places { length rooms.old.items + length more.items ≤ 8 }
    requires capacity { 8 ≤ vec_capacity rooms.old }
    ensures length { length rooms.new.items ≡ length rooms.old.items + length more.items }
    ensures each { (n : ℕ) → Each (λ size. n ≤ size) rooms.old.items →
        Each (λ size. n ≤ size) more.items →
        Each (λ size. n ≤ size) rooms.new.items }
    ensures capacity { 8 ≤ vec_capacity rooms.new }
{
    let mut left = more;
    while let Some(room) = left.pop() {
        rooms.push_reserved(room);
    }
}

impl Circuits {
    /// No circuit yet, at moment 0, of a core with this address and name; a server's or a node's. The timing must be valid.
    /// The first circuit will have the id `first`, 1 to 65,535. No circuit has memory yet. `Memory` where there is none for
    /// their list.
    pub fn make(
        alloc: Global,
        own: Addr,
        name: Name,
        timing: Timing,
        server: bool,
        first: u16,
    ) -> Result<Circuits, Memory>
        requires timing { IsTiming timing }
        requires first { (1 ≤ first) × (first ≤ 65535) }
        ensures stands { IfOk result (λ k. Stands k (open_core (side_of k) (address own.0) first)) }
        ensures own { IfOk result (λ k. (k.own ≡ own)
            × (k.name ≡ name)
            × (k.timing ≡ timing)
            × (k.server ≡ server)
            × (k.first ≡ first)) }
        ensures none { IfOk result (λ k. (k.held ≡ []) × (k.moment ≡ 0)) }
        ensures rooms { IfOk result (λ k. k.rooms ≡ []) }
    {
        Ok(Circuits {
            own,
            name,
            timing,
            server,
            first,
            drawn: 0,
            moment: 0,
            held: Vec::with_capacity(alloc, CIRCUITS)?,
            rooms: Vec::with_capacity(alloc, CIRCUITS)?,
        })
    }

    /// Takes memory, so that there is some for `count` circuits more, or for as many as may be held. It takes none where
    /// there is that much. After `Memory` nothing has changed.
    pub fn reserve(&mut self, alloc: Global, count: usize) -> Result<(), Memory>
        ensures state { (c : Core) → Stands self.old c → Stands self.new c }
        ensures kept { self.new ≡ record self.old { rooms = self.new.rooms } }
        ensures ready { OnOk result (HasRooms count self.new) }
        ensures few { length self.old.rooms < length self.new.rooms →
            length self.new.rooms ≤ count }
        ensures err { OnErr result (self.new ≡ self.old) }
    {
        let more = self.rooms_for(alloc, count)?;
        self.add_rooms(more);
        Ok(())
    }

    /// Rooms to be added, so that there is memory for `count` circuits more, or for as many as may be held. `Memory` where
    /// none is found.
    pub fn rooms_for(&self, alloc: Global, count: usize) -> Result<Vec<CircuitRoom>, Memory>
        ensures { IfOk result (λ more. AreRooms count self.now more.items) }
    {
        rooms(alloc, self.timing.sessions, self.missing(count))
    }

    /// Adds rooms that `rooms_for` gave.
    pub fn add_rooms(&mut self, more: Vec<CircuitRoom>)
        requires most { with_memory self.old + length more.items ≤ 8 }
        requires each { Each (λ size. self.old.timing.sessions ≤ size) more.items }
        ensures state { (c : Core) → Stands self.old c → Stands self.new c }
        ensures kept { self.new ≡ record self.old { rooms = self.new.rooms } }
        ensures rooms { length self.new.rooms ≡ length self.old.rooms + length more.items }
    {
        add_all(&mut self.rooms, more);
    }

    // How many rooms are to be made, so that there are `count`, or as many as circuits may be held.
    fn missing(&self, count: usize) -> usize
        ensures enough { length self.now.rooms + result < count →
            with_memory self.now + result ≡ 8 }
        ensures few { 0 < result → length self.now.rooms + result ≤ count }
        ensures most { with_memory self.now + result ≤ 8 }
    {
        let most = CIRCUITS - self.held.len();
        count.min(most).saturating_sub(self.rooms.len())
    }

    /// Moves the core's moment on; one below the last counts as the last.
    pub fn pass(&mut self, now: u64)
        ensures state { (c : Core) → Stands self.old c → Stands self.new (at_moment now c) }
        ensures core { SameCore self.old self.new }
        ensures held { self.new.held ≡ self.old.held }
        ensures rooms { self.new.rooms ≡ self.old.rooms }
        ensures later { (now ≤ self.new.moment) × (self.old.moment ≤ self.new.moment) }
    {
        self.moment = self.moment.max(now);
    }

    /// Lets go of the circuits that have ended: nothing can be told of their sessions any more, and their memory is there
    /// for others.
    pub fn clear(&mut self)
        ensures state { (c : Core) → Stands self.old c → Stands self.new c }
        ensures core { SameCore self.old self.new }
        ensures clear { IsClear self.new }
        ensures moment { self.new.moment ≡ self.old.moment }
        ensures rooms { length self.old.rooms ≤ length self.new.rooms }
    {
        while let Some(at) = self.first_ended() {
            self.let_go(at);
        }
    }

    // Lets go of the first circuit that has ended, which stands here.
    fn let_go(&mut self, at: usize)
        requires first { position (λ (q : Kept). not (is_none q.ended)) self.old.held ≡ Some at }
        ensures state { (c : Core) → Stands self.old c → Stands self.new c }
        ensures core { SameCore self.old self.new }
        ensures moment { self.new.moment ≡ self.old.moment }
        ensures fewer { length self.new.held + 1 ≡ length self.old.held }
        ensures rooms { length self.old.rooms ≤ length self.new.rooms }
    {
        let circuit = self.held.remove(at);
        self.rooms.push_reserved(circuit.into_room());
    }

    /// Whether a circuit that has ended is held: its end can still be told.
    pub fn has_ended(&self) -> bool
        ensures { result ≡ list_any (λ (q : Kept). not (is_none q.ended)) self.now.held }
    {
        self.held.iter().any(|circuit| !circuit.lives())
    }

    // Where the first is that has ended.
    fn first_ended(&self) -> Option<usize>
        ensures { result ≡ position (λ (q : Kept). not (is_none q.ended)) self.now.held }
    {
        self.held.iter().position(|circuit| !circuit.lives())
    }
}
