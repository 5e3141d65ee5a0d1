//! The lines of a core.

ghost use Rattle.std.specs.Prelude.{◌≡◌, ◌<◌, ◌≤◌, ◌+◌, [], length, replicate, None, IfOk, OnOk, OnErr};
ghost use Rattle.lat_machines.specs.values.Addresses.{address};
ghost use Rattle.lat_machines.specs.cores.Cores.{open_core, Core, at_moment};
ghost use Rattle.lat_frames.specs.Timings.{IsTiming};
ghost use Rattle.lat_lines.specs.circuits.Kept.{IsClear, HasRooms, AreRooms, with_memory};
ghost use Rattle.lat_model.specs.Lists.{Each};
ghost use Rattle.lat_lines.specs.Kept.{side_of, SameLines};
ghost use Rattle.lat_lines.specs.Stands.{Stands};

use crate::circuits::Circuits;
use crate::seat::Seat;
use lat_base::{Addr, LineSession, Memory, Name};
use lat_circuit::{CircuitRoom, Timing};
use lat_queue::Key;
use std::alloc::Global;
use std::marker::Model;

/// The lines of one core, a server or a node, the sessions that they have and had, and the circuits that carry them.
/// Contracts say for every core of the model that it stands for (`Stands`) what it stands for afterwards. See "Lines and
/// their sessions" in docs/PROTOCOL.md.
pub struct Lines {
    /// How many there are, 1 to 64.
    pub(crate) count: u8,
    pub(crate) circuits: Circuits,
    /// The sessions that lines have, in the order of connecting or accepting.
    pub(crate) seats: Vec<Seat>,
    /// By line, the last session that is over.
    pub(crate) last: Vec<Option<LineSession>>,
    /// How many line sessions there ever were.
    pub(crate) made: u64,
    /// How many of them are over.
    pub(crate) finished: u32,
    /// The requests whose sessions became free in the last act, in the order of the sessions.
    pub(crate) freed: Vec<Key>,
}

impl Drop for Lines {
    fn drop(self) {
        let Self {
            count,
            circuits,
            seats,
            last,
            made,
            finished,
            freed,
        } = self;
    }
}

impl Model for Lines {
    ghost use Rattle.std.specs.Prelude.{◌≤◌, vec_capacity};
    ghost use Rattle.lat_lines.specs.Kept.{Kept, Holds};
    ghost use Rattle.lat_lines.specs.Shown.{shown};

    ghost Value = { Kept };

    ghost view = { shown };

    ghost invariant = { λ a. Holds (shown a) × (a.count ≤ vec_capacity a.seats)
        × (a.count ≤ vec_capacity a.freed) };
}

fn no_last(alloc: Global, count: u8) -> Result<Vec<Option<LineSession>>, Memory>
    ensures { IfOk result (λ v. v.items ≡ replicate count None) }
{
    let mut last = Vec::with_capacity(alloc, count as usize)?;
    for _ in 0..count {
        last.push_reserved(None);
    }
    Ok(last)
}

impl Lines {
    /// So many lines without a session, 1 to 64, of a core with this address and name at moment 0; a server's or a node's. The
    /// timing must be valid. Its first circuit will have the id `first`, 1 to 65,535. Takes all the memory that lines will need, and
    /// none for circuits; `Memory` where none is found. See "Circuits" in docs/PROTOCOL.md.
    pub fn make(
        alloc: Global,
        own: Addr,
        name: Name,
        timing: Timing,
        server: bool,
        first: u16,
        count: u8,
    ) -> Result<Lines, Memory>
        requires timing { IsTiming timing }
        requires first { (1 ≤ first) × (first ≤ 65535) }
        requires count { (1 ≤ count) × (count ≤ 64) }
        ensures stands { IfOk result (λ k. Stands k (open_core (side_of k) (address own.0) first)) }
        ensures own { IfOk result (λ k. (k.circuits.own ≡ own)
            × (k.circuits.name ≡ name)
            × (k.circuits.timing ≡ timing)
            × (k.circuits.server ≡ server)
            × (k.circuits.first ≡ first)) }
        ensures clear { IfOk result (λ k. IsClear k.circuits) }
        ensures rooms { IfOk result (λ k. k.circuits.rooms ≡ []) }
        ensures lines { IfOk result (λ k. k.lines ≡ count) }
        ensures freed { IfOk result (λ k. k.freed ≡ []) }
    {
        Ok(Lines {
            count,
            circuits: Circuits::make(alloc, own, name, timing, server, first)?,
            seats: Vec::with_capacity(alloc, count as usize)?,
            last: no_last(alloc, count)?,
            made: 0,
            finished: 0,
            freed: Vec::with_capacity(alloc, count as usize)?,
        })
    }

    /// Takes memory, so that there is some for `count` circuits more, or for as many as may live. See `Circuits::reserve`.
    pub fn reserve(&mut self, alloc: Global, count: usize) -> Result<(), Memory>
        ensures state { (c : Core) → Stands self.old c → Stands self.new c }
        ensures kept { self.new ≡ record self.old {
          circuits = record (self.old.circuits) { rooms = self.new.circuits.rooms };
        } }
        ensures ready { OnOk result (HasRooms count self.new.circuits) }
        ensures few { length self.old.circuits.rooms < length self.new.circuits.rooms →
            length self.new.circuits.rooms ≤ count }
        ensures err { OnErr result (self.new ≡ self.old) }
    {
        self.circuits.reserve(alloc, count)
    }

    /// Rooms to be added, so that there is memory for `count` circuits more, or for as many as may live. `Memory` where none
    /// is found.
    pub fn rooms_for(&self, alloc: Global, count: usize) -> Result<Vec<CircuitRoom>, Memory>
        ensures { IfOk result (λ more. AreRooms count self.now.circuits more.items) }
    {
        self.circuits.rooms_for(alloc, count)
    }

    /// Adds rooms that `rooms_for` gave.
    pub fn add_rooms(&mut self, more: Vec<CircuitRoom>)
        requires most { with_memory self.old.circuits + length more.items ≤ 8 }
        requires each { Each (λ size. self.old.circuits.timing.sessions ≤ size) more.items }
        ensures state { (c : Core) → Stands self.old c → Stands self.new c }
        ensures kept { self.new ≡ record self.old {
          circuits = record (self.old.circuits) { rooms = self.new.circuits.rooms };
        } }
        ensures rooms { length self.new.circuits.rooms
            ≡ length self.old.circuits.rooms + length more.items }
    {
        self.circuits.add_rooms(more);
    }

    /// Moves the core's moment on; one below the last counts as the last.
    pub fn pass(&mut self, now: u64)
        ensures state { (c : Core) → Stands self.old c → Stands self.new (at_moment now c) }
        ensures same { SameLines self.old self.new }
        ensures clear { IsClear self.old.circuits → IsClear self.new.circuits }
        ensures later { (now ≤ self.new.circuits.moment)
            × (self.old.circuits.moment ≤ self.new.circuits.moment) }
        ensures seats { self.new.seats ≡ self.old.seats }
        ensures freed { self.new.freed ≡ self.old.freed }
        ensures rooms { self.new.circuits.rooms ≡ self.old.circuits.rooms }
    {
        self.circuits.pass(now);
    }

    /// Lets go of the circuits that have ended, as `Circuits::clear` does, and of the requests that `freed` told.
    pub fn clear(&mut self)
        ensures state { (c : Core) → Stands self.old c → Stands self.new c }
        ensures same { SameLines self.old self.new }
        ensures clear { IsClear self.new.circuits }
        ensures freed { self.new.freed ≡ [] }
        ensures rooms { length self.old.circuits.rooms ≤ length self.new.circuits.rooms }
        ensures moment { self.new.circuits.moment ≡ self.old.circuits.moment }
    {
        self.circuits.clear();
        self.freed.clear();
    }

    /// The requests whose sessions became free in the last act, in the order of the sessions.
    pub fn freed(&self) -> &[Key]
        ensures { result.now ≡ self.now.freed }
    {
        self.freed.as_slice()
    }
}
