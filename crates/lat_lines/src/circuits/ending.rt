//! Circuits that a core ends by itself.

ghost use Rattle.std.specs.Prelude.{◌≡◌, ◌≤◌, ◌<◌, ◌+◌, ◌&&◌, length, is_none, nat_eq, slice_index};
ghost use Rattle.lat_frames.specs.Reasons.{end_bits};
ghost use Rattle.lat_machines.specs.values.Addresses.{address};
ghost use Rattle.lat_machines.specs.cores.Cores.{Core, ends_all, with_circuits};
ghost use Rattle.lat_machines.specs.cores.Hearing.{follows, outlive_at};
ghost use Rattle.lat_lines.specs.circuits.Kept.{side_of, SameCircuits, ids};
ghost use Rattle.lat_lines.specs.circuits.Stands.{Stands, Simulates};
ghost use Rattle.lat_lines.specs.circuits.Ending.{ends_one, outlived_core};

use crate::circuits::Circuits;
use crate::circuits::hearing::is_to;
use lat_base::{Addr, OutBox};
use lat_circuit::Circuit;
use lat_frames::CircuitEnd;

/// How far behind an id another one follows it, at most, counted round 65,535.
const FOLLOWS: u32 = 32767;

impl Circuits {
    /// Ends each living circuit for this reason, by rising id, and tells its peer where its id is known: at most one frame a
    /// circuit. See "How a circuit ends" in docs/PROTOCOL.md.
    pub fn end_all(&mut self, reason: CircuitEnd, out: &mut OutBox)
        requires room { length out.old + 8 ≤ 256 }
        ensures did { Simulates (ends_all (side_of self.old) (end_bits reason))
            self.old self.new out.old out.new }
        ensures same { SameCircuits self.old self.new }
        ensures most { length out.new ≤ length out.old + 8 }
    {
        for at in 0..self.held.len() {
            self.end_at(at, reason, out);
        }
    }

    // The end of the circuit at a place, where it lives.
    fn end_at(&mut self, at: usize, reason: CircuitEnd, out: &mut OutBox)
        requires at { at < length self.old.held }
        requires room { length out.old < 256 }
        ensures did { Simulates (ends_one (side_of self.old) (end_bits reason)
            (slice_index (ids self.old) at)) self.old self.new out.old out.new }
        ensures same { SameCircuits self.old self.new }
        ensures most { length out.new ≤ length out.old + 1 }
    {
        if !self.held[at].lives() {
            return;
        }
        let circuit = &mut self.held[at];
        circuit.finish(reason, out);
    }

    /// A START of this station tells that its master has forgotten the circuits that this id of it follows: each slave among
    /// them ends, and nothing is sent. See "How a circuit ends" in docs/PROTOCOL.md.
    pub fn outlive(&mut self, from: Addr, source: u16)
        ensures state { (c : Core) → Stands self.old c →
            Stands self.new (outlived_core (address from.0) source c) }
        ensures same { SameCircuits self.old self.new }
    {
        for at in 0..self.held.len() {
            self.outlive_at(at, from, source);
        }
    }

    // So does the circuit at a place, where the id follows it.
    fn outlive_at(&mut self, at: usize, from: Addr, source: u16)
        requires at { at < length self.old.held }
        ensures state { (c : Core) →
            Stands self.old c →
            Stands self.new (with_circuits c
            (outlive_at (address from.0) source (slice_index (ids self.old) at) c.circuits)) }
        ensures same { SameCircuits self.old self.new }
    {
        if !is_outlived(&self.held[at], from, source) {
            return;
        }
        let circuit = &mut self.held[at];
        circuit.lapse(CircuitEnd::NoCircuit);
    }
}

// Whether it lives, leads to the station, and has an id there that this one follows.
fn is_outlived(circuit: &Circuit, from: Addr, source: u16) -> bool
    ensures { result ≡ (nat_eq (address circuit.now.facts.config.peer.0) (address from.0)
        && follows circuit.now.facts.peer source
        && is_none circuit.now.ended) }
{
    is_to(circuit, from) && follows(circuit.peer_id(), source) && circuit.lives()
}

// Whether an id was drawn behind another one.
fn follows(old: u16, new: u16) -> bool
    ensures { result ≡ follows old new }
{
    let behind = (u32::from(new) + 65535 - u32::from(old)) % 65535;
    behind > 0 && behind <= FOLLOWS
}
