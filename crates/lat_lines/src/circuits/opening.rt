//! Circuits that a server calls.

ghost use Rattle.std.specs.Prelude.{◌≡◌, ℕ, ◌≤◌, ◌<◌, ◌+◌, ◌&&◌, if◌then◌else◌, true, suc, nat_eq, nat_lt};
ghost use Rattle.std.specs.Prelude.{length, count_by, is_none, is_ok, Ok, Err, IfSome, vec_len, vec_capacity};
ghost use Rattle.std.specs.List.{find, position};
ghost use Rattle.std.specs.Option.{option_map};
ghost use Rattle.lat_model.specs.circuits.Arriving.{living};
ghost use Rattle.lat_model.specs.sessions.Calls.{Connect};
ghost use Rattle.lat_model.specs.sessions.Sessions.{held, least_free};
ghost use Rattle.lat_model.specs.ends.End.{End, lives};
ghost use Rattle.lat_machines.specs.values.Addresses.{address};
ghost use Rattle.lat_machines.specs.cores.Cores.{Core, circuit_to};
ghost use Rattle.lat_machines.specs.server.Server.{has_room};
ghost use Rattle.lat_session.specs.Table as table;
ghost use Rattle.lat_frames.specs.Timings.{IsTiming};
ghost use Rattle.lat_circuit.specs.Kept.{Kept};
ghost use Rattle.lat_circuit.specs.Stands as circuit_stands;
ghost use Rattle.lat_lines.specs.circuits.Kept.{side_of, next_id, held_with, SameCore, SameCircuits, has_id, IsClear};
ghost use Rattle.lat_lines.specs.circuits.Stands.{Stands, Simulates, calling};
ghost use Rattle.lat_lines.specs.circuits.Info.{sessions_at};
ghost use Rattle.lat_lines.specs.circuits.Living.{has_room_at};
ghost use Rattle.lat_lines.specs.circuits.Opens.{id_or_zero, called_core};

use crate::circuits::Circuits;
use crate::circuits::hearing::is_to;
use lat_base::{Addr, Name, OutBox};
use lat_circuit::{Circuit, SessionFault};

impl Circuits {
    /// The id of the living circuit to a station, `None` where none lives.
    pub fn to(&self, peer: Addr) -> Option<u16>
        ensures model { (c : Core) → Stands self.now c →
            id_or_zero result ≡ circuit_to c (address peer.0) }
        ensures lives { (c : Core) → Stands self.now c →
            IfSome result (λ id. lives (c.circuits.circuit_at id).end ≡ true) }
    {
        id_to(&self.held, peer)
    }

    /// How many circuits live, at most 8.
    pub fn living(&self) -> usize
        ensures model { (c : Core) → Stands self.now c → result ≡ living c.circuits }
        ensures value { IsClear self.now → result ≡ length self.now.held }
        ensures most { result ≤ 8 }
    {
        count_living(&self.held)
    }

    /// How many circuits were drawn, 65,535 at most.
    pub fn drawn(&self) -> u16
        ensures value { result ≡ self.now.drawn }
        ensures model { (c : Core) → Stands self.now c → result ≡ c.circuits.drawn }
    {
        self.drawn
    }

    /// Whether a living circuit holds fewer sessions than were agreed. False where no circuit of this id lives.
    pub fn has_room(&self, circuit: u16) -> bool
        ensures value { result ≡ has_room_at self.now circuit }
        ensures model { (c : Core) →
            Stands self.now c →
            result ≡ (lives (c.circuits.circuit_at circuit).end && has_room c circuit) }
    {
        match self.circuit(circuit) {
            Some(held) => held.lives() && has_room(held),
            None => false,
        }
    }

    /// Calls a circuit to a station whose node has this name, and gives its id. Fewer than 8 must live, none that has ended may
    /// be held, fewer than 65,535 ids may be drawn, and there must be memory for a circuit more (`reserve`). START is put into `out`. See "Calling" in docs/PROTOCOL.md.
    pub fn call(&mut self, peer: Addr, node: &Name, out: &mut OutBox) -> u16
        requires server { self.old.server ≡ true }
        requires few { length self.old.held < 8 }
        requires ids { self.old.drawn < 65535 }
        requires memory { 0 < length self.old.rooms }
        requires room { length out.old + 16 ≤ 256 }
        ensures did { Simulates (called_core (side_of self.old)
            (address peer.0) node.now) self.old self.new out.old out.new }
        ensures id { result ≡ next_id self.old }
        ensures free { has_room_at self.new result ≡ true }
        ensures drawn { self.new.drawn ≡ suc self.old.drawn }
        ensures core { SameCore self.old self.new }
        ensures moment { self.new.moment ≡ self.old.moment }
        ensures clear { IsClear self.old → IsClear self.new }
        ensures held { length self.new.held ≡ suc (length self.old.held) }
        ensures rooms { length self.new.rooms + 1 ≡ length self.old.rooms }
        ensures ids { (x : ℕ) → has_id x self.old ≡ true → has_id x self.new ≡ true }
        ensures timing { IsTiming self.old.timing }
        ensures most { length out.new ≤ length out.old + 1 }
    {
        let config = self.config_to(peer, *node);
        let id = self.next_id();
        let Some(room) = self.rooms.pop() else {
            unreachable!()
        };
        let circuit = Circuit::call_in(room, &config, id, self.moment, out);
        hold(&mut self.held, circuit);
        self.drawn += 1;
        id
    }

    // The id of the circuit that is drawn next: behind 65,535 comes 1.
    pub(crate) fn next_id(&self) -> u16
        requires ids { self.now.drawn < 65535 }
        ensures { result ≡ next_id self.now }
    {
        let up = u16::MAX - (self.first - 1);
        if self.drawn < up {
            self.first + self.drawn
        } else {
            self.drawn - up + 1
        }
    }

    /// Asks for a session with a service on a living circuit, which may answer a request, and gives its id. `Full` exactly where
    /// no such circuit lives or `has_room` is false. At a server alone.
    pub fn connect(
        &mut self,
        circuit: u16,
        service: &Name,
        request: Option<u16>,
    ) -> Result<u8, SessionFault>
        requires server { self.old.server ≡ true }
        ensures answer { (c : Core) →
            Stands self.old c →
            result ≡ (if lives (c.circuits.circuit_at circuit).end && has_room c circuit
            then Ok (least_free (sessions_at c circuit))
            else Err SessionFault.Full) }
        ensures room { is_ok result ≡ has_room_at self.old circuit }
        ensures state { (c : Core) →
            Stands self.old c →
            Stands self.new (calling (side_of self.old) circuit (Connect service.now request) c) }
        ensures same { SameCircuits self.old self.new }
        ensures clear { IsClear self.old → IsClear self.new }
    {
        let at = self.living_at(circuit).ok_or(SessionFault::Full)?;
        let circuit = &mut self.held[at];
        circuit.connect(service, request)
    }
}

// One circuit more is held, behind those of lower ids.
pub(crate) fn hold(held: &mut Vec<Circuit>, circuit: Circuit)
    requires room { vec_len held.old < vec_capacity held.old }
    ensures items { held.new.items ≡ held_with circuit held.old.items }
    ensures capacity { vec_capacity held.old ≤ vec_capacity held.new }
{
    let at = first_above(held.as_slice(), circuit.id()).unwrap_or(held.len());
    let Ok(()) = held.insert(at, circuit) else {
        unreachable!()
    };
}

// Where the first circuit of a higher id stands.
fn first_above(held: &[Circuit], id: u16) -> Option<usize>
    ensures { result ≡ position (λ (q : Kept). nat_lt id q.facts.id) held.now }
{
    held.iter().position(|circuit| id < circuit.id())
}

// The id of the living circuit to a station.
fn id_to(held: &[Circuit], peer: Addr) -> Option<u16>
    ensures { result ≡ option_map (λ (q : Kept). q.facts.id)
        (find (λ (q : Kept). is_none q.ended
        && nat_eq (address q.facts.config.peer.0) (address peer.0)) held.now) }
{
    let found = held
        .iter()
        .find(|circuit| is_alive(circuit) && is_to(circuit, peer))?;
    Some(found.id())
}

fn count_living(held: &[Circuit]) -> usize
    ensures { result ≡ count_by (λ (q : Kept). is_none q.ended) held.now }
{
    held.iter().filter(|circuit| is_alive(circuit)).count()
}

fn is_alive(circuit: &Circuit) -> bool
    ensures { result ≡ is_none circuit.now.ended }
{
    circuit.lives()
}

fn has_room(circuit: &Circuit) -> bool
    ensures value { result ≡ table.has_room circuit.now.sessions }
    ensures model { (e : End) →
        circuit_stands.Stands circuit.now e →
        result ≡ nat_lt (held e.half.sessions) e.half.sessions.agreed }
{
    circuit.held() < circuit.agreed()
}
