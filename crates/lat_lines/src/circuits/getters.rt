//! What circuits tell. No call takes memory. Of a circuit that isn't held each tells that there is none.

ghost use Rattle.std.specs.Prelude.{◌≡◌, ◌-◌, ◌&&◌, cond, nat_eq, true, false};
ghost use Rattle.std.specs.Prelude.{length, filter, slice_get, Some, None, is_none, IfSome};
ghost use Rattle.std.specs.List.{find, position};
ghost use Rattle.std.specs.Option.{is_some, option_copied, option_map};
ghost use Rattle.lat_base.specs.declared.state.SessionState.TheVariants as states;
ghost use Rattle.lat_model.specs.Lists.{Each, upwards};
ghost use Rattle.lat_model.specs.ends.End.{End, lives};
ghost use Rattle.lat_model.specs.sessions.Session.{take_open, waits};
ghost use Rattle.lat_model.specs.sessions.Slots.{items};
ghost use Rattle.lat_machines.specs.values.Addresses.{address};
ghost use Rattle.lat_machines.specs.cores.Cores.{Core, span, is_stranger};
ghost use Rattle.lat_machines.specs.cores.Hearing.{names};
ghost use Rattle.lat_machines.specs.cores.Looks.{put_room, circuit_in_place, is_drained};
ghost use Rattle.lat_session.specs.States.{asked_at};
ghost use Rattle.lat_circuit.specs.Kept.{Kept};
ghost use Rattle.lat_circuit.specs.Info.{session_state};
ghost use Rattle.lat_circuit.specs.Looks.{circuit_look_of};
ghost use Rattle.lat_circuit.specs.Stands as circuit_stands;
ghost use Rattle.lat_lines.specs.circuits.Kept.{has_id, is_drawn, IsOwn};
ghost use Rattle.lat_lines.specs.circuits.Stands.{Stands, IsCircuit};
ghost use Rattle.lat_lines.specs.circuits.Info.{sessions_at, session_at, held_circuit, is_of_circuit};
ghost use Rattle.lat_lines.specs.circuits.Info.{telling, telling_of, ready, some_span, is_asked_at};
ghost use Rattle.lat_lines.specs.circuits.Living.{is_still, are_still};
ghost use Rattle.lat_lines.specs.Strangers.{head_with};

use crate::circuits::Circuits;
use crate::circuits::hearing::is_to;
use crate::circuits::info::Info;
use lat_base::{Addr, CircuitLook, Name, SessionState};
use lat_circuit::{Asked, Circuit};
use lat_seq::Span;

impl Circuits {
    /// The core's moment, in milliseconds.
    pub fn moment(&self) -> u64
        ensures value { result ≡ self.now.moment }
        ensures model { (c : Core) → Stands self.now c → result ≡ c.moment }
    {
        self.moment
    }

    /// The core's name.
    pub fn name(&self) -> Name
        ensures { result ≡ self.now.name }
    {
        self.name
    }

    /// Whether it is a server's.
    pub fn is_server(&self) -> bool
        ensures { result ≡ self.now.server }
    {
        self.server
    }

    /// The present or last session of an id, `None` where the circuit isn't held.
    pub fn info(&self, circuit: u16, id: u8) -> Option<Info>
        ensures model { (c : Core) → Stands self.now c →
            IfSome result (λ t. telling t ≡ telling_of c circuit id) }
        ensures held { is_some result ≡ has_id circuit self.now }
        ensures within { IfSome result (λ t. is_drawn self.now circuit ≡ true) }
        ensures side { (c : Core) →
            Stands self.now c →
            IfSome result (λ t. (sessions_at c circuit).master ≡ self.now.server) }
    {
        let held = self.circuit(circuit)?;
        Some(tell(held, id))
    }

    /// The state of the present or last session of an id: `Free` where the circuit doesn't live.
    pub fn state(&self, circuit: u16, id: u8) -> SessionState
        ensures model { (c : Core) → Stands self.now c →
            result ≡ session_state (c.circuits.circuit_at circuit).end id }
        ensures side { (c : Core) →
            Stands self.now c →
            lives (c.circuits.circuit_at circuit).end ≡ true →
            (sessions_at c circuit).master ≡ self.now.server }
    {
        self.circuit(circuit)
            .map_or(SessionState::Free, |held| held.state(id))
    }

    /// How many items `take` could give now, 0 where it would be refused.
    pub fn waiting(&self, circuit: u16, id: u8) -> u16
        ensures value { result ≡ ready self.now circuit id }
        ensures model { (c : Core) →
            Stands self.now c →
            result ≡ cond (lives (c.circuits.circuit_at circuit).end
            && take_open (session_at c circuit id))
            (length (items (session_at c circuit id).came) - (session_at c circuit id).taken)
            0 }
    {
        self.circuit(circuit).map_or(0, |held| held.waiting(id))
    }

    /// How many bytes `put` could take now, 0 where it would be refused.
    pub fn room(&self, circuit: u16, id: u8) -> u16
        ensures { (c : Core) →
            Stands self.now c →
            result ≡ cond (lives (c.circuits.circuit_at circuit).end)
            (put_room (session_at c circuit id))
            0 }
    {
        self.circuit(circuit).map_or(0, |held| held.room(id))
    }

    /// The session of an id where it waits for this end's answer on a living circuit, at a node.
    pub fn asked_at(&self, circuit: u16, id: u8) -> Option<Asked>
        ensures value { is_some result ≡ is_asked_at self.now circuit id }
        ensures model { (c : Core) →
            Stands self.now c →
            self.now.server ≡ false →
            result ≡ cond (lives (c.circuits.circuit_at circuit).end
            && waits (session_at c circuit id))
            (Some (asked_at (sessions_at c circuit) id))
            None }
    {
        let held = self.circuit(circuit)?;
        if held.lives() {
            held.asked_at(id)
        } else {
            None
        }
    }

    /// How many sessions of a held circuit wait for this end's answer, or did when it ended, at a node.
    pub fn asked_count(&self, circuit: u16) -> u8
        ensures { (c : Core) →
            Stands self.now c →
            self.now.server ≡ false →
            has_id circuit self.now ≡ true →
            result ≡ length (filter (λ id. waits (session_at c circuit id)) (upwards 0 64)) }
    {
        self.circuit(circuit).map_or(0, Circuit::asked_count)
    }

    /// Whether on each circuit that lives all sessions are free or left, and the peer has taken all messages.
    pub fn is_drained(&self) -> bool
        ensures { (c : Core) → Stands self.now c → result ≡ is_drained c }
    {
        are_still(&self.held)
    }

    /// The circuit that lives at this place of the order of ids, counted from 0. `None` exactly behind the last.
    pub fn look(&self, at: usize) -> Option<CircuitLook>
        ensures { (c : Core) → Stands self.now c →
            result ≡ option_map circuit_look_of (circuit_in_place c at) }
    {
        let circuit = nth_living(&self.held, at)?;
        Some(circuit.look())
    }

    /// Whether a circuit of this id lives.
    pub fn lives(&self, circuit: u16) -> bool
        ensures { (c : Core) → Stands self.now c →
            result ≡ lives (c.circuits.circuit_at circuit).end }
    {
        self.circuit(circuit).is_some_and(Circuit::lives)
    }

    /// Whether a RUN from a station with these ids names a living circuit whose reply was heard.
    pub fn names(&self, from: Addr, to: u16, source: u16) -> bool
        ensures { (c : Core) → Stands self.now c →
            result ≡ names c.circuits (address from.0) to source }
    {
        self.circuit(to)
            .is_some_and(|held| is_named(held, from, source))
    }

    /// Whether a RUN from a station with these ids names no living circuit, though neither id is 0.
    pub fn is_stranger(&self, from: Addr, to: u16, source: u16) -> bool
        ensures { (c : Core) → Stands self.now c →
            result ≡ is_stranger c.circuits (address from.0) (head_with to source) }
    {
        !self.names(from, to, source) && to != 0 && source != 0
    }

    /// How far the message numbers of a circuit count, `None` exactly where no circuit of this id lives.
    pub fn span(&self, circuit: u16) -> Option<Span>
        ensures { (c : Core) → Stands self.now c → result ≡ some_span (span c circuit) }
    {
        let held = self.circuit(circuit)?;
        if held.lives() {
            Some(held.span())
        } else {
            None
        }
    }

    // The circuit of this id.
    pub(crate) fn circuit(&self, id: u16) -> Option<&Circuit>
        ensures value { option_copied result ≡ held_circuit self.now id }
        ensures own { IfSome result (λ q. IsOwn self.now q.now) }
        ensures within { IfSome result (λ q. is_drawn self.now id ≡ true) }
    {
        circuit_of(&self.held, id)
    }

    // Where the circuit of this id stands.
    pub(crate) fn held_at(&self, id: u16) -> Option<usize>
        ensures { result ≡ position (λ (q : Kept). nat_eq q.facts.id id) self.now.held }
    {
        self.held.iter().position(|circuit| circuit.id() == id)
    }
}

// The circuit of this id.
fn circuit_of(held: &[Circuit], id: u16) -> Option<&Circuit>
    ensures { option_copied result ≡ find (λ (q : Kept). nat_eq q.facts.id id) held.now }
{
    held.iter().find(|circuit| circuit.id() == id)
}

// The circuit that lives at this place.
fn nth_living(held: &[Circuit], at: usize) -> Option<&Circuit>
    ensures { option_copied result
        ≡ slice_get (filter (λ (q : Kept). is_none q.ended) held.now) at }
{
    let mut living = held.iter().filter(|circuit| circuit.lives());
    living.nth(at)
}

// Whether a circuit has ended, or nothing is under way on it.
fn is_still(circuit: &Circuit) -> bool
    ensures { (e : End) → circuit_stands.Stands circuit.now e → result ≡ is_still e }
{
    !circuit.lives() || circuit.is_drained()
}

// Whether that is so of all these.
fn are_still(held: &[Circuit]) -> bool
    ensures { (c : Core) → Each (IsCircuit c) held.now → result ≡ are_still c held.now }
{
    for circuit in held {
        if !is_still(circuit) {
            return false;
        }
    }
    true
}

// What a circuit tells of a session.
fn tell(circuit: &Circuit, id: u8) -> Info
    ensures { (c : Core) → IsCircuit c circuit.now →
        telling result ≡ telling_of c circuit.now.facts.id id }
{
    let (given, used) = circuit.totals(id);
    Info {
        peer: circuit.config().peer,
        peer_circuit: circuit.peer_id(),
        peer_session: circuit.peer(id),
        given,
        used,
        end: circuit.ended(id),
        is_asked: circuit.asked_at(id).is_some(),
    }
}

// Whether a RUN from a station with this id of its circuit is for it.
fn is_named(circuit: &Circuit, from: Addr, source: u16) -> bool
    ensures { result ≡ (is_of_circuit circuit.now (address from.0) source
        && is_none circuit.now.ended
        && circuit.now.running) }
{
    is_of(circuit, from, source) && circuit.lives() && circuit.running()
}

// Whether it is the circuit to a station that has this id there.
pub(crate) fn is_of(circuit: &Circuit, from: Addr, source: u16) -> bool
    ensures { result ≡ is_of_circuit circuit.now (address from.0) source }
{
    is_to(circuit, from) && circuit.peer_id() == source
}
