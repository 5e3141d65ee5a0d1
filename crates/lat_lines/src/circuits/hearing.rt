//! What circuits do at a circuit message.

ghost use Rattle.std.specs.Prelude.{◌≡◌, ℕ, ◌≤◌, ◌<◌, ◌+◌, ◌&&◌, true, false, cond, nat_eq, nat_lt};
ghost use Rattle.std.specs.Prelude.{length, position, slice_index};
ghost use Rattle.lat_frames.specs.Conditions.{InfoFits};
ghost use Rattle.lat_frames.specs.Written.{IsWritable};
ghost use Rattle.lat_model.specs.circuits.Ids.{next_id as next_drawn};
ghost use Rattle.lat_machines.specs.values.Addresses.{address};
ghost use Rattle.lat_machines.specs.values.Answers.{Circuit as CircuitAnswer};
ghost use Rattle.lat_machines.specs.cores.Cores.{Core};
ghost use Rattle.lat_machines.specs.cores.Hearing.{Makes, Refuses};
ghost use Rattle.lat_machines.specs.node.Node.{start_answer};
ghost use Rattle.lat_circuit.specs.Kept.{Kept};
ghost use Rattle.lat_circuit.specs.Hears.{heard_shown};
ghost use Rattle.lat_circuit.specs.Messages.{info_shown, message_shown};
ghost use Rattle.lat_lines.specs.circuits.Kept.{side_of, ids, next_id, HasRooms, SameCore, SameCircuits, has_id, IsClear};
ghost use Rattle.lat_lines.specs.circuits.Stands.{Stands, Simulates};
ghost use Rattle.lat_lines.specs.circuits.Hears.{heard_core, hears_named, hears_at, start_core, new_fact, is_call, hearing_shown};

use crate::circuits::opening::hold;
use crate::circuits::{CIRCUITS, Circuits};
use lat_base::{Addr, Heard, Name, OutBox};
use lat_circuit::{Circuit, CircuitConfig, stray_stop};
use lat_frames::{CircuitEnd, Message, StartInfo};

/// What became of a circuit message.
#[derive(Clone, Copy)]
pub enum Hearing {
    /// A circuit heard it and answered so; `Foreign` where it names none.
    Circuit(Heard),
    /// A START that made a circuit, which has this id here.
    Started(u16),
    /// A START for which there was no circuit or no id left. A STOP goes back.
    Refused,
}

impl Circuits {
    /// Hears a circuit message from a station, at the core's moment: the circuit that it names by address and ids does what it
    /// asks for. At a node a START of a master that is new makes a slave, for which there must be memory (`reserve`); one of a
    /// living slave is heard by it. No circuit that has ended may be held. At most one frame is put into `out`. See
    /// "Calling" and "Hearing a RUN" in docs/PROTOCOL.md.
    pub fn heard(&mut self, from: Addr, m: &Message, out: &mut OutBox) -> Hearing
        requires ok { IsWritable m.now }
        requires clear { IsClear self.old }
        requires memory { self.old.server ≡ false → is_call m.now ≡ true → HasRooms 1 self.old }
        requires room { length out.old + 16 ≤ 256 }
        ensures did { Simulates (λ c.
            (heard_core (side_of self.old) (address from.0) (message_shown m.now) c).doing)
            self.old self.new out.old out.new }
        ensures answer { (c : Core) →
            Stands self.old c →
            hearing_shown result
            ≡ (heard_core (side_of self.old) (address from.0) (message_shown m.now) c).answer }
        ensures core { SameCore self.old self.new }
        ensures moment { self.new.moment ≡ self.old.moment }
        ensures held { (x : ℕ) → has_id x self.old ≡ true → has_id x self.new ≡ true }
        ensures rooms { self.old.server ≡ true → length self.old.rooms ≤ length self.new.rooms }
        ensures most { length out.new ≤ length out.old + 1 }
    {
        match m {
            Message::Run { head, .. } => self.heard_by(head.to, from, m, out),
            Message::Wide { head, .. } => self.heard_by(head.to, from, m, out),
            Message::Start {
                master: true,
                from: source,
                info,
                ..
            } => {
                if self.server {
                    return Hearing::Circuit(Heard::Foreign);
                }
                match self.slave_of(from, *source) {
                    Some(at) => Hearing::Circuit(self.hear_at(at, m, out)),
                    None => self.make_slave(from, *source, info, out),
                }
            }
            Message::Start { to, .. } => {
                if self.server {
                    self.heard_by(*to, from, m, out)
                } else {
                    Hearing::Circuit(Heard::Foreign)
                }
            }
            Message::Stop { to, .. } => self.heard_by(*to, from, m, out),
        }
    }

    // The living circuit of this id to this station hears it.
    fn heard_by(&mut self, id: u16, from: Addr, m: &Message, out: &mut OutBox) -> Hearing
        requires ok { IsWritable m.now }
        requires clear { IsClear self.old }
        requires room { length out.old + 16 ≤ 256 }
        ensures did { Simulates (λ c.
            (hears_named (side_of self.old) id (address from.0) (message_shown m.now) c).doing)
            self.old self.new out.old out.new }
        ensures answer { (c : Core) →
            Stands self.old c →
            hearing_shown result
            ≡ (hears_named (side_of self.old) id (address from.0)
            (message_shown m.now) c).answer }
        ensures same { SameCircuits self.old self.new }
        ensures most { length out.new ≤ length out.old + 1 }
    {
        match self.find(id, from) {
            Some(at) => Hearing::Circuit(self.hear_at(at, m, out)),
            None => Hearing::Circuit(Heard::Foreign),
        }
    }

    // The circuit at a place hears it.
    fn hear_at(&mut self, at: usize, m: &Message, out: &mut OutBox) -> Heard
        requires at { at < length self.old.held }
        requires ok { IsWritable m.now }
        requires clear { IsClear self.old }
        requires room { length out.old + 16 ≤ 256 }
        ensures did { Simulates (λ c.
            (hears_at (side_of self.old) (slice_index (ids self.old) at)
            (message_shown m.now) c).doing)
            self.old self.new out.old out.new }
        ensures answer { (c : Core) →
            Stands self.old c →
            CircuitAnswer (heard_shown result)
            ≡ (hears_at (side_of self.old) (slice_index (ids self.old) at)
            (message_shown m.now) c).answer }
        ensures same { SameCircuits self.old self.new }
        ensures most { length out.new ≤ length out.old + 1 }
    {
        let circuit = &mut self.held[at];
        circuit.heard(m, self.moment, out)
    }

    // Where the circuit of this id to this station stands.
    fn find(&self, id: u16, from: Addr) -> Option<usize>
        ensures { result ≡ position (λ (q : Kept). nat_eq q.facts.id id
            && nat_eq (address q.facts.config.peer.0) (address from.0)) self.now.held }
    {
        self.held
            .iter()
            .position(|circuit| circuit.id() == id && is_to(circuit, from))
    }

    // Where the slave stands whose master has this address and this id of the circuit.
    fn slave_of(&self, from: Addr, source: u16) -> Option<usize>
        ensures { result ≡ position (λ (q : Kept). nat_eq q.facts.peer source
            && nat_eq (address q.facts.config.peer.0) (address from.0)) self.now.held }
    {
        self.held.iter().position(|circuit| circuit.peer_id() == source && is_to(circuit, from))
    }

    // A START of a master that is new, at a node, where no circuit that has ended is held: it makes a slave, or is refused.
    fn make_slave(&mut self, from: Addr, source: u16, info: &StartInfo, out: &mut OutBox) -> Hearing
        requires node { self.old.server ≡ false }
        requires info { InfoFits true info.now }
        requires source { 0 < source }
        requires clear { IsClear self.old }
        requires memory { HasRooms 1 self.old }
        requires room { length out.old + 16 ≤ 256 }
        ensures did { Simulates (λ c.
            (start_core (side_of self.old) c (address from.0) source (info_shown info.now)
            (new_fact c.circuits)).doing)
            self.old self.new out.old out.new }
        ensures answer { (c : Core) → Stands self.old c →
            hearing_shown result ≡ start_answer (new_fact c.circuits) }
        ensures core { SameCore self.old self.new }
        ensures moment { self.new.moment ≡ self.old.moment }
        ensures held { (x : ℕ) → has_id x self.old ≡ true → has_id x self.new ≡ true }
        ensures most { length out.new ≤ length out.old + 1 }
    {
        if self.has_place() {
            Hearing::Started(self.answer_start(from, source, info, out))
        } else {
            out.push(stray_stop(false, from, source, 0, CircuitEnd::NoResources));
            Hearing::Refused
        }
    }

    // Whether one more circuit may be held, and an id is left for it.
    fn has_place(&self) -> bool
        ensures value { result ≡ (nat_lt (length self.now.held) 8 && nat_lt self.now.drawn 65535) }
        ensures model { (c : Core) →
            Stands self.now c →
            IsClear self.now →
            new_fact c.circuits ≡ cond result (Makes (next_drawn c.circuits)) Refuses }
    {
        self.held.len() < CIRCUITS && self.drawn < u16::MAX
    }

    // Makes a slave, and gives its id.
    fn answer_start(&mut self, from: Addr, source: u16, info: &StartInfo, out: &mut OutBox) -> u16
        requires node { self.old.server ≡ false }
        requires info { InfoFits true info.now }
        requires source { 0 < source }
        requires few { length self.old.held < 8 }
        requires ids { self.old.drawn < 65535 }
        requires memory { 0 < length self.old.rooms }
        requires room { length out.old + 16 ≤ 256 }
        ensures did { Simulates (λ c.
            (start_core (side_of self.old) c (address from.0) source (info_shown info.now)
            (Makes (next_drawn c.circuits))).doing)
            self.old self.new out.old out.new }
        ensures id { result ≡ next_id self.old }
        ensures core { SameCore self.old self.new }
        ensures moment { self.new.moment ≡ self.old.moment }
        ensures held { (x : ℕ) → has_id x self.old ≡ true → has_id x self.new ≡ true }
        ensures most { length out.new ≤ length out.old + 1 }
    {
        let config = self.config_to(from, info.name);
        let id = self.next_id();
        let Some(room) = self.rooms.pop() else {
            unreachable!()
        };
        let circuit = Circuit::answer_in(room, &config, id, source, info, self.moment, out);
        hold(&mut self.held, circuit);
        self.drawn += 1;
        id
    }

    // What a circuit to this station is made of.
    pub(crate) fn config_to(&self, peer: Addr, peer_name: Name) -> CircuitConfig
        ensures { result ≡ record {
          own = self.now.own;
          peer = peer;
          name = self.now.name;
          peer_name = peer_name;
          timing = self.now.timing;
        } }
    {
        CircuitConfig {
            own: self.own,
            peer,
            name: self.name,
            peer_name,
            timing: self.timing,
        }
    }
}

// Whether the circuit leads to this station.
pub(crate) fn is_to(circuit: &Circuit, station: Addr) -> bool
    ensures { result ≡ nat_eq (address circuit.now.facts.config.peer.0) (address station.0) }
{
    circuit.config().peer == station
}
