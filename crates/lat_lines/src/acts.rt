//! What lines and circuits do at a time event, at a circuit message, and when a core ends circuits by itself.

ghost use Rattle.std.specs.Prelude.{◌≡◌, ◌≤◌, ◌<◌, ◌+◌, ◌&&◌, ℕ, true, false, not, is_none, [], length, map, nat_eq};
ghost use Rattle.std.specs.List.{list_any};
ghost use Rattle.lat_frames.specs.Reasons.{end_bits};
ghost use Rattle.lat_frames.specs.Written.{IsWritable};
ghost use Rattle.lat_machines.specs.values.Addresses.{address};
ghost use Rattle.lat_machines.specs.cores.Acts.{stray_at};
ghost use Rattle.lat_machines.specs.cores.Cores.{Core, acts, passes_time, ends_all};
ghost use Rattle.lat_queue.specs.Histories.{key_shown};
ghost use Rattle.lat_circuit.specs.Messages.{message_shown};
ghost use Rattle.lat_circuit.specs.Kept.{Kept};
ghost use Rattle.lat_lines.specs.circuits.Kept.{IsClear, HasRooms, has_id};
ghost use Rattle.lat_lines.specs.circuits.Hears.{heard_core, is_call, hearing_shown};
ghost use Rattle.lat_lines.specs.circuits.Ending.{outlived_core};
ghost use Rattle.lat_lines.specs.Calm.{takes_nothing};
ghost use Rattle.lat_lines.specs.Kept.{side_of, SameLines};
ghost use Rattle.lat_lines.specs.Stands.{Stands, Simulates, freed_between};

use crate::circuits::Hearing;
use crate::lines::Lines;
use lat_base::{Addr, Heard, OutBox};
use lat_circuit::stray_stop;
use lat_frames::{CircuitEnd, Message};

impl Lines {
    /// Gives each living circuit the core's moment, by rising id, and puts the frames that are due into `out`. See "What a time
    /// event does" in docs/PROTOCOL.md.
    pub fn time(&mut self, out: &mut OutBox)
        requires room { length out.old + 128 ≤ 256 }
        ensures did { Simulates (passes_time (side_of self.old)) self.old self.new out.old out.new }
        ensures same { SameLines self.old self.new }
        ensures moment { self.new.circuits.moment ≡ self.old.circuits.moment }
        ensures rooms { length self.old.circuits.rooms ≤ length self.new.circuits.rooms }
        ensures most { length out.new ≤ length out.old + 128 }
    {
        let before = out.len();
        self.circuits.time(out);
        let is_calm = self.is_calm(before, out);
        self.reap_unless(is_calm);
    }

    /// Hears a circuit message from a station, at the core's moment. No circuit that has ended may be held. See
    /// `Circuits::heard`.
    pub fn heard(&mut self, from: Addr, m: &Message, out: &mut OutBox) -> Hearing
        requires ok { IsWritable m.now }
        requires clear { IsClear self.old.circuits }
        requires memory { self.old.circuits.server ≡ false →
            is_call m.now ≡ true → HasRooms 1 self.old.circuits }
        requires room { length out.old + 16 ≤ 256 }
        ensures did { Simulates (λ c.
            (heard_core (side_of self.old) (address from.0) (message_shown m.now) c).doing)
            self.old self.new out.old out.new }
        ensures answer { (c : Core) →
            Stands self.old c →
            hearing_shown result
            ≡ (heard_core (side_of self.old) (address from.0) (message_shown m.now) c).answer }
        ensures same { SameLines self.old self.new }
        ensures moment { self.new.circuits.moment ≡ self.old.circuits.moment }
        ensures held { (x : ℕ) → has_id x self.old.circuits ≡ true →
            has_id x self.new.circuits ≡ true }
        ensures rooms { self.old.circuits.server ≡ true →
            length self.old.circuits.rooms ≤ length self.new.circuits.rooms }
        ensures most { length out.new ≤ length out.old + 1 }
    {
        let before = out.len();
        let hearing = self.circuits.heard(from, m, out);
        let is_calm = is_quiet(&hearing, before, out);
        self.reap_unless(is_calm);
        hearing
    }

    /// Ends each living circuit for this reason, as `Circuits::end_all` does. `freed` tells then whose sessions became free.
    pub fn end_all(&mut self, reason: CircuitEnd, out: &mut OutBox)
        requires room { length out.old + 8 ≤ 256 }
        ensures did { Simulates (ends_all (side_of self.old) (end_bits reason))
            self.old self.new out.old out.new }
        ensures same { SameLines self.old self.new }
        ensures moment { self.new.circuits.moment ≡ self.old.circuits.moment }
        ensures rooms { length self.old.circuits.rooms ≤ length self.new.circuits.rooms }
        ensures most { length out.new ≤ length out.old + 8 }
    {
        self.circuits.end_all(reason, out);
        self.reap();
    }

    /// Ends the slaves to this station that a START with this id of the master follows, as `Circuits::outlive` does. A prompt
    /// node calls it before it hears the START, and `clear` between the two, for the START may need the place of one of them:
    /// `outlive`, `clear`, `heard`. `freed` tells, until `clear`, whose sessions became free.
    pub fn outlive(&mut self, from: Addr, source: u16)
        ensures state { (c : Core) → Stands self.old c →
            Stands self.new (outlived_core (address from.0) source c) }
        ensures freed { (c : Core) → Stands self.old c →
            map key_shown self.new.freed ≡ freed_between c (outlived_core (address from.0) source c) }
        ensures same { SameLines self.old self.new }
        ensures moment { self.new.circuits.moment ≡ self.old.circuits.moment }
        ensures rooms { length self.old.circuits.rooms ≤ length self.new.circuits.rooms }
    {
        self.circuits.outlive(from, source);
        self.reap();
    }

    /// Answers the START of a station with a STOP of no circuit, for this reason. Nothing else changes. The id that the START
    /// states isn't 0. See "How a circuit ends" in docs/PROTOCOL.md.
    pub fn turn_away(&mut self, from: Addr, source: u16, reason: CircuitEnd, out: &mut OutBox)
        requires source { 0 < source }
        requires room { length out.old < 256 }
        ensures did { Simulates (λ c.
            acts (side_of self.old) c (stray_at false c.circuits (address from.0) source 0 (end_bits reason)))
            self.old self.new out.old out.new }
        ensures kept { self.new ≡ record self.old { freed = [] } }
        ensures most { length out.new ≤ length out.old + 1 }
    {
        self.rest();
        out.push(stray_stop(false, from, source, 0, reason));
    }

    // Whether a time left each session as its line knows it: none formed a slot, and no circuit ended.
    fn is_calm(&self, before: usize, out: &OutBox) -> bool
        ensures { result ≡ (nat_eq (length out.now) before
            && not (list_any (λ (q : Kept). not (is_none q.ended)) self.now.circuits.held)) }
    {
        out.len() == before && !self.circuits.has_ended()
    }
}

// Whether a message left each session as its line knows it: no slot was heard or formed, and no circuit ended.
fn is_quiet(hearing: &Hearing, before: usize, out: &OutBox) -> bool
    ensures { result ≡ (nat_eq (length out.now) before
        && takes_nothing (hearing_shown hearing.now)) }
{
    out.len() == before && takes_nothing(*hearing)
}

// Whether a circuit that heard it took no slot, and goes on.
fn takes_nothing(hearing: Hearing) -> bool
    ensures { result ≡ takes_nothing (hearing_shown hearing) }
{
    matches!(
        hearing,
        Hearing::Circuit(Heard::Again | Heard::AckOnly | Heard::Foreign)
    )
}
