//! What an end does at a RUN.

ghost use Rattle.std.specs.Prelude.{◌≡◌, ◌+◌, ◌*◌, ◌<◌, ◌≤◌, ◌&&◌, true, false, map, length, nat_eq, is_err, is_ok, None, OnErr};
ghost use Rattle.std.specs.List.{AllByRecursion};
ghost use Rattle.lat_model.specs.ends.End.{End};
ghost use Rattle.lat_model.specs.ends.Run.{ack_end};
ghost use Rattle.lat_model.specs.numbers.Link.{is_unsent};
ghost use Rattle.lat_model.specs.sessions.Hearing.{hear_all};
ghost use Rattle.lat_model.specs.sessions.Sessions.{Sessions as States};
ghost use Rattle.lat_machines.specs.cores.Hearing.{fits_kind};
ghost use Rattle.lat_machines.specs.values.Timing.{half_range};
ghost use Rattle.lat_seq.specs.Spans.{half};
ghost use Rattle.lat_slots.specs.Layout.{IsWritable};
ghost use Rattle.lat_stream.specs.Wire.{slot_heard};
ghost use Rattle.lat_session.specs.Stands.{Stands as SessionsStand};
ghost use Rattle.lat_session.specs.Table.{SameEnd};
ghost use Rattle.lat_circuit.specs.Applies.{number_heard, ack_heard, apply_slots, apply_body, apply, applied_step, slave_occasion, Applies, GoesOn};
ghost use Rattle.lat_circuit.specs.Messages.{wide_head_shown};
ghost use Rattle.lat_circuit.specs.Hears.{hears_run, SimulatesHearing, Remains};
ghost use Rattle.lat_circuit.specs.Stands.{Stands, Simulates};
ghost use Rattle.lat_circuit.specs.Steps.{Keeps};

use crate::circuit::Circuit;
use lat_base::{Heard, OutBox};
use lat_frames::{CircuitEnd, WideHead};
use lat_seq::AckFact;
use lat_session::Sessions;
use lat_slots::Slot;

/// A RUN that breaks the circuit: it acknowledges what was never sent, or has a bad slot.
#[derive(Clone, Copy)]
pub(crate) struct Broken;

impl Circuit {
    /// Hears a RUN from the peer's address. The numbers of one that isn't wide are below 256. See "Hearing a RUN" in
    /// docs/PROTOCOL.md.
    pub(crate) fn hear_run(
        &mut self,
        wide: bool,
        head: WideHead,
        slots: &[Slot],
        now: u64,
        out: &mut OutBox,
    ) -> Heard
        requires lives { self.old.ended ≡ None }
        requires room { length out.old < 256 }
        requires moment { self.old.moments.now ≤ now }
        requires fields { wide ≡ false → (head.seq < 256) × (head.ack < 256) }
        requires slots { (length slots.now < 256) × AllByRecursion IsWritable slots.now }
        ensures did { SimulatesHearing (hears_run self.old.facts.id now wide (wide_head_shown head)
            (map slot_heard slots.now)) result
            self.old self.new out.old out.new }
        ensures remains { Remains now self.old self.new }
        ensures most { length out.new ≤ length out.old + 1 }
    {
        if !self.is_named(head.to, head.from) {
            return Heard::Foreign;
        }
        self.moments.now = now;
        if !self.fits_kind(head.master, wide) {
            return Heard::Foreign;
        }
        self.moments.heard_at = now;
        self.heard_run = true;
        self.take_run(&head, slots, out)
    }

    // Whether these are the ids of both ends, and this end runs.
    fn is_named(&self, to: u16, from: u16) -> bool
        ensures model { (e : End) → Stands self.now e →
            result ≡ nat_eq to self.now.facts.id && (nat_eq from e.peer && e.running) }
        ensures running { result ≡ true → self.now.running ≡ true }
    {
        let ids = self.link.ids();
        to == ids.from && from == ids.to && self.running
    }

    // Whether the master bit is the peer's, and the kind of RUN the circuit's.
    fn fits_kind(&self, master: bool, wide: bool) -> bool
        ensures model { (e : End) → Stands self.now e → result ≡ fits_kind e master wide }
        ensures kind { result ≡ true → half_range wide ≡ half self.now.link.sending.span }
    {
        master != self.link.ids().master && wide == self.is_wide()
    }

    // Hears a RUN that belongs to the circuit.
    fn take_run(&mut self, head: &WideHead, slots: &[Slot], out: &mut OutBox) -> Heard
        requires lives { self.old.ended ≡ None }
        requires running { self.old.running ≡ true }
        requires room { length out.old < 256 }
        requires fields { (head.now.seq < 2 * half self.old.link.sending.span)
            × (head.now.ack < 2 * half self.old.link.sending.span) }
        requires slots { (length slots.now < 256) × AllByRecursion IsWritable slots.now }
        ensures did { SimulatesHearing (λ e.
            applied_step (apply (wide_head_shown head.now) (map slot_heard slots.now) e)) result
            self.old self.new out.old out.new }
        ensures keeps { Keeps self.old self.new }
        ensures most { length out.new ≤ length out.old + 1 }
    {
        match self.apply(head, slots) {
            Ok(answer) => {
                self.slave_occasion(out);
                answer
            }
            Err(Broken) => {
                self.finish(CircuitEnd::Broken, out);
                Heard::Broke(CircuitEnd::Broken.bits())
            }
        }
    }

    // The occasion that a slave has at each RUN.
    fn slave_occasion(&mut self, out: &mut OutBox)
        requires lives { self.old.ended ≡ None }
        requires running { self.old.running ≡ true }
        requires room { length out.old < 256 }
        ensures did { Simulates slave_occasion self.old self.new out.old out.new }
        ensures keeps { Keeps self.old self.new }
        ensures most { length out.new ≤ length out.old + 1 }
    {
        if !self.link.ids().master {
            self.occasion(out);
        }
    }

    // The acknowledgement of a RUN, and then its message.
    fn apply(&mut self, head: &WideHead, slots: &[Slot]) -> Result<Heard, Broken>
        requires running { self.old.running ≡ true }
        requires fields { (head.now.seq < 2 * half self.old.link.sending.span)
            × (head.now.ack < 2 * half self.old.link.sending.span) }
        requires slots { (length slots.now < 256) × AllByRecursion IsWritable slots.now }
        ensures applies { Applies (apply (wide_head_shown head.now)
            (map slot_heard slots.now)) result self.old self.new }
        ensures keeps { Keeps self.old self.new }
        ensures goes_on { GoesOn self.old self.new }
    {
        self.hear_ack(head.ack)?;
        self.hear_body(head.seq, head.ask, slots)
    }

    // Hears an acknowledgement. A new one is progress: the rounds begin anew.
    fn hear_ack(&mut self, ack: u16) -> Result<(), Broken>
        requires running { self.old.running ≡ true }
        requires field { ack < 2 * half self.old.link.sending.span }
        ensures answer { (e : End) → Stands self.old e →
            is_err result ≡ is_unsent e.half.link (ack_heard ack e) }
        ensures state { (e : End) →
            Stands self.old e →
            is_unsent e.half.link (ack_heard ack e) ≡ false →
            Stands self.new (ack_end (ack_heard ack e) e) }
        ensures err { OnErr result (self.new ≡ self.old) }
        ensures span { self.new.link.sending.span ≡ self.old.link.sending.span }
        ensures keeps { Keeps self.old self.new }
        ensures goes_on { GoesOn self.old self.new }
    {
        match self.link.acked(ack) {
            AckFact::Unsent => return Err(Broken),
            AckFact::Old => {}
            AckFact::New(_) => {
                self.rounds = 0;
                self.moments.since = self.moments.now;
            }
        }
        Ok(())
    }

    // Hears the message of a RUN, where it has slots and its number is the next one.
    fn hear_body(&mut self, number: u16, ask: bool, slots: &[Slot]) -> Result<Heard, Broken>
        requires running { self.old.running ≡ true }
        requires field { number < 2 * half self.old.link.sending.span }
        requires slots { (length slots.now < 256) × AllByRecursion IsWritable slots.now }
        ensures applies { Applies (λ e.
            apply_body (number_heard number e) ask (map slot_heard slots.now) e) result self.old self.new }
        ensures keeps { Keeps self.old self.new }
        ensures goes_on { GoesOn self.old self.new }
    {
        if slots.is_empty() {
            self.owed |= ask;
            return Ok(Heard::AckOnly);
        }
        if !self.link.expects(number) {
            self.owed = true;
            return Ok(Heard::Again);
        }
        self.take_slots(slots)
    }

    // Takes the next message. Where a slot is bad it isn't taken, but the slots before that one stay applied.
    fn take_slots(&mut self, slots: &[Slot]) -> Result<Heard, Broken>
        requires running { self.old.running ≡ true }
        requires slots { (length slots.now < 256) × AllByRecursion IsWritable slots.now }
        ensures applies { Applies (apply_slots (map slot_heard slots.now)) result self.old self.new }
        ensures keeps { Keeps self.old self.new }
        ensures goes_on { GoesOn self.old self.new }
    {
        hear_slots(&mut self.sessions, slots)?;
        self.link.take();
        self.owed = true;
        Ok(Heard::Taken(slots.len() as u8))
    }
}

// Applies the slots in order, up to the first bad one.
fn hear_slots(sessions: &mut Sessions, slots: &[Slot]) -> Result<(), Broken>
    requires { AllByRecursion IsWritable slots.now }
    ensures state { (e : States) → SessionsStand sessions.old e →
        SessionsStand sessions.new (hear_all (map slot_heard slots.now) e).after }
    ensures answer { (e : States) → SessionsStand sessions.old e →
        is_ok result ≡ (hear_all (map slot_heard slots.now) e).good }
    ensures same { SameEnd sessions.old sessions.new }
{
    for slot in slots {
        if sessions.heard_slot(slot).is_err() {
            return Err(Broken);
        }
    }
    Ok(())
}
