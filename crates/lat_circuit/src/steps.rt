//! What an end does at a time event or a RUN: it forms messages, sends them again, acknowledges, or ends.

ghost use Rattle.std.specs.Prelude.{◌≡◌, ◌+◌, ◌<◌, ◌≤◌, ◌++◌, true, false, cond, List, [], ◌∷◌, length, map};
ghost use Rattle.lat_base.specs.declared.outbox.Mark.TheVariants.{Fresh};
ghost use Rattle.lat_base.specs.Lending.{frame_of};
ghost use Rattle.lat_frames.specs.Reasons.{end_bits};
ghost use Rattle.lat_model.specs.ends.End.{End, send_bare, acknowledge, occasion, send_again, marked, send_start, finish, lapse, all_known};
ghost use Rattle.lat_model.specs.numbers.Link.{again_frames};
ghost use Rattle.lat_model.specs.sessions.Slots.{Slot};
ghost use Rattle.lat_circuit.specs.Payloads.{head_size};
ghost use Rattle.lat_circuit.specs.Links.{IsMessage, unformed_payload};
ghost use Rattle.lat_circuit.specs.Frames.{AreFormed, frame_sent};
ghost use Rattle.lat_circuit.specs.Stands.{Stands, Simulates};
ghost use Rattle.lat_circuit.specs.Steps.{Keeps, form_slots};

use crate::circuit::{Circuit, lend};
use lat_base::{Mark, OutBox, Payload};
use lat_frames::CircuitEnd;

impl Circuit {
    /// Whether no message is unacknowledged.
    pub(crate) fn all_known(&self) -> bool
        ensures { (e : End) → Stands self.now e → result ≡ all_known e }
    {
        self.link.unacknowledged() == 0
    }

    /// Sends a RUN without slots, whose bit 0 is `ask`. The circuit must run.
    pub(crate) fn send_bare(&mut self, ask: bool, out: &mut OutBox)
        requires room { length out.old < 256 }
        requires running { self.old.running ≡ true }
        ensures did { Simulates (send_bare ask) self.old self.new out.old out.new }
        ensures keeps { Keeps self.old self.new }
        ensures most { length out.new ≤ length out.old + 1 }
    {
        self.link.bare(ask, lend(out, self, Mark::Bare));
        self.owed = false;
        self.moments.sent_at = self.moments.now;
    }

    /// Sends the acknowledgement that is owed. The circuit must run.
    pub(crate) fn acknowledge(&mut self, out: &mut OutBox)
        requires room { length out.old < 256 }
        requires running { self.old.running ≡ true }
        ensures did { Simulates acknowledge self.old self.new out.old out.new }
        ensures keeps { Keeps self.old self.new }
        ensures most { length out.new ≤ length out.old + 1 }
    {
        if self.owed {
            self.send_bare(false, out);
        }
    }

    // The moment from which the second for repeats counts after a message is formed.
    fn since_forming(&self) -> u64
        ensures model { (e : End) → Stands self.now e →
            result ≡ cond (all_known e) e.moment e.since }
        ensures past { result ≤ self.now.moments.now }
    {
        if self.all_known() {
            self.moments.now
        } else {
            self.moments.since
        }
    }

    // Forms the message whose slots stand in the payload behind its head. The payload is that of the frame that goes out.
    fn form(&mut self, slots: u8, payload: &mut Payload)
        requires running { self.old.running ≡ true }
        requires open { self.old.link.sending.unacknowledged < self.old.link.sending.window }
        requires head { head_size self.old.link.sending.span ≤ length payload.old }
        ensures did { (e : End) (m : List Slot) →
            Stands self.old e →
            IsMessage self.old.link.sending.span m →
            payload.old ≡ unformed_payload self.old.link e.half.link m →
            length m ≡ slots →
            Stands self.new (form_slots m e).end
            × (frame_of self.new.facts.config.peer self.new.facts.id Fresh payload.new ∷ []
            ≡ map (frame_sent self.new.facts) (form_slots m e).sent)
            × AreFormed self.new.facts (form_slots m e).sent }
        ensures keeps { Keeps self.old self.new }
    {
        self.moments.since = self.since_forming();
        self.link.form(payload, slots);
        self.owed = false;
        self.moments.sent_at = self.moments.now;
    }

    /// Forms a message where fewer than the window are unacknowledged and a slot is packed; else sends the acknowledgement that
    /// is owed. The circuit must run. See "Occasions" in docs/PROTOCOL.md.
    pub(crate) fn occasion(&mut self, out: &mut OutBox)
        requires room { length out.old < 256 }
        requires running { self.old.running ≡ true }
        ensures did { Simulates occasion self.old self.new out.old out.new }
        ensures keeps { Keeps self.old self.new }
        ensures most { length out.new ≤ length out.old + 1 }
    {
        if !self.link.is_open() {
            return self.acknowledge(out);
        }
        let payload = lend(out, self, Mark::Fresh);
        self.link.begin(payload);
        let slots = self.sessions.pack(self.room, payload);
        if slots == 0 {
            out.withdraw();
            return self.acknowledge(out);
        }
        self.form(slots, payload);
    }

    // Sends all unacknowledged messages again, oldest first.
    fn repeat_all(&self, out: &mut OutBox)
        requires { length out.old + 8 ≤ 256 }
        ensures frames { (e : End) → Stands self.now e →
            out.new ≡ out.old
            ++ map (frame_sent self.now.facts) (marked (again_frames e.half.link)) }
        ensures most { length out.new ≤ length out.old + 8 }
    {
        let count = self.link.unacknowledged();
        for place in 0..count {
            let payload = lend(out, self, Mark::Again(count - 1 - place));
            self.link.repeat(place as usize, payload);
        }
    }

    /// A round: all unacknowledged messages go out again. The circuit must run.
    pub(crate) fn send_again(&mut self, out: &mut OutBox)
        requires room { length out.old + 8 ≤ 256 }
        requires rounds { self.old.rounds < 8 }
        requires running { self.old.running ≡ true }
        ensures did { Simulates send_again self.old self.new out.old out.new }
        ensures keeps { Keeps self.old self.new }
        ensures most { length out.new ≤ length out.old + 8 }
    {
        self.repeat_all(out);
        self.owed = false;
        self.moments.sent_at = self.moments.now;
        self.moments.since = self.moments.now;
        self.rounds += 1;
    }

    /// A round of a master that heard no reply: its START goes out again.
    pub(crate) fn send_start(&mut self, out: &mut OutBox)
        requires room { length out.old < 256 }
        requires rounds { self.old.rounds < 8 }
        requires calling { self.old.running ≡ false }
        ensures did { Simulates send_start self.old self.new out.old out.new }
        ensures keeps { Keeps self.old self.new }
        ensures most { length out.new ≤ length out.old + 1 }
    {
        self.push_start(self.call_start(), out);
        self.moments.start_at = self.moments.now;
        self.moments.sent_at = self.moments.now;
        self.rounds += 1;
    }

    /// The circuit ends by this end itself, for this reason. The peer is told where its id is known: at most one frame.
    pub fn finish(&mut self, end: CircuitEnd, out: &mut OutBox)
        requires { length out.old < 256 }
        ensures did { Simulates (finish (end_bits end)) self.old self.new out.old out.new }
        ensures keeps { Keeps self.old self.new }
        ensures most { length out.new ≤ length out.old + 1 }
    {
        let reason = end.bits();
        self.ended = Some(reason);
        if self.link.ids().to != 0 {
            self.write_stop(reason, lend(out, self, Mark::Plain));
        }
    }

    /// The circuit ends for this reason, and nobody is told.
    pub fn lapse(&mut self, end: CircuitEnd)
        ensures state { (e : End) → Stands self.old e →
            Stands self.new (lapse (end_bits end) e).end }
        ensures keeps { Keeps self.old self.new }
    {
        self.ended = Some(end.bits());
    }
}
