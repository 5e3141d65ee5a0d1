//! What an end does at a message from its peer's address.

ghost use Rattle.std.specs.Prelude.{◌≡◌, ◌+◌, ◌<◌, ◌≤◌, ◌&&◌, ◌||◌, [], false, not, length, nat_eq, None};
ghost use Rattle.lat_frames.specs.Conditions.{InfoFits};
ghost use Rattle.lat_frames.specs.Written.{IsWritable};
ghost use Rattle.lat_model.specs.ends.End.{End};
ghost use Rattle.lat_model.specs.ends.Starting.{reply_end};
ghost use Rattle.lat_machines.specs.values.Timing.{agreed_by};
ghost use Rattle.lat_circuit.specs.Frames.{timing_shown};
ghost use Rattle.lat_circuit.specs.Messages.{head_shown, wide_head_shown, info_shown};
ghost use Rattle.lat_circuit.specs.Hears.{hears_start, hears_stop, heard_by, noted_by, reply_by, heard_shown, SimulatesHearing, Remains};
ghost use Rattle.lat_circuit.specs.Stands.{Stands, Simulates};

use crate::agreed::{agree_sessions, agreed_by, span_of};
use crate::circuit::Circuit;
use crate::ids::Ids;
use lat_base::{Heard, OutBox};
use lat_frames::{Head, Message, StartInfo, WideHead};

impl Circuit {
    /// Hears a message from the peer's address, at a moment that isn't before the latest: does what it asks for, and answers what
    /// became of it. `Foreign` exactly where it doesn't belong to the circuit. The circuit must live. See "Hearing a RUN" and
    /// "How a circuit ends" in docs/PROTOCOL.md.
    pub fn heard(&mut self, m: &Message, now: u64, out: &mut OutBox) -> Heard
        requires ok { IsWritable m.now }
        requires lives { self.old.ended ≡ None }
        requires room { length out.old + 16 ≤ 256 }
        requires moment { self.old.moments.now ≤ now }
        ensures did { Simulates (noted_by self.old.facts now m.now) self.old self.new out.old out.new }
        ensures answer { (e : End) → Stands self.old e →
            heard_shown result ≡ (heard_by self.old.facts now m.now e).answer }
        ensures remains { Remains now self.old self.new }
        ensures most { length out.new ≤ length out.old + 1 }
    {
        let was_held = self.is_held();
        let answer = self.hear(m, now, out);
        self.note_empty(was_held);
        answer
    }

    fn hear(&mut self, m: &Message, now: u64, out: &mut OutBox) -> Heard
        requires ok { IsWritable m.now }
        requires lives { self.old.ended ≡ None }
        requires room { length out.old + 16 ≤ 256 }
        requires moment { self.old.moments.now ≤ now }
        ensures did { SimulatesHearing (heard_by self.old.facts now m.now) result self.old self.new out.old out.new }
        ensures remains { Remains now self.old self.new }
        ensures most { length out.new ≤ length out.old + 1 }
    {
        match m {
            Message::Run { head, slots } => {
                self.hear_run(false, widened(head), slots.as_slice(), now, out)
            }
            Message::Wide { head, slots } => {
                self.hear_run(true, *head, slots.as_slice(), now, out)
            }
            Message::Start {
                master: true,
                from,
                ..
            } => self.hear_start(*from, now, out),
            Message::Start { to, from, info, .. } => self.hear_reply(*to, *from, info, now),
            Message::Stop {
                to,
                from,
                reason,
                ..
            } => self.hear_stop(*to, *from, *reason, now),
        }
    }

    // The START of the master comes again: a slave that heard no RUN repeats its reply.
    fn hear_start(&mut self, from: u16, now: u64, out: &mut OutBox) -> Heard
        requires lives { self.old.ended ≡ None }
        requires room { length out.old < 256 }
        requires moment { self.old.moments.now ≤ now }
        ensures did { SimulatesHearing (hears_start from now) result self.old self.new out.old out.new }
        ensures remains { Remains now self.old self.new }
        ensures most { length out.new ≤ length out.old + 1 }
    {
        if !self.is_slave_of(from) {
            return Heard::Foreign;
        }
        self.moments.now = now;
        self.moments.heard_at = now;
        if !self.heard_run {
            self.push_start(self.reply_start(), out);
            self.moments.sent_at = now;
            self.owed = false;
        }
        Heard::Again
    }

    // Whether it is a slave whose master has this id of the circuit.
    fn is_slave_of(&self, from: u16) -> bool
        ensures { (e : End) → Stands self.now e → result ≡ not e.master && nat_eq e.peer from }
    {
        let ids = self.link.ids();
        !ids.master && ids.to == from
    }

    // A reply to the START of this end. The first one makes it run.
    fn hear_reply(&mut self, to: u16, from: u16, info: &StartInfo, now: u64) -> Heard
        requires info { InfoFits false info.now }
        requires source { 0 < from }
        requires lives { self.old.ended ≡ None }
        requires moment { self.old.moments.now ≤ now }
        ensures did { SimulatesHearing (reply_by self.old.facts now to from info.now) result self.old self.new [] [] }
        ensures remains { Remains now self.old self.new }
    {
        if !self.is_replied(to, from) {
            return Heard::Foreign;
        }
        self.moments.now = now;
        self.moments.heard_at = now;
        if self.running {
            return Heard::Again;
        }
        self.run(from, info);
        Heard::Running
    }

    // Whether a reply with these ids is one to this end.
    fn is_replied(&self, to: u16, from: u16) -> bool
        ensures { (e : End) → Stands self.now e →
            result ≡ e.master
            && (nat_eq to self.now.facts.id && (not e.running || nat_eq e.peer from)) }
    {
        let ids = self.link.ids();
        ids.master && to == ids.from && (!self.running || ids.to == from)
    }

    // The end runs, with what both ends agree on by this reply. An acknowledgement is owed, so that a RUN follows.
    fn run(&mut self, from: u16, info: &StartInfo)
        requires info { InfoFits false info.now }
        requires source { 0 < from }
        requires calls { self.old.running ≡ false }
        requires heard { self.old.moments.heard_at ≡ self.old.moments.now }
        ensures did { (e : End) →
            Stands self.old e →
            Stands self.new (reply_end self.old.moments.now from (agreed_by (timing_shown self.old.facts.config.timing)
            (info_shown info.now)) e) }
        ensures remains { Remains self.old.moments.now self.old self.new }
    {
        let agreed = agreed_by(&self.config.timing, info);
        let ids = Ids {
            to: from,
            ..self.link.ids()
        };
        self.link.start(ids, agreed.window, span_of(agreed.wide));
        agree_sessions(&mut self.sessions, agreed.sessions);
        self.room = agreed.room;
        self.running = true;
        self.owed = true;
        self.rounds = 0;
        self.moments.empty_at = self.moments.now;
    }

    // A STOP ends the circuit, where its source is the peer's id or 0.
    fn hear_stop(&mut self, to: u16, from: u16, reason: u8, now: u64) -> Heard
        requires lives { self.old.ended ≡ None }
        requires moment { self.old.moments.now ≤ now }
        ensures did { SimulatesHearing (hears_stop self.old.facts.id now to from reason) result self.old self.new [] [] }
        ensures remains { Remains now self.old self.new }
    {
        if !self.is_stopped(to, from) {
            return Heard::Foreign;
        }
        self.ended = Some(reason);
        self.moments.now = now;
        Heard::Ended(reason)
    }

    // Whether a STOP with these ids is one of this circuit.
    fn is_stopped(&self, to: u16, from: u16) -> bool
        ensures { (e : End) → Stands self.now e →
            result ≡ nat_eq to self.now.facts.id && (nat_eq e.peer from || nat_eq from 0) }
    {
        let ids = self.link.ids();
        to == ids.from && (ids.to == from || from == 0)
    }
}

// The head of a RUN, its numbers in two bytes.
fn widened(head: &Head) -> WideHead
    ensures value { wide_head_shown result ≡ head_shown head.now }
    ensures fields { (result.seq < 256) × (result.ack < 256) }
{
    WideHead {
        master: head.master,
        ask: head.ask,
        to: head.to,
        from: head.from,
        seq: u16::from(head.seq),
        ack: u16::from(head.ack),
    }
}
