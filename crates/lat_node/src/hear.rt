//! What the node does at a frame that it hears.

ghost use Rattle.std.specs.Prelude.{◌≡◌, ℕ, ◌≤◌, ◌+◌, ◌&&◌, not, true, false, cond, List, [], length, Err, None, nat_eq, IfOk, OnOk, OnErr};
ghost use Rattle.lat_base.specs.declared.outbox.OutFrame.{OutFrame};
ghost use Rattle.lat_machines.specs.cores.Cores.{at_moment};
ghost use Rattle.lat_machines.specs.node.Node.{Node, with_core, hears_notice};
ghost use Rattle.lat_machines.specs.values.Addresses.{address, everyone};
ghost use Rattle.lat_machines.specs.values.Events.{Hears};
ghost use Rattle.lat_machines.specs.values.Frames.{Reading, Whole, OfNotice};
ghost use Rattle.lat_lines.specs.Answers.{IsPlain};
ghost use Rattle.lat_lines.specs.circuits.Hears.{is_call};
ghost use Rattle.lat_lines.specs.circuits.Kept.{HasRooms};
ghost use Rattle.lat_lines.specs.AnswerValues.{answer_shown};
ghost use Rattle.lat_payload.specs.Reads as reads;
ghost use Rattle.lat_value.specs.Texts as texts;
ghost use Rattle.lat_payload.specs.Reads.{value_shown};
ghost use Rattle.lat_payload.specs.Notices.{notice_shown};
ghost use Rattle.lat_node.specs.Events.{SimulatesRated, Rated};
ghost use Rattle.lat_node.specs.Kept.{config_of, AtRest, SameConfig};
ghost use Rattle.lat_node.specs.Places.{notice_places};
ghost use Rattle.lat_node.specs.Stands.{Stands};

use crate::hook::RatingRule;
use crate::node::NodeCore;
use lat_base::{Addr, Answer, Memory, OutBox};
use lat_fields::LayoutFault;
use lat_frames::Message;
use lat_notices::Notice;
use lat_value::{Value, read_value};
use std::alloc::Global;

// Whether it is a START of a master.
fn is_call(message: &Message) -> bool
    ensures { result ≡ is_call message.now }
{
    matches!(message, Message::Start { master: true, .. })
}

impl<H: RatingRule> NodeCore<H> {
    /// Hears a payload from a station. Takes its memory first: after `Memory` nothing has changed.
    pub(crate) fn hear(
        &mut self,
        alloc: Global,
        from: Addr,
        payload: &[u8],
        now: u64,
        out: &mut OutBox,
    ) -> Result<Answer, Memory>
        requires rest { AtRest self.old }
        requires fact { H.fact self.old.rule }
        requires room { length out.old + 16 ≤ 256 }
        ensures steps { IfOk result (λ a.
            SimulatesRated H.may (Hears (address from.0) (reads.reading_of payload.now) None now)
            self.old self.new a out.old out.new) }
        ensures same { SameConfig self.old self.new }
        ensures plain { IfOk result IsPlain }
        ensures most { length out.new ≤ length out.old + 2 }
        ensures err { OnErr result ((self.new ≡ self.old) × (out.new ≡ out.old)) }
    {
        match read_value(alloc, payload) {
            Ok(value) => self.hear_value(alloc, from, &value, now, out),
            Err(fault) => self.pass_over(fault, now),
        }
    }

    // A payload that reads as nothing.
    fn pass_over(&mut self, fault: LayoutFault, now: u64) -> Result<Answer, Memory>
        ensures steps { (reading : Reading) (from : ℕ) (frames : List OutFrame) →
            reads.Answers (Err fault) reading →
            IfOk result (λ a.
            SimulatesRated H.may (Hears from reading None now) self.old self.new a frames frames) }
        ensures same { SameConfig self.old self.new }
        ensures plain { IfOk result IsPlain }
        ensures err { OnErr result (self.new ≡ self.old) }
    {
        match fault {
            LayoutFault::Bad(bad) => {
                self.pass(now);
                Ok(Answer::Bad(bad))
            }
            LayoutFault::Memory => Err(Memory),
        }
    }

    /// Its moment goes on.
    pub(crate) fn pass(&mut self, now: u64)
        ensures state { (s : Node) → Stands self.old s →
            Stands self.new (with_core s (at_moment now s.core)) }
        ensures same { SameConfig self.old self.new }
        ensures rest { AtRest self.old → AtRest self.new }
        ensures halted { self.new.halted ≡ self.old.halted }
        ensures memory { HasRooms 1 self.old.lines.circuits →
            HasRooms 1 self.new.lines.circuits }
    {
        self.lines.pass(now);
    }

    // Takes memory for the circuit that a START may make. Nothing else changes, and after `Memory` nothing at all.
    fn reserve_for(&mut self, alloc: Global, message: &Message) -> Result<(), Memory>
        ensures state { (s : Node) → Stands self.old s → Stands self.new s }
        ensures same { SameConfig self.old self.new }
        ensures rest { AtRest self.old → AtRest self.new }
        ensures memory { OnOk result (self.new.halted ≡ false →
            is_call message.now ≡ true → HasRooms 1 self.new.lines.circuits) }
        ensures err { OnErr result (self.new ≡ self.old) }
    {
        if self.may_make(message) {
            self.lines.reserve(alloc, 1)
        } else {
            Ok(())
        }
    }

    // Whether it may make a circuit at a message.
    fn may_make(&self, message: &Message) -> bool
        ensures { result ≡ (not self.now.halted && is_call message.now) }
    {
        !self.halted && is_call(message)
    }

    fn hear_value(
        &mut self,
        alloc: Global,
        from: Addr,
        value: &Value,
        now: u64,
        out: &mut OutBox,
    ) -> Result<Answer, Memory>
        requires rest { AtRest self.old }
        requires fact { H.fact self.old.rule }
        requires room { length out.old + 16 ≤ 256 }
        requires ok { texts.IsWritable value.now }
        ensures steps { IfOk result (λ a.
            SimulatesRated H.may (Hears (address from.0) (Whole (value_shown value.now)) None now)
            self.old self.new a out.old out.new) }
        ensures same { SameConfig self.old self.new }
        ensures plain { IfOk result IsPlain }
        ensures most { length out.new ≤ length out.old + 2 }
        ensures err { OnErr result ((self.new ≡ self.old) × (out.new ≡ out.old)) }
    {
        if from.is_everyone() {
            self.pass(now);
            return Ok(Answer::Ignored);
        }
        match value {
            Value::Circuit(message) => {
                self.reserve_for(alloc, message)?;
                Ok(self.hear_message(from, message, now, out))
            }
            Value::Notice(notice) => self.hear_notice(alloc, from, notice, now, out),
        }
    }

    fn hear_notice(
        &mut self,
        alloc: Global,
        from: Addr,
        notice: &Notice,
        now: u64,
        out: &mut OutBox,
    ) -> Result<Answer, Memory>
        requires rest { AtRest self.old }
        requires fact { H.fact self.old.rule }
        requires room { length out.old + 16 ≤ 256 }
        requires apart { nat_eq (address from.0) everyone ≡ false }
        ensures steps { IfOk result (λ a.
            SimulatesRated H.may (Hears (address from.0)
            (Whole (OfNotice (notice_shown notice.now))) None now)
            self.old self.new a out.old out.new) }
        ensures same { SameConfig self.old self.new }
        ensures plain { IfOk result IsPlain }
        ensures most { length out.new ≤ length out.old + 2 }
        ensures err { OnErr result ((self.new ≡ self.old) × (out.new ≡ out.old)) }
    {
        let answer = self.answer_notice(alloc, from, notice, out)?;
        self.pass(now);
        Ok(answer)
    }

    // What is answered to a notice, and sent.
    fn answer_notice(
        &self,
        alloc: Global,
        from: Addr,
        notice: &Notice,
        out: &mut OutBox,
    ) -> Result<Answer, Memory>
        requires fact { H.fact self.now.rule }
        requires room { length out.old + 16 ≤ 256 }
        ensures answer { (s : Node) →
            Stands self.now s →
            IfOk result (λ a.
            answer_shown a
            ≡ (hears_notice (config_of self.now) [] s (address from.0)
            (notice_shown notice.now)).answer) }
        ensures frames { (s : Node) →
            Stands self.now s →
            OnOk result
            (Rated H.may self.now s
            (λ rates. hears_notice (config_of self.now) rates s (address from.0)
            (notice_shown notice.now))
            (cond s.halted [] (notice_places (config_of self.now) (notice_shown notice.now)))
            out.old out.new) }
        ensures plain { IfOk result IsPlain }
        ensures most { length out.new ≤ length out.old + 2 }
        ensures err { OnErr result (out.new ≡ out.old) }
    {
        match notice {
            Notice::Status(_) => Ok(Answer::Noted),
            Notice::Solicit(solicit) => self.solicited(alloc, from, solicit, out),
            Notice::Announcement(_) | Notice::Command(_) | Notice::Response(_) => {
                Ok(Answer::Ignored)
            }
        }
    }
}
