//! What the node does at a circuit message that it hears.

ghost use Rattle.std.specs.Prelude.{◌≡◌, ◌<◌, ◌≤◌, ◌+◌, ℕ, length, true, false, Some, None, IfSome};
ghost use Rattle.lat_frames.specs.Written.{IsWritable};
ghost use Rattle.lat_machines.specs.cores.Cores.{at_moment};
ghost use Rattle.lat_machines.specs.node.Node.{Node, with_core, hears_message, makes_way};
ghost use Rattle.lat_machines.specs.values.Addresses.{address};
ghost use Rattle.lat_circuit.specs.Messages.{message_shown};
ghost use Rattle.lat_lines.specs.Answers.{IsPlain};
ghost use Rattle.lat_lines.specs.circuits.Hears.{is_call};
ghost use Rattle.lat_lines.specs.circuits.Kept.{IsClear, HasRooms};
ghost use Rattle.lat_node.specs.Events.{Simulates};
ghost use Rattle.lat_node.specs.Hearing.{called_by, named_by, AskedThen, hears_named};
ghost use Rattle.lat_node.specs.Kept.{config_of, AtRest, SameConfig};
ghost use Rattle.lat_node.specs.Stands.{Stands};

use crate::hook::RatingRule;
use crate::node::NodeCore;
use crate::told::tell;
use lat_base::{Addr, Answer, OutBox};
use lat_frames::{CircuitEnd, Message};
use lat_lines::hearing_answer;

impl<H: RatingRule> NodeCore<H> {
    /// Hears a circuit message of a station. A halted node makes no circuit; a prompt one tells a stranger so, and a START that
    /// follows ends the slaves before it. There must be memory for the circuit that a START may make. See "Hearing a RUN",
    /// "Halting" and "How a circuit ends" in docs/PROTOCOL.md.
    pub(crate) fn hear_message(
        &mut self,
        from: Addr,
        message: &Message,
        now: u64,
        out: &mut OutBox,
    ) -> Answer
        requires rest { AtRest self.old }
        requires ok { IsWritable message.now }
        requires memory { self.old.halted ≡ false →
            is_call message.now ≡ true → HasRooms 1 self.old.lines.circuits }
        requires room { length out.old + 16 ≤ 256 }
        ensures does { Simulates
            (λ config s. hears_message config (with_core s (at_moment now s.core)) (address from.0)
            (message_shown message.now) None)
            self.old self.new result out.old out.new }
        ensures same { SameConfig self.old self.new }
        ensures plain { IsPlain result }
        ensures most { length out.new ≤ length out.old + 2 }
    {
        self.pass(now);
        match caller(message) {
            Some(source) => self.hear_start(from, source, message, out),
            None => self.hear_other(from, message, out),
        }
    }

    // A START of a master, that has this id of the circuit.
    fn hear_start(&mut self, from: Addr, source: u16, message: &Message, out: &mut OutBox) -> Answer
        requires rest { AtRest self.old }
        requires ok { IsWritable message.now }
        requires start { called_by (message_shown message.now) ≡ Some source }
        requires source { 0 < source }
        requires memory { self.old.halted ≡ false → HasRooms 1 self.old.lines.circuits }
        requires room { length out.old + 16 ≤ 256 }
        ensures does { Simulates
            (λ config s. hears_message config s (address from.0) (message_shown message.now) None)
            self.old self.new result out.old out.new }
        ensures same { SameConfig self.old self.new }
        ensures plain { IsPlain result }
        ensures most { length out.new ≤ length out.old + 2 }
    {
        if self.halted {
            self.lines.turn_away(from, source, CircuitEnd::Halted, out);
            return Answer::StartRefused;
        }
        self.make_way(from, source);
        self.hear_named(from, message, out)
    }

    // A prompt node ends the slaves of the address that a START of this id follows.
    fn make_way(&mut self, from: Addr, source: u16)
        requires rest { AtRest self.old }
        ensures state { (s : Node) →
            Stands self.old s →
            Stands self.new (makes_way (config_of self.old) s (address from.0) source) }
        ensures same { SameConfig self.old self.new }
        ensures clear { IsClear self.new.lines.circuits }
        ensures memory { HasRooms 1 self.old.lines.circuits →
            HasRooms 1 self.new.lines.circuits }
    {
        if self.prompt {
            self.lines.outlive(from, source);
            self.lines.clear();
        }
    }

    // Another message. A prompt node tells a stranger, behind all else, that no such circuit lives here.
    fn hear_other(&mut self, from: Addr, message: &Message, out: &mut OutBox) -> Answer
        requires rest { AtRest self.old }
        requires ok { IsWritable message.now }
        requires other { called_by (message_shown message.now) ≡ None }
        requires room { length out.old + 16 ≤ 256 }
        ensures does { Simulates
            (λ config s. hears_message config s (address from.0) (message_shown message.now) None)
            self.old self.new result out.old out.new }
        ensures same { SameConfig self.old self.new }
        ensures plain { IsPlain result }
        ensures most { length out.new ≤ length out.old + 2 }
    {
        let stop = self.lines.stranger_stop(self.prompt, from, message);
        let answer = self.hear_named(from, message, out);
        tell(stop, out);
        answer
    }

    // The circuits hear it. The asked sessions of the circuit that a RUN names are answered behind all that it did.
    fn hear_named(&mut self, from: Addr, message: &Message, out: &mut OutBox) -> Answer
        requires clear { IsClear self.old.lines.circuits }
        requires ok { IsWritable message.now }
        requires memory { is_call message.now ≡ true → HasRooms 1 self.old.lines.circuits }
        requires room { length out.old + 16 ≤ 256 }
        ensures does { Simulates
            (λ config s. hears_named config s (address from.0) (message_shown message.now))
            self.old self.new result out.old out.new }
        ensures same { SameConfig self.old self.new }
        ensures plain { IsPlain result }
        ensures most { length out.new ≤ length out.old + 1 }
    {
        let named = self.named(from, message);
        let hearing = self.lines.heard(from, message, out);
        self.answer_named(named);
        hearing_answer(hearing)
    }

    fn answer_named(&mut self, circuit: Option<u16>)
        ensures asked { AskedThen circuit self.old self.new }
        ensures same { SameConfig self.old self.new }
    {
        if let Some(circuit) = circuit {
            self.answer_asked(circuit);
        }
    }

    // The living circuit that a RUN names.
    fn named(&self, from: Addr, message: &Message) -> Option<u16>
        ensures { (s : Node) → Stands self.now s →
            result ≡ named_by s.core.circuits (address from.0) (message_shown message.now) }
    {
        match message {
            Message::Run { head, .. } if self.lines.names(from, head.to, head.from) => {
                Some(head.to)
            }
            Message::Wide { head, .. } if self.lines.names(from, head.to, head.from) => {
                Some(head.to)
            }
            _ => None,
        }
    }
}

// The id that the master has of the circuit, where it is a START of a master.
fn caller(message: &Message) -> Option<u16>
    requires ok { IsWritable message.now }
    ensures start { result ≡ called_by (message_shown message.now) }
    ensures positive { IfSome result (λ source. 0 < source) }
{
    match message {
        Message::Start {
            master: true,
            from,
            ..
        } => Some(*from),
        _ => None,
    }
}
