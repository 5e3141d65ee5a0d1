//! One event of the node.

ghost use Rattle.std.specs.Prelude.{◌≡◌, ◌≤◌, ◌+◌, [], length, IfOk, OnErr};
ghost use Rattle.lat_base.specs.Answers.{PutFits, TookFits};
ghost use Rattle.lat_base.specs.declared.answer.Answer.TheVariants as answers;
ghost use Rattle.lat_machines.specs.node.Node.{Node, node_step};
ghost use Rattle.lat_machines.specs.values.Events.{Time};
ghost use Rattle.lat_lines.specs.Answers as lines;
ghost use Rattle.lat_lines.specs.Events.{event_shown};
ghost use Rattle.lat_node.specs.Events.{Simulates, SimulatesRated, IsLocal, TakesNoMemory};
ghost use Rattle.lat_node.specs.Kept.{AtRest, SameConfig};
ghost use Rattle.lat_node.specs.Stands.{Stands, Machine, IsMachine, opening, next, answered, Frames};

use crate::hook::RatingRule;
use crate::node::NodeCore;
use lat_base::{
    Answer, CircuitLook, Core, Correspondent, Event, LineLook, Memory, Name, NodeLook, OutBox,
    ServiceLook, WaiterLook,
};
use lat_lines::line_call;
use std::alloc::Global;

impl<H: RatingRule> Core for NodeCore<H> {
    ghost use Rattle.lat_lines.specs.Answers as lines;
    ghost use Rattle.lat_node.specs.Kept.{AtRest};
    ghost use Rattle.lat_node.specs.Stands.{Machine, IsMade, opening, IsMachine, next, answered, Frames};
    ghost use Rattle.lat_node.specs.Looks.{look_of, correspondent_of, moment_of, finished_of, living_of, drained_of, circuit_of, node_of, service_of, offered_of, waiter_of, ids_left_of, records_left_of};

    ghost State = { Machine H };

    ghost made = { IsMade };

    ghost opening = { opening };

    ghost valid = { λ k. AtRest k × H.fact k.rule };

    ghost stands = { IsMachine };

    ghost next = { next };

    ghost answer = { answered };

    ghost frames = { Frames H.may };

    ghost look_of = { look_of };

    ghost correspondent_of = { correspondent_of };

    ghost moment_of = { moment_of };

    ghost finished_of = { finished_of };

    ghost living_of = { living_of };

    ghost drained_of = { drained_of };

    ghost circuit_of = { circuit_of };

    ghost node_of = { node_of };

    ghost service_of = { service_of };

    ghost offered_of = { offered_of };

    ghost waiter_of = { waiter_of };

    ghost ids_left_of = { ids_left_of };

    ghost records_left_of = { records_left_of };

    ghost ready = { λ k line. lines.ready k.lines line };

    fn step(&mut self, alloc: Global, event: &Event, out: &mut OutBox) -> Result<Answer, Memory> {
        let answer = self.apply(alloc, event, out)?;
        self.clear();
        Ok(answer)
    }

    fn look(&self, line: u8) -> LineLook {
        self.lines.look(line)
    }

    fn correspondent(&self, line: u8) -> Option<Correspondent> {
        self.lines.correspondent(line)
    }

    fn moment(&self) -> u64 {
        self.lines.moment()
    }

    fn finished(&self) -> u32 {
        self.lines.finished().saturating_add(self.turned_away)
    }

    fn living(&self) -> u8 {
        self.lines.living()
    }

    fn is_drained(&self) -> bool {
        self.lines.is_drained()
    }

    fn circuit(&self, at: usize) -> Option<CircuitLook> {
        self.lines.circuit(at)
    }

    fn node(&self, _at: usize) -> Option<NodeLook> {
        None
    }

    fn service(&self, _node: usize, _at: usize) -> Option<ServiceLook> {
        None
    }

    fn offered(&self, at: usize) -> Option<Name> {
        self.services.as_slice().get(at).copied()
    }

    fn waiter(&self, _service: &Name, _at: usize) -> Option<WaiterLook> {
        None
    }

    fn ids_left(&self) -> u16 {
        self.lines.ids_left()
    }

    fn records_left(&self) -> Option<u32> {
        None
    }
}

impl<H: RatingRule> NodeCore<H> {
    /// Does what `step` does at an event that is `Time`, `Put`, `Set`, `Attend` or `Close`, and takes no memory.
    pub fn local(&mut self, event: &Event, out: &mut OutBox) -> Answer
        requires rest { AtRest self.old }
        requires fact { H.fact self.old.rule }
        requires local { IsLocal event.now }
        requires empty { out.old ≡ [] }
        ensures rest { AtRest self.new }
        ensures fact { H.fact self.new.rule }
        ensures opening { opening self.new ≡ opening self.old }
        ensures state { (m : Machine H) → IsMachine self.old m →
            IsMachine self.new (next m event.now) }
        ensures answer { (m : Machine H) → IsMachine self.old m → result ≡ answered m event.now }
        ensures frames { (m : Machine H) → IsMachine self.old m → Frames H.may m event.now out.new }
        ensures put { PutFits result event.now }
        ensures took { TookFits (lines.ready self.old.lines) result event.now }
    {
        let answer = self.act(event, out);
        self.clear();
        answer
    }

    // What an event does. Circuits that it ends are held still.
    fn apply(&mut self, alloc: Global, event: &Event, out: &mut OutBox) -> Result<Answer, Memory>
        requires rest { AtRest self.old }
        requires fact { H.fact self.old.rule }
        requires room { length out.old + 128 ≤ 256 }
        ensures steps { IfOk result (λ a.
            SimulatesRated H.may (event_shown event.now) self.old self.new a out.old out.new) }
        ensures same { SameConfig self.old self.new }
        ensures put { IfOk result (λ a. PutFits a event.now) }
        ensures took { IfOk result (λ a. TookFits (lines.ready self.old.lines) a event.now) }
        ensures err { OnErr result ((self.new ≡ self.old) × (out.new ≡ out.old)) }
    {
        match event {
            Event::Heard { from, payload, now } => {
                self.hear(alloc, *from, payload.as_slice(), *now, out)
            }
            Event::Take { line, n } => self.lines.take(alloc, *line, *n),
            Event::Request { to, id, service } => self.request(*to, *id, service, out),
            Event::Announce => self.announce(alloc, out),
            Event::Halt => self.halt(alloc, out),
            other => Ok(self.act(other, out)),
        }
    }

    // Circuits that have ended are held no more.
    fn clear(&mut self)
        ensures state { (s : Node) → Stands self.old s → Stands self.new s }
        ensures same { SameConfig self.old self.new }
        ensures rest { AtRest self.new }
    {
        self.lines.clear();
    }

    // The events that take no memory. The others are answered as if there were none of them here.
    fn act(&mut self, event: &Event, out: &mut OutBox) -> Answer
        requires act { TakesNoMemory event.now }
        requires room { length out.old + 128 ≤ 256 }
        ensures does { Simulates (λ config s.
            node_step config [] s (event_shown event.now)) self.old self.new result out.old out.new }
        ensures same { SameConfig self.old self.new }
        ensures put { PutFits result event.now }
        ensures took { TookFits (lines.ready self.old.lines) result event.now }
    {
        match event {
            Event::Time { now } => self.time(*now, out),
            Event::Cancel { id } => self.withdraw(*id, out),
            other => match line_call(other) {
                Some((line, call)) => self.lines.call(line, &call),
                None => Answer::NotHere,
            },
        }
    }

    // Time has come to a moment: circuits do what is due.
    fn time(&mut self, now: u64, out: &mut OutBox) -> Answer
        requires room { length out.old + 128 ≤ 256 }
        ensures does { Simulates (λ config s.
            node_step config [] s (Time now)) self.old self.new result out.old out.new }
        ensures same { SameConfig self.old self.new }
        ensures done { result ≡ answers.Done }
    {
        self.lines.pass(now);
        self.lines.time(out);
        Answer::Done
    }
}
