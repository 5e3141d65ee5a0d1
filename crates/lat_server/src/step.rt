//! One event of the server.

ghost use Rattle.std.specs.Prelude.{◌≡◌, ◌≤◌, [], length, IfOk, OnErr};
ghost use Rattle.lat_base.specs.Answers.{PutFits, TookFits};
ghost use Rattle.lat_machines.specs.cores.Cores.{at_moment, passes_time};
ghost use Rattle.lat_machines.specs.server.Server.{does, server_side, server_event};
ghost use Rattle.lat_machines.specs.values.Answers as answers;
ghost use Rattle.lat_lines.specs.Answers as lines;
ghost use Rattle.lat_lines.specs.Events.{event_shown};
ghost use Rattle.lat_server.specs.Events.{Simulates, Follows, IsLocal, TakesNoMemory, cost};
ghost use Rattle.lat_server.specs.Kept.{AtRest, SameConfig, HasSpare, Spends};
ghost use Rattle.lat_server.specs.Stands.{Machine, IsMachine, opening, next, answered, Frames};

use crate::server::ServerCore;
use lat_base::{
    Answer, CircuitLook, Core, Correspondent, Event, LineLook, Memory, Name, NodeLook, OutBox,
    ServiceLook, WaiterLook,
};
use lat_lines::line_call;
use std::alloc::Global;

impl Core for ServerCore {
    ghost use Rattle.lat_lines.specs.Answers as lines;
    ghost use Rattle.lat_server.specs.Kept.{AtRest};
    ghost use Rattle.lat_server.specs.Stands.{Machine, IsMade, opening, IsMachine, next, answered, Frames};
    ghost use Rattle.lat_server.specs.Looks.{look_of, correspondent_of, moment_of, finished_of, living_of, drained_of, circuit_of, node_of, service_of, offered_of, waiter_of, ids_left_of, records_left_of};

    ghost State = { Machine };

    ghost made = { IsMade };

    ghost opening = { opening };

    ghost valid = { AtRest };

    ghost stands = { IsMachine };

    ghost next = { next };

    ghost answer = { answered };

    ghost frames = { Frames };

    ghost look_of = { look_of };

    ghost correspondent_of = { correspondent_of };

    ghost moment_of = { moment_of };

    ghost finished_of = { finished_of };

    ghost living_of = { living_of };

    ghost drained_of = { drained_of };

    ghost circuit_of = { circuit_of };

    ghost node_of = { node_of };

    ghost service_of = { service_of };

    ghost offered_of = { offered_of };

    ghost waiter_of = { waiter_of };

    ghost ids_left_of = { ids_left_of };

    ghost records_left_of = { records_left_of };

    ghost ready = { λ k line. lines.ready k.lines line };

    fn step(&mut self, alloc: Global, event: &Event, out: &mut OutBox) -> Result<Answer, Memory> {
        let answer = self.apply(alloc, event, out)?;
        self.follow(out);
        Ok(answer)
    }

    fn look(&self, line: u8) -> LineLook {
        self.lines.look(line)
    }

    fn correspondent(&self, line: u8) -> Option<Correspondent> {
        self.lines.correspondent(line)
    }

    fn moment(&self) -> u64 {
        self.lines.moment()
    }

    fn finished(&self) -> u32 {
        self.lines.finished()
    }

    fn living(&self) -> u8 {
        self.lines.living()
    }

    fn is_drained(&self) -> bool {
        self.lines.is_drained()
    }

    fn circuit(&self, at: usize) -> Option<CircuitLook> {
        self.lines.circuit(at)
    }

    fn node(&self, at: usize) -> Option<NodeLook> {
        self.directory.node(at, self.lines.moment())
    }

    fn service(&self, node: usize, at: usize) -> Option<ServiceLook> {
        self.directory.service(node, at, self.lines.moment())
    }

    fn offered(&self, at: usize) -> Option<Name> {
        self.offers.service(at)
    }

    fn waiter(&self, service: &Name, at: usize) -> Option<WaiterLook> {
        self.queue.waiter(service, at)
    }

    fn ids_left(&self) -> u16 {
        self.lines.ids_left()
    }

    fn records_left(&self) -> Option<u32> {
        Some(self.queue.records_left())
    }
}

impl ServerCore {
    /// Does what `step` does at an event that is `Time`, `Connect`, `Put`, `Set`, `Attend`, `Close`, `Avoid`, `Ready` or `Halt`,
    /// and takes no memory. At `Connect` there must be memory for a circuit more (`reserve`).
    pub fn local(&mut self, event: &Event, out: &mut OutBox) -> Answer
        requires rest { AtRest self.old }
        requires local { IsLocal event.now }
        requires memory { HasSpare (cost event.now) self.old }
        requires empty { out.old ≡ [] }
        ensures rest { AtRest self.new }
        ensures spare { Spends (cost event.now) self.old self.new }
        ensures opening { opening self.new ≡ opening self.old }
        ensures state { (m : Machine) → IsMachine self.old m →
            IsMachine self.new (next m event.now) }
        ensures answer { (m : Machine) → IsMachine self.old m → result ≡ answered m event.now }
        ensures frames { (m : Machine) → IsMachine self.old m → Frames m event.now out.new }
        ensures put { PutFits result event.now }
        ensures took { TookFits (lines.ready self.old.lines) result event.now }
    {
        let answer = self.act(event, out);
        self.follow(out);
        answer
    }

    // An event, but for what follows every event. Takes its memory first: after `Memory` nothing has changed.
    fn apply(&mut self, alloc: Global, event: &Event, out: &mut OutBox) -> Result<Answer, Memory>
        requires rest { AtRest self.old }
        requires empty { out.old ≡ [] }
        ensures does { IfOk result (λ a.
            Simulates (λ config s.
            server_event config s (event_shown event.now)) self.old self.new a out.old out.new) }
        ensures same { SameConfig self.old self.new }
        ensures spare { HasSpare 0 self.new }
        ensures put { IfOk result (λ a. PutFits a event.now) }
        ensures took { IfOk result (λ a. TookFits (lines.ready self.old.lines) a event.now) }
        ensures most { length out.new ≤ 128 }
        ensures err { OnErr result ((self.new ≡ self.old) × (out.new ≡ out.old)) }
    {
        match event {
            Event::Heard { from, payload, now } => {
                self.hear(alloc, *from, payload.as_slice(), *now, out)
            }
            Event::Take { line, n } => self.lines.take(alloc, *line, *n),
            Event::Connect { line, service } => {
                self.reserve(alloc, 1)?;
                Ok(self.connect(*line, service, out))
            }
            other => Ok(self.act(other, out)),
        }
    }

    // The events that take no memory. Those that are nothing to a server are answered so.
    fn act(&mut self, event: &Event, out: &mut OutBox) -> Answer
        requires rest { AtRest self.old }
        requires local { TakesNoMemory event.now }
        requires memory { HasSpare (cost event.now) self.old }
        requires empty { out.old ≡ [] }
        ensures does { Simulates (λ config s.
            server_event config s (event_shown event.now)) self.old self.new result out.old out.new }
        ensures same { SameConfig self.old self.new }
        ensures spare { Spends (cost event.now) self.old self.new }
        ensures put { PutFits result event.now }
        ensures took { TookFits (lines.ready self.old.lines) result event.now }
        ensures most { length out.new ≤ 128 }
    {
        match event {
            Event::Time { now } => self.time(*now, out),
            Event::Connect { line, service } => self.connect(*line, service, out),
            Event::Avoid { line } => self.avoid(*line),
            Event::Ready { line, ready } => self.set_ready(*line, *ready),
            Event::Halt => self.halt(out),
            other => match line_call(other) {
                Some((line, call)) => self.lines.call(line, &call),
                None => Answer::NotHere,
            },
        }
    }

    // Time has come to a moment: circuits do what is due, and the directory forgets what isn't live.
    fn time(&mut self, now: u64, out: &mut OutBox) -> Answer
        requires rest { AtRest self.old }
        requires empty { out.old ≡ [] }
        ensures does { Simulates (λ config s.
            does s answers.Done (passes_time (server_side config) (at_moment now s.core)))
            self.old self.new result out.old out.new }
        ensures same { SameConfig self.old self.new }
        ensures spare { Spends 0 self.old self.new }
        ensures most { length out.new ≤ 128 }
        ensures answer { result ≡ Answer.Done }
    {
        self.lines.pass(now);
        self.lines.time(out);
        self.directory.expire(self.lines.moment());
        Answer::Done
    }

    // What follows every event: the requests of sessions that have become free are finished, and lines without a session
    // grant those that wait.
    fn follow(&mut self, out: &mut OutBox)
        requires memory { HasSpare 0 self.old }
        requires room { length out.old ≤ 128 }
        ensures rest { AtRest self.new }
        ensures same { SameConfig self.old self.new }
        ensures spare { Spends 0 self.old self.new }
        ensures follows { Follows self.old self.new out.old out.new }
    {
        self.finish();
        self.lines.clear();
        self.grant_pass(out);
    }
}
