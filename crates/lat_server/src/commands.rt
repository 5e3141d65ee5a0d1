//! The commands of nodes.

ghost use Rattle.std.specs.Prelude.{◌≡◌, ◌≤◌, ◌+◌, List, length, IfOk, IfSome, OnOk, OnErr};
ghost use Rattle.lat_machines.specs.values.Addresses.{address};
ghost use Rattle.lat_machines.specs.server.Server as machine;
ghost use Rattle.lat_machines.specs.server.Server.{hears_command};
ghost use Rattle.lat_machines.specs.server.Queue.{QueueEvent};
ghost use Rattle.lat_payload.specs.Notices.{action_shown, command_shown};
ghost use Rattle.lat_queue.specs.Histories as queue;
ghost use Rattle.lat_queue.specs.Histories.{key_shown};
ghost use Rattle.lat_queue.specs.Tables.{HasPlace, waiting_count};
ghost use Rattle.lat_server.specs.Commands.{may_wait, noted, HasNoted, kept_answer, kept_outcome};
ghost use Rattle.lat_lines.specs.Answers.{IsPlain};
ghost use Rattle.lat_server.specs.Events.{SimulatesAt};
ghost use Rattle.lat_server.specs.Kept.{AtRest, SameConfig, HasSpare};

use crate::server::ServerCore;
use lat_base::{Addr, Answer, Kept, Memory, OutBox};
use lat_notices::{Action, Command, Outcome};
use lat_payload::status_frame;
use lat_queue::{Key, Queue};
use std::alloc::Global;

impl ServerCore {
    /// Hears a command, and sends the status of its request back. Takes memory first, for a circuit to one that may wait too.
    pub(crate) fn hear_command(
        &mut self,
        alloc: Global,
        from: Addr,
        command: &Command,
        now: u64,
        out: &mut OutBox,
    ) -> Result<Answer, Memory>
        requires rest { AtRest self.old }
        requires room { length out.old + 16 ≤ 256 }
        ensures does { IfOk result (λ a.
            SimulatesAt now (λ config s.
            hears_command config s (address from.0) (command_shown command.now)
            (action_shown command.now.action))
            self.old self.new a out.old out.new) }
        ensures same { SameConfig self.old self.new }
        ensures spare { HasSpare 0 self.new }
        ensures plain { IfOk result IsPlain }
        ensures most { length out.new ≤ length out.old + 1 }
        ensures err { OnErr result ((self.new ≡ self.old) × (out.new ≡ out.old)) }
    {
        let count = self.queue.count_waiting() + may_wait(command.action);
        let rooms = self.lines.rooms_for(alloc, count)?;
        let kept = note(&mut self.queue, from, command)?;
        self.lines.add_rooms(rooms);
        out.push(status_frame(
            from,
            command.incarnation,
            command.request,
            &command.node,
            outcome_kept(kept),
        ));
        self.lines.pass(now);
        Ok(answer_kept(kept))
    }
}

// How many requests more may wait behind a command of this action.
fn may_wait(action: Action) -> usize
    ensures value { result ≡ may_wait action }
    ensures few { result ≤ 1 }
{
    match action {
        Action::Ask => 1,
        Action::Cancel => 0,
    }
}

// The key of a command's request.
fn key_of(command: &Command) -> Key
    ensures { key_shown result ≡ machine.key_of (command_shown command.now) }
{
    Key {
        node: command.node,
        incarnation: command.incarnation,
        request: command.request,
    }
}

// Tells the queue of the command; gives what is kept of its request then.
fn note(requests: &mut Queue, from: Addr, command: &Command) -> Result<Option<Kept>, Memory>
    ensures noted { (q : List QueueEvent) →
        queue.Stands requests.old q →
        IfOk result (λ kept. HasNoted
        (noted requests.old.offered (address from.0) (command_shown command.now)
        (action_shown command.now.action) q)
        requests.new kept) }
    ensures place { IfOk result (λ kept. IfSome kept HasPlace) }
    ensures offered { requests.new.offered ≡ requests.old.offered }
    ensures waiting { OnOk result (waiting_count requests.new.entries
        ≤ waiting_count requests.old.entries + may_wait command.now.action) }
    ensures err { OnErr result (requests.new ≡ requests.old) }
{
    let key = key_of(command);
    match command.action {
        Action::Ask => Ok(Some(requests.ask(&key, from, &command.service)?)),
        Action::Cancel => Ok(requests.cancel(&key)),
    }
}

// What the command is answered where this is kept of its request.
fn answer_kept(kept: Option<Kept>) -> Answer
    ensures value { result ≡ kept_answer kept }
    ensures plain { IsPlain result }
{
    match kept {
        Some(kept) => Answer::Kept(kept),
        None => Answer::NotKept,
    }
}

// What the node is told then.
fn outcome_kept(kept: Option<Kept>) -> Outcome
    ensures value { result ≡ kept_outcome kept }
{
    match kept {
        Some(kept) => Outcome::Kept(kept),
        None => Outcome::Unknown,
    }
}
