//! The requests of a node to servers.

ghost use Rattle.std.specs.Prelude.{◌≡◌, ◌<◌, ◌≤◌, ◌+◌, ◌&&◌, ◌++◌, ◌∷◌, []};
ghost use Rattle.std.specs.Prelude.{true, false, not, length, nat_eq, Some, None, IfOk, OnOk, OnErr};
ghost use Rattle.std.specs.List.{list_any};
ghost use Rattle.std.specs.Map.{lookup};
ghost use Rattle.indexmap.specs.IndexMap.{insert_entry, IsUnique};
ghost use Rattle.lat_machines.specs.node.Node.{Node, Requested, command_frame, requests_again, withdraws, request_of, was_requested};
ghost use Rattle.lat_machines.specs.values.Addresses.{address};
ghost use Rattle.lat_machines.specs.values.Events.{Requests};
ghost use Rattle.lat_machines.specs.values.Names.{same};
ghost use Rattle.lat_payload.specs.Frames.{Emits};
ghost use Rattle.lat_payload.specs.Notices.{action_shown};
ghost use Rattle.lat_lines.specs.Answers.{IsPlain};
ghost use Rattle.lat_lines.specs.AnswerValues.{answer_shown};
ghost use Rattle.lat_node.specs.Events.{Simulates, at_event};
ghost use Rattle.lat_node.specs.Kept.{config_of, SameConfig};
ghost use Rattle.lat_node.specs.Stands.{Stands, was_made, request_shown, request_in};

use crate::hook::RatingRule;
use crate::node::NodeCore;
use indexmap::IndexMap;
use lat_base::{Addr, Answer, Memory, Name, OutBox};
use lat_notices::Action;
use lat_payload::command_frame;
use std::alloc::Global;

/// A request, as it was first made.
#[derive(Clone, Copy)]
pub(crate) struct Request {
    /// The server.
    pub(crate) to: Addr,
    pub(crate) service: Name,
    /// Whether a start was accepted for it.
    pub(crate) accepted: bool,
}

impl<H: RatingRule> NodeCore<H> {
    /// Asks a server for a session with one of its lines' services, under this id. Takes its memory first.
    pub(crate) fn request(
        &mut self,
        to: Addr,
        id: u16,
        service: &Name,
        out: &mut OutBox,
    ) -> Result<Answer, Memory>
        requires room { length out.old + 16 ≤ 256 }
        ensures does { IfOk result (λ a.
            Simulates (at_event (Requests (address to.0) id service.now)) self.old self.new a out.old out.new) }
        ensures same { SameConfig self.old self.new }
        ensures lines { self.new.lines ≡ self.old.lines }
        ensures plain { IfOk result IsPlain }
        ensures most { length out.new ≤ length out.old + 1 }
        ensures err { OnErr result ((self.new ≡ self.old) × (out.new ≡ out.old)) }
    {
        match self.requests.get(&id).copied() {
            Some(request) => Ok(self.ask_again(id, &request, to, service, out)),
            None => {
                insert(&mut self.requests, id, to, service)?;
                self.command(to, id, Action::Ask, service, out);
                Ok(Answer::Done)
            }
        }
    }

    // What was asked for under this id is asked for again.
    fn ask_again(
        &self,
        id: u16,
        request: &Request,
        to: Addr,
        service: &Name,
        out: &mut OutBox,
    ) -> Answer
        requires room { length out.old < 256 }
        ensures same { (s : Node) (r : Requested) →
            request_shown (id, request.now) ≡ request_in s r →
            (requests_again (config_of self.now) s (address to.0) id service.now (Some r)).state
            ≡ s }
        ensures answer { (s : Node) (r : Requested) →
            request_shown (id, request.now) ≡ request_in s r →
            answer_shown result
            ≡ (requests_again (config_of self.now) s (address to.0) id service.now (Some r)).answer }
        ensures frames { (s : Node) (r : Requested) →
            request_shown (id, request.now) ≡ request_in s r →
            Emits (requests_again (config_of self.now) s (address to.0) id service.now (Some r)).frames out.old out.new }
        ensures plain { IsPlain result }
        ensures most { length out.new ≤ length out.old + 1 }
    {
        if !request.is_for(to, service) {
            return Answer::IdUsed;
        }
        self.command(to, id, Action::Ask, service, out);
        Answer::Done
    }

    /// Withdraws the request of this id.
    pub(crate) fn withdraw(&self, id: u16, out: &mut OutBox) -> Answer
        requires room { length out.old + 16 ≤ 256 }
        ensures does { Simulates (λ config s.
            withdraws config s (request_of id s)) self.now self.now result out.old out.new }
        ensures plain { IsPlain result }
        ensures most { length out.new ≤ length out.old + 1 }
    {
        match self.requests.get(&id).copied() {
            Some(request) => {
                self.command(request.to, id, Action::Cancel, &request.service, out);
                Answer::Done
            }
            None => Answer::Closed,
        }
    }

    // Sends a command.
    fn command(&self, to: Addr, id: u16, action: Action, service: &Name, out: &mut OutBox)
        requires room { length out.old < 256 }
        ensures frames { Emits (command_frame (config_of self.now)
            (address to.0) id (action_shown action) service.now ∷ []) out.old out.new }
        ensures most { length out.new ≡ length out.old + 1 }
    {
        out.push(command_frame(
            to,
            self.incarnation,
            id,
            action,
            &self.lines.name(),
            service,
        ));
    }

    /// Whether a request with this service was made under this id, and no start was accepted for it.
    pub(crate) fn is_requested(&self, id: u16, service: &Name) -> bool
        ensures { (s : Node) → Stands self.now s →
            result ≡ (was_requested service.now (request_of id s)
            && not (list_any (nat_eq id) s.accepted)) }
    {
        match self.requests.get(&id) {
            Some(request) => request.service.same(service) && !request.accepted,
            None => false,
        }
    }

    /// Notes that a start was accepted for the request of this id, which was made.
    pub(crate) fn note_accepted(&mut self, id: u16)
        ensures state { (s : Node) → Stands self.old s → was_made s id ≡ true →
            Stands self.new (record s { accepted = s.accepted ++ id ∷ [] }) }
        ensures same { SameConfig self.old self.new }
        ensures lines { self.new.lines ≡ self.old.lines }
        ensures turned_away { self.new.turned_away ≡ self.old.turned_away }
    {
        if let Some(request) = self.requests.get(&id).copied() {
            accept(&mut self.requests, id, request);
        }
    }
}

impl Request {
    // Whether it was made to this server, for this service.
    fn is_for(self, to: Addr, service: &Name) -> bool
        ensures { result ≡ (nat_eq (address self.to.0) (address to.0)
            && same self.service service.now) }
    {
        self.to == to && self.service.same(service)
    }
}

// A request more, behind all others.
fn insert(
    requests: &mut IndexMap<u16, Request>,
    id: u16,
    to: Addr,
    service: &Name,
) -> Result<(), Memory>
    requires new { lookup (nat_eq id) requests.old.entries ≡ None }
    ensures ok { OnOk result (requests.new.entries
        ≡ requests.old.entries
        ++ (id, record { to = to; service = service.now; accepted = false }) ∷ []) }
    ensures err { OnErr result (requests.new.entries ≡ requests.old.entries) }
{
    let request = Request {
        to,
        service: *service,
        accepted: false,
    };
    requests.insert(id, request)?;
    Ok(())
}

// A start was accepted for the request of this id. The id is there, so that this needs no memory.
fn accept(requests: &mut IndexMap<u16, Request>, id: u16, request: Request)
    requires there { lookup (nat_eq id) requests.old.entries ≡ Some request }
    ensures accepted { requests.new.entries
        ≡ insert_entry nat_eq requests.old.entries id (record request { accepted = true }) }
    ensures apart { IsUnique nat_eq requests.new }
{
    let accepted = Request {
        accepted: true,
        ..request
    };
    let _ = requests.insert(id, accepted);
}
