//! Granting requests, and finishing them.

ghost use Rattle.std.specs.Prelude.{◌≡◌, ◌≤◌, ◌+◌, ◌||◌, ◌&&◌, not, length, map, false, true, List, Some, find, option_map, nat_eq};
ghost use Rattle.lat_base.specs.declared.addr.Addr.{Addr};
ghost use Rattle.lat_base.specs.declared.outbox.OutFrame.{OutFrame};
ghost use Rattle.lat_machines.specs.cores.Cores.{Core};
ghost use Rattle.lat_machines.specs.cores.Lines.{has_session};
ghost use Rattle.lat_machines.specs.server.Queue.{QueueEvent, Request, next_request};
ghost use Rattle.lat_machines.specs.server.Server.{Server, Passing, may_grant, can_open, fitting, grants_by, granting, grant_line};
ghost use Rattle.lat_machines.specs.values.Addresses.{address};
ghost use Rattle.lat_queue.specs.Histories as queue;
ghost use Rattle.lat_queue.specs.Histories.{key_shown, is_any_waiting};
ghost use Rattle.lat_queue.specs.Tables.{waiting_count};
ghost use Rattle.lat_lines.specs.Kept.{IsLine};
ghost use Rattle.lat_lines.specs.Stands as lines;
ghost use Rattle.lat_server.specs.declared.config.Offer.{Offer};
ghost use Rattle.lat_server.specs.Events.{HasPassed, Passes, IsShut, all_lines};
ghost use Rattle.lat_server.specs.Kept.{config_of, AtRest, SameConfig, Spends, with_queue};
ghost use Rattle.lat_server.specs.Concluded.{finish_each};
ghost use Rattle.lat_server.specs.Stands.{Stands};

use crate::server::ServerCore;
use lat_base::{Addr, Kept, Name, OutBox};
use lat_notices::Outcome;
use lat_payload::status_frame;
use lat_queue::{Key, Queue};

// Finishes the requests of these keys, in order.
fn finish_keys(requests: &mut Queue, keys: &[Key])
    ensures stands { (q : List QueueEvent) →
        queue.Stands requests.old q →
        queue.Stands requests.new (finish_each (map key_shown keys.now) q) }
    ensures offered { requests.new.offered ≡ requests.old.offered }
    ensures waiting { waiting_count requests.new.entries ≡ waiting_count requests.old.entries }
{
    for key in keys {
        requests.finish(key);
    }
}

impl ServerCore {
    /// Finishes the requests whose sessions became free in the event.
    pub(crate) fn finish(&mut self)
        ensures stands { (q : List QueueEvent) →
            queue.Stands self.old.queue q →
            queue.Stands self.new.queue (finish_each (map key_shown self.old.lines.freed) q) }
        ensures others { self.new ≡ with_queue self.new.queue self.old }
        ensures waiting { waiting_count self.new.queue.entries
            ≡ waiting_count self.old.queue.entries }
    {
        let Self { lines, queue, .. } = self;
        finish_keys(queue, lines.freed());
    }

    /// Goes over the lines by rising number, where the server isn't halted: one that is ready, has no session and offers a
    /// service grants the first that waits for it, where a session to that station can be had. Nothing but a grant changes whether one can, so the station that was last
    /// found to have none isn't looked for again until something is granted.
    pub(crate) fn grant_pass(&mut self, out: &mut OutBox)
        requires rest { AtRest self.old }
        requires room { length out.old + 80 ≤ 256 }
        ensures passes { Passes all_lines self.old self.new out.old out.new }
        ensures rest { AtRest self.new }
        ensures same { SameConfig self.old self.new }
        ensures spare { Spends 0 self.old self.new }
    {
        if self.grants_none() {
            return;
        }
        let count = self.lines.count();
        let mut shut = None;
        for line in 1..count + 1 {
            shut = self.grant_line(line, shut, out);
        }
    }

    // No line can grant: none offers a service, or nobody waits.
    fn grants_none(&self) -> bool
        ensures { (q : List QueueEvent) →
            queue.Stands self.now.queue q →
            result ≡ (nat_eq (length self.now.offers) 0 || not (is_any_waiting q)) }
    {
        self.offers.as_slice().is_empty() || !self.queue.is_any_waiting()
    }

    // The service that a line offers.
    fn offer_on(&self, line: u8) -> Option<Name>
        ensures { result ≡ option_map (λ (o : Offer). o.service)
            (find (λ (o : Offer). nat_eq o.line line) self.now.offers) }
    {
        self.offers
            .as_slice()
            .iter()
            .find(|offer| offer.line == line)
            .map(|offer| offer.service)
    }

    // Whether a line may grant, and has no session.
    fn may_grant(&self, line: u8) -> bool
        requires { IsLine self.now.lines.lines line }
        ensures { (s : Server) → Stands self.now s →
            result ≡ (may_grant s line && not (has_session s.core line)) }
    {
        self.gate.is_open(line) && !self.lines.has_session(line)
    }

    // A line grants what it can. It is told a station to which no session can be had, and tells one.
    fn grant_line(&mut self, line: u8, shut: Option<Addr>, out: &mut OutBox) -> Option<Addr>
        requires rest { AtRest self.old }
        requires shut { IsShut shut self.old }
        requires line { IsLine self.old.lines.lines line }
        requires room { length out.old + 17 ≤ 256 }
        ensures passes { Passes (λ config p.
            grant_line config p line) self.old self.new out.old out.new }
        ensures shut { IsShut result self.new }
        ensures rest { AtRest self.new }
        ensures same { SameConfig self.old self.new }
        ensures spare { Spends 0 self.old self.new }
        ensures most { length out.new ≤ length out.old + 2 }
    {
        if let Some(service) = self.offer_on(line) {
            if self.may_grant(line) {
                return self.grant_first(line, &service, shut, out);
            }
        }
        shut
    }

    // Whether a session to the station can be had, where to this one none can.
    fn can_open(&self, shut: Option<Addr>, from: Addr) -> bool
        requires { IsShut shut self.now }
        ensures { (c : Core) → lines.Stands self.now.lines c →
            result ≡ can_open c (address from.0) }
    {
        if shut == Some(from) {
            return false;
        }
        self.lines.can_open(from)
    }

    // Grants the first that waits for the service, where a session to its station can be had. The line has no session.
    fn grant_first(
        &mut self,
        line: u8,
        service: &Name,
        shut: Option<Addr>,
        out: &mut OutBox,
    ) -> Option<Addr>
        requires rest { AtRest self.old }
        requires shut { IsShut shut self.old }
        requires line { IsLine self.old.lines.lines line }
        requires room { length out.old + 17 ≤ 256 }
        ensures passes { (p : Passing) (start : List OutFrame) →
            HasPassed p self.old start out.old →
            has_session p.state.core line ≡ false →
            HasPassed
            (grants_by (config_of self.old) line (Some service.now)
            (fitting p.state.core (next_request service.now p.state.queue)) p)
            self.new start out.new }
        ensures shut { IsShut result self.new }
        ensures rest { AtRest self.new }
        ensures same { SameConfig self.old self.new }
        ensures spare { Spends 0 self.old self.new }
        ensures most { length out.new ≤ length out.old + 2 }
    {
        let Some((key, from)) = self.queue.first(service) else {
            return shut;
        };
        if self.can_open(shut, from) {
            self.grant(line, service, key, from, out);
            None
        } else {
            Some(from)
        }
    }

    // Grants the request, tells its node, and connects the line.
    fn grant(&mut self, line: u8, service: &Name, key: Key, from: Addr, out: &mut OutBox)
        requires rest { AtRest self.old }
        requires line { IsLine self.old.lines.lines line }
        requires room { length out.old + 17 ≤ 256 }
        ensures passes { (p : Passing) (start : List OutFrame) (r : Request) →
            HasPassed p self.old start out.old →
            has_session p.state.core line ≡ false →
            next_request service.now p.state.queue ≡ Some r →
            r.key ≡ key_shown key →
            r.from ≡ address from.0 →
            can_open p.state.core r.from ≡ true →
            HasPassed (granting (config_of self.old) line service.now p r) self.new start out.new }
        ensures rest { AtRest self.new }
        ensures same { SameConfig self.old self.new }
        ensures spare { Spends 0 self.old self.new }
        ensures most { length out.new ≤ length out.old + 2 }
    {
        let request = Some(key);
        if self.queue.grant(service).is_none() {
            return;
        }
        out.push(status_frame(
            from,
            key.incarnation,
            key.request,
            &key.node,
            Outcome::Kept(Kept::Granted),
        ));
        let _ = self
            .lines
            .open(line, from, &key.node, service, request, out);
    }
}
