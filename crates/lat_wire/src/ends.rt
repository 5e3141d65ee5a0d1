//! The two cores.

ghost use Rattle.std.specs.Prelude.{◌≡◌, ◌<◌, ◌≤◌, [], length, IfSome, IfOk, OnOk, OnErr};
ghost use Rattle.lat_base.specs.Answers.{PutFits};
ghost use Rattle.lat_machines.specs.cores.Hearing.{names};
ghost use Rattle.lat_machines.specs.cores.Lines.{has_session, waiting_at};
ghost use Rattle.lat_machines.specs.values.Addresses.{address};
ghost use Rattle.lat_machines.specs.values.Timing.{half_range};
ghost use Rattle.lat_machines.specs.world.Machines.{Machines, core_of, tell};
ghost use Rattle.lat_lines.specs.Events.{event_shown};
ghost use Rattle.lat_wire.specs.Ends.{AreEnds, MadeFrames, setups_of, half_at, half_named, is_held};
ghost use Rattle.lat_wire.specs.Rates.{rates};
ghost use Rattle.lat_wire.specs.Told.{answered};

use crate::ledger::Heading;
use lat_base::{Addr, Answer, Core, Event, Memory, OutBox, OutFrame, SessionState};
use lat_node::{NodeCore, RatingRule};
use lat_seq::Span;
use lat_server::ServerCore;
use std::alloc::Global;
use std::marker::Model;

/// The server core and the node core, with the frames of the last event.
pub(crate) struct Ends<H: RatingRule> {
    pub(crate) server: ServerCore,
    pub(crate) node: NodeCore<H>,
    pub(crate) out: OutBox,
}

impl<H: RatingRule> Drop for Ends<H> {
    fn drop(self) {
        let Self { server, node, out } = self;
    }
}

impl<H: RatingRule> Model for Ends<H> {
    ghost use Rattle.lat_wire.specs.Ends.{KeptEnds, Holds};

    ghost Value = { KeptEnds H };

    ghost view = { λ a. record { server = a.server; node = a.node; out = a.out } };

    ghost invariant = { λ a. Holds H.may H.fact (record {
      server = a.server;
      node = a.node;
      out = a.out;
    }) };
}

impl<H: RatingRule> Ends<H> {
    /// Tells the server or the node an event. Its frames stand in the box then, which must be empty before.
    pub(crate) fn step(
        &mut self,
        alloc: Global,
        server: bool,
        event: &Event,
    ) -> Result<Answer, Memory>
        requires { self.old.out ≡ [] }
        ensures state { OnOk result ((w : Machines) →
            AreEnds self.old w →
            AreEnds self.new (tell (setups_of self.old) w server (event_shown event.now)
            (rates (setups_of self.old) w))) }
        ensures answer { IfOk result (λ a.
            (w : Machines) → AreEnds self.old w →
            a ≡ answered (setups_of self.old) w server (event_shown event.now)) }
        ensures frames { OnOk result ((w : Machines) → AreEnds self.old w →
            MadeFrames (setups_of self.old) w server (event_shown event.now) self.new.out) }
        ensures put { IfOk result (λ a. PutFits a event.now) }
        ensures setups { setups_of self.new ≡ setups_of self.old }
        ensures err { OnErr result (self.new ≡ self.old) }
    {
        if server {
            self.server.step(alloc, event, &mut self.out)
        } else {
            self.node.step(alloc, event, &mut self.out)
        }
    }

    /// The frames of the last event.
    pub(crate) fn frames(&self) -> &[OutFrame]
        ensures value { result.now ≡ self.now.out }
        ensures most { length self.now.out ≤ 256 }
    {
        self.out.frames()
    }

    /// Drops the frames of the last event.
    pub(crate) fn clear(&mut self)
        ensures { self.new ≡ record self.old { out = [] } }
    {
        self.out.clear();
    }

    /// Half the range of the numbers of the circuit that a RUN names at the server or the node; `None` where no circuit of this
    /// address and these ids lives there whose reply was heard.
    pub(crate) fn half_range(&self, server: bool, from: Addr, heading: Heading) -> Option<u64>
        ensures value { (w : Machines) → AreEnds self.now w →
            result ≡ half_at (core_of w server) (address from.0) heading }
        ensures above { IfSome result (λ half. 0 < half) }
    {
        if server {
            half_of(
                self.server.names(from, heading.to, heading.from),
                self.server.span(heading.to),
            )
        } else {
            half_of(
                self.node.names(from, heading.to, heading.from),
                self.node.span(heading.to),
            )
        }
    }

    /// Whether a line of the server or of the node has a session.
    pub(crate) fn has_session(&self, server: bool, line: u8) -> bool
        ensures { (w : Machines) → AreEnds self.now w →
            result ≡ has_session (core_of w server) line }
    {
        if server {
            is_held(self.server.look(line).state)
        } else {
            is_held(self.node.look(line).state)
        }
    }

    /// How many heard items a take on a line of the server or of the node could give now.
    pub(crate) fn waiting(&self, server: bool, line: u8) -> u16
        ensures { (w : Machines) → AreEnds self.now w →
            result ≡ waiting_at (core_of w server) line }
    {
        if server {
            self.server.look(line).waiting
        } else {
            self.node.look(line).waiting
        }
    }
}

// Whether it is the state of a session that a line has.
fn is_held(state: SessionState) -> bool
    ensures { result ≡ is_held state }
{
    !matches!(state, SessionState::Free)
}

// Half the range of the circuit of this span, where it is named.
fn half_of(names: bool, span: Option<Span>) -> Option<u64>
    ensures value { result ≡ half_named names span }
    ensures above { IfSome result (λ half. 0 < half) }
{
    if names {
        Some(u64::from(span?.half()))
    } else {
        None
    }
}
