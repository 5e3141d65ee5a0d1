//! The wire.

ghost use Rattle.std.specs.Prelude.{◌≡◌, ◌≢◌, ◌*◌, ◌<◌, ◌↔◌, IfOk, IsSome, IsTrue, MatchOption, None, map, length, slice_get};
ghost use Rattle.lat_machines.specs.values.Addresses.{address, everyone};
ghost use Rattle.lat_machines.specs.cores.Lines.{has_session, waiting_at};
ghost use Rattle.lat_machines.specs.world.Machines.{Machines, core_of, open_machines};
ghost use Rattle.lat_server.specs.Config as servers;
ghost use Rattle.lat_node.specs.Config as nodes;
ghost use Rattle.lat_wire.specs.Kept.{frame_count, setups_of};
ghost use Rattle.lat_laws.specs.rounds.Lossless.{Lossless};
ghost use Rattle.lat_laws.specs.rounds.Rounds.{undelivered};
ghost use Rattle.lat_wire.specs.Notes.{note_shown, noted_info};
ghost use Rattle.lat_wire.specs.Rates.{RatesWhatIsLeft};
ghost use Rattle.lat_wire.specs.Stands.{Stands};
ghost use Rattle.lat_wire.specs.Told.{ShowsPost};

use crate::ends::Ends;
use crate::ledger::{Ledger, SentFrame};
use crate::notes::Note;
use lat_base::{Addr, Memory, OutBox};
use lat_node::{NodeConfig, NodeCore, RatingRule};
use lat_server::{ServerConfig, ServerCore};
use std::alloc::Global;
use std::marker::Model;

/// A server core and a node core with all frames that either ever sent. A frame is heard where it is delivered, at any time
/// and any number of times; one that never is delivered is lost. Contracts say for every world of the two machines that it
/// stands for what it stands for afterwards. See "The world of a schedule" in docs/PROTOCOL.md.
pub struct Wire<H: RatingRule> {
    pub(crate) ends: Ends<H>,
    pub(crate) server_own: Addr,
    pub(crate) node_own: Addr,
    pub(crate) ledger: Ledger,
    pub(crate) notes: Vec<Note>,
    /// How many events there were.
    pub(crate) count: u64,
    /// The moment of the schedule, in milliseconds.
    pub(crate) moment: u64,
    /// Ten times the circuit timer, in milliseconds.
    pub(crate) timer: u64,
}

impl<H: RatingRule> Drop for Wire<H> {
    fn drop(self) {
        let Self {
            ends,
            server_own,
            node_own,
            ledger,
            notes,
            count,
            moment,
            timer,
        } = self;
    }
}

impl<H: RatingRule> Model for Wire<H> {
    ghost use Rattle.std.specs.Prelude.{◌≡◌, []};
    ghost use Rattle.lat_wire.specs.Kept.{Kept, Holds};
    ghost use Rattle.lat_wire.specs.Shown.{shown};

    ghost Value = { Kept H };

    ghost view = { shown };

    ghost invariant = { λ a. Holds (shown a) × (a.ends.out ≡ []) };
}

impl<H: RatingRule> Wire<H> {
    /// Opens a server and a node at moment 0. Both configurations are valid, their addresses differ, neither is that of
    /// everyone, and the rule's only answer is the least of 255 and what is left. `Memory` where none is found.
    pub fn make(
        alloc: Global,
        server: &ServerConfig,
        node: &NodeConfig,
        rule: H,
    ) -> Result<Wire<H>, Memory>
        requires server { servers.IsConfig server.now }
        requires node { nodes.IsConfig node.now }
        requires apart { address server.now.own.0 ≢ address node.now.own.0 }
        requires server_own { address server.now.own.0 ≢ everyone }
        requires node_own { address node.now.own.0 ≢ everyone }
        requires fact { H.fact rule }
        requires rates { RatesWhatIsLeft (H.may rule) }
        ensures setups { IfOk result (λ k.
            setups_of k ≡ record {
              server = servers.config_shown server.now;
              node = nodes.config_shown node.now;
            }) }
        ensures stands { IfOk result (λ k. Stands k (open_machines (setups_of k))) }
        ensures moment { IfOk result (λ k. k.moment ≡ 0) }
    {
        Ok(Wire {
            ends: Ends {
                server: ServerCore::make(alloc, server)?,
                node: NodeCore::make(alloc, node, rule)?,
                out: OutBox::make(alloc)?,
            },
            server_own: server.own,
            node_own: node.own,
            ledger: Ledger::make(alloc)?,
            notes: Vec::new(alloc),
            count: 0,
            moment: 0,
            timer: u64::from(server.timing.timer) * 10,
        })
    }

    /// The server core.
    pub fn server(&self) -> &ServerCore
        ensures { result.now ≡ self.now.server }
    {
        &self.ends.server
    }

    /// The node core.
    pub fn node(&self) -> &NodeCore<H>
        ensures { result.now ≡ self.now.node }
    {
        &self.ends.node
    }

    /// How many frames were sent.
    pub fn frames(&self) -> u64
        ensures value { (w : Machines) → Stands self.now w → result ≡ length w.posts }
        ensures count { result ≡ frame_count self.now }
    {
        self.ledger.posts.len() as u64
    }

    /// The frame of this index, and whether the server sent it. `None` exactly past the last.
    pub fn frame(&self, index: u64) -> Option<(bool, SentFrame<'_>)>
        ensures value { (w : Machines) →
            Stands self.now w →
            MatchOption result (slice_get w.posts index ≡ None) (λ shown.
            ShowsPost w.posts index shown.0 shown.1) }
        ensures there { IsSome result ↔ (index < frame_count self.now) }
    {
        let sent = self.ledger.posts.get(index)?;
        Some((sent.post.by_server, sent.post.frame))
    }

    /// The first frame that was sent to the other end or to everyone and never delivered. `None` exactly where there is none.
    pub fn undelivered(&self) -> Option<u64>
        ensures { (w : Machines) → Stands self.now w → result ≡ undelivered (setups_of self.now) w }
    {
        self.ledger.posts.undelivered()
    }

    /// Whether nothing was lost between the two ends so far: in each direction the frames that were delivered at least once
    /// are the first of those sent, and they came in this order.
    pub fn lossless(&self) -> bool
        ensures { (w : Machines) → Stands self.now w →
            IsTrue result ↔ Lossless (setups_of self.now) w }
    {
        self.ledger.posts.lossless()
    }

    /// The moment of the schedule, in milliseconds.
    pub fn moment(&self) -> u64
        ensures { result ≡ self.now.moment }
    {
        self.moment
    }

    /// Ten times the circuit timer of the server, in milliseconds.
    pub fn timer(&self) -> u64
        ensures { result ≡ 10 * (setups_of self.now).server.timing.timer }
    {
        self.timer
    }

    /// Whether a line of the server or of the node exists and has a session.
    pub fn has_session(&self, server: bool, line: u8) -> bool
        ensures { (w : Machines) → Stands self.now w →
            result ≡ has_session (core_of w server) line }
    {
        self.ends.has_session(server, line)
    }

    /// How many heard items a take on a line of the server or of the node could give now, 0 where it would be refused.
    pub fn waiting(&self, server: bool, line: u8) -> u16
        ensures { (w : Machines) → Stands self.now w → result ≡ waiting_at (core_of w server) line }
    {
        self.ends.waiting(server, line)
    }

    /// The events that were noted, in order.
    pub fn notes(&self) -> &[Note]
        ensures { (w : Machines) → Stands self.now w →
            map note_shown result.now ≡ map noted_info w.noted }
    {
        self.notes.as_slice()
    }
}
