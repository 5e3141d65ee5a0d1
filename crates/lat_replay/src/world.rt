//! The world.

ghost use Rattle.std.specs.Prelude.{◌≡◌, ◌≢◌, ◌*◌, ◌↔◌, ◌++◌, IfOk, OnErr, OnOk, IsTrue, MatchOption, None, length, slice_get, string_bytes};
ghost use Rattle.lat_machines.specs.values.Addresses.{address, everyone};
ghost use Rattle.lat_machines.specs.cores.Lines.{has_session};
ghost use Rattle.lat_machines.specs.world.Machines.{Machines, core_of, open_machines};
ghost use Rattle.lat_machines.specs.world.Reports.{report};
ghost use Rattle.lat_node.specs.Config as nodes;
ghost use Rattle.lat_wire.specs.report.ReportText.{report_text};
ghost use Rattle.lat_laws.specs.rounds.Lossless.{Lossless};
ghost use Rattle.lat_laws.specs.rounds.Rounds.{undelivered};
ghost use Rattle.lat_server.specs.Config as servers;
ghost use Rattle.lat_laws.specs.tales.Books.{lines_at};
ghost use Rattle.lat_wire.specs.Rates.{RatesWhatIsLeft};
ghost use Rattle.lat_wire.specs.Told.{ShowsPost};
ghost use Rattle.lat_replay.specs.Counts.{counts_in};
ghost use Rattle.lat_replay.specs.Kept.{moment_of, setups_of};
ghost use Rattle.lat_replay.specs.Setups.{setups_shown};
ghost use Rattle.lat_replay.specs.Stands.{Stands};

use crate::counts::{Counts, counts_of};
use crate::roster::Roster;
use crate::summary::report_onto;
use lat_base::Memory;
use lat_node::{NodeCore, RatingRule};
use lat_schedule::Setup;
use lat_server::ServerCore;
use lat_wire::{SentFrame, Wire};
use std::alloc::Global;
use std::marker::Model;

/// A server core and a node core that are told the events of a schedule, all frames that either ever sent, and a row of the
/// report for each session of the server. Contracts say for every world of the two machines that it stands for what it stands
/// for afterwards. See "The world of a schedule" in docs/PROTOCOL.md.
pub struct World<H: RatingRule> {
    pub(crate) wire: Wire<H>,
    pub(crate) roster: Roster,
    /// How many lines each end has.
    pub(crate) server_lines: u8,
    pub(crate) node_lines: u8,
}

impl<H: RatingRule> Drop for World<H> {
    fn drop(self) {
        let Self {
            wire,
            roster,
            server_lines,
            node_lines,
        } = self;
    }
}

impl<H: RatingRule> Model for World<H> {
    ghost use Rattle.lat_replay.specs.Kept.{Kept};
    ghost use Rattle.lat_replay.specs.Stands.{Holds};

    ghost Value = { Kept H };

    ghost view = { λ a. record { wire = a.wire; roster = a.roster } };

    ghost invariant = { λ a. Holds (record {
      wire = a.wire;
      roster = a.roster;
    }) a.server_lines a.node_lines };
}

impl<H: RatingRule> World<H> {
    /// Opens a server and a node at moment 0. Both configurations are valid, their addresses differ, neither is that of
    /// everyone, and the rule's only answer is the least of 255 and what is left. `Memory` where none is found.
    pub fn make(alloc: Global, setup: &Setup, rule: H) -> Result<World<H>, Memory>
        requires server { servers.IsConfig setup.now.server }
        requires node { nodes.IsConfig setup.now.node }
        requires apart { address setup.now.server.own.0 ≢ address setup.now.node.own.0 }
        requires server_own { address setup.now.server.own.0 ≢ everyone }
        requires node_own { address setup.now.node.own.0 ≢ everyone }
        requires fact { H.fact rule }
        requires rates { RatesWhatIsLeft (H.may rule) }
        ensures setups { IfOk result (λ k. setups_of k ≡ setups_shown setup.now) }
        ensures stands { IfOk result (λ k. Stands k (open_machines (setups_of k))) }
        ensures moment { IfOk result (λ k. moment_of k ≡ 0) }
    {
        let wire = Wire::make(alloc, &setup.server, &setup.node, rule)?;
        let roster = Roster::make(alloc)?;
        Ok(World {
            wire,
            roster,
            server_lines: setup.server.lines,
            node_lines: setup.node.lines,
        })
    }

    // How many lines the server or the node has.
    pub(crate) fn lines(&self, server: bool) -> u8
        ensures { lines_at server (setups_of self.now) ≡ result }
    {
        if server {
            self.server_lines
        } else {
            self.node_lines
        }
    }

    /// The server core that the world steps.
    pub fn server(&self) -> &ServerCore
        ensures { result.now ≡ self.now.wire.server }
    {
        self.wire.server()
    }

    /// The node core that the world steps.
    pub fn node(&self) -> &NodeCore<H>
        ensures { result.now ≡ self.now.wire.node }
    {
        self.wire.node()
    }

    /// Both cores with their frames, without the rows of the report.
    pub fn wire(&self) -> &Wire<H>
        ensures { result.now ≡ self.now.wire }
    {
        &self.wire
    }

    /// How many frames were sent.
    pub fn frames(&self) -> u64
        ensures { (w : Machines) → Stands self.now w → result ≡ length w.posts }
    {
        self.wire.frames()
    }

    /// The frame of this index, and whether the server sent it. `None` exactly past the last.
    pub fn frame(&self, index: u64) -> Option<(bool, SentFrame<'_>)>
        ensures { (w : Machines) →
            Stands self.now w →
            MatchOption result (slice_get w.posts index ≡ None) (λ shown.
            ShowsPost w.posts index shown.0 shown.1) }
    {
        self.wire.frame(index)
    }

    /// The first frame that was sent to the other end or to everyone and never delivered. `None` exactly where there is none.
    pub fn undelivered(&self) -> Option<u64>
        ensures { (w : Machines) → Stands self.now w → result ≡ undelivered (setups_of self.now) w }
    {
        self.wire.undelivered()
    }

    /// Whether nothing was lost between the two ends so far: in each direction the frames that were delivered at least once
    /// are the first of those sent, and they came in this order.
    pub fn lossless(&self) -> bool
        ensures { (w : Machines) → Stands self.now w →
            IsTrue result ↔ Lossless (setups_of self.now) w }
    {
        self.wire.lossless()
    }

    /// The moment of the schedule, in milliseconds.
    pub fn moment(&self) -> u64
        ensures { result ≡ moment_of self.now }
    {
        self.wire.moment()
    }

    /// Ten times the circuit timer of the server, in milliseconds.
    pub fn timer(&self) -> u64
        ensures { result ≡ 10 * (setups_of self.now).server.timing.timer }
    {
        self.wire.timer()
    }

    /// Whether a line of the server or of the node exists and has a session.
    pub fn held(&self, server: bool, line: u8) -> bool
        ensures { (w : Machines) → Stands self.now w →
            result ≡ has_session (core_of w server) line }
    {
        self.wire.has_session(server, line)
    }

    /// Appends the report. `Memory` where none is found, or where a count stands at the greatest number of 64 bits, where it
    /// isn't exact any more; then the text is as it was. It takes memory for the report twice.
    pub fn report(&self, alloc: Global, out: &mut String) -> Result<(), Memory>
        ensures ok { OnOk result ((w : Machines) →
            Stands self.now w →
            string_bytes out.new
            ≡ string_bytes out.old ++ report_text (report (setups_of self.now) w)) }
        ensures err { OnErr result (string_bytes out.new ≡ string_bytes out.old) }
    {
        let text = self.reported(alloc)?;
        Ok(out.push_str(&text)?)
    }

    /// The report. `Memory` as for `report`.
    pub fn reported(&self, alloc: Global) -> Result<String, Memory>
        ensures { IfOk result (λ text. (w : Machines) → Stands self.now w →
            string_bytes text ≡ report_text (report (setups_of self.now) w)) }
    {
        let mut text = String::new(alloc);
        report_onto(alloc, &self.wire, &self.roster, &mut text)?;
        Ok(text)
    }

    /// The frames sent so far, the sessions of the report, and the items put and taken over both directions of all of them.
    pub fn counts(&self) -> Counts
        ensures { (w : Machines) → Stands self.now w →
            result ≡ counts_in (report (setups_of self.now) w) }
    {
        counts_of(&self.wire, &self.roster)
    }
}
