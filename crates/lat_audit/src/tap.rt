//! Which frames are captured.

ghost use Rattle.std.specs.Prelude.{◌≡◌, ◌++◌, ◌&&◌, OnOk, nat_eq, string_bytes};
ghost use Rattle.hex.specs.Hex.{IsBytes};
ghost use Rattle.lat_machines.specs.values.Addresses.{address};
ghost use Rattle.lat_machines.specs.world.Machines.{Setups, Posted};
ghost use Rattle.lat_wire.specs.Kept.{setups_of};
ghost use Rattle.lat_audit.specs.Tapped.{IsTap, IsSeenAs, up_seen, is_captured, line_of};

use crate::print::entry_onto;
use crate::run_seen::{RunSeen, run_of};
use lat_base::{Addr, Memory};
use lat_wire::{RatingRule, SentFrame, Wire};
use std::alloc::Global;

/// A tap on the wire between these stations, for one circuit of the server.
#[derive(Clone, Copy)]
pub(crate) struct Tap {
    pub(crate) server: Addr,
    pub(crate) node: Addr,
    pub(crate) circuit: u16,
}

impl Tap {
    /// A tap between the ends of a wire.
    pub(crate) fn on<H: RatingRule>(wire: &Wire<H>, circuit: u16) -> Tap
        ensures tap { IsTap (setups_of wire.now) result }
        ensures circuit { result.circuit ≡ circuit }
    {
        Tap {
            server: wire.own(true),
            node: wire.own(false),
            circuit,
        }
    }

    // Whether a RUN of the server that is sent to this station goes to the node with this source.
    fn is_up(self, to: Addr, run: RunSeen) -> bool
        ensures { result ≡ (nat_eq (address to.0) (address self.node.0)
            && nat_eq run.from self.circuit) }
    {
        to == self.node && run.from == self.circuit
    }

    // Whether a RUN of the node that is sent to this station goes to the server with both ids.
    fn is_back(self, slave: u16, to: Addr, run: RunSeen) -> bool
        ensures { result ≡ (nat_eq (address to.0) (address self.server.0)
            && nat_eq run.to self.circuit && nat_eq run.from slave) }
    {
        to == self.server && run.to == self.circuit && run.from == slave
    }

    /// What a frame says of its circuit, where it is a RUN that the server sent the node with this source.
    pub(crate) fn run_up(&self, by_server: bool, frame: &SentFrame<'_>) -> Option<RunSeen>
        ensures { (u : Setups) (x : Posted) → IsTap u self.now → IsSeenAs by_server frame.now x →
            result ≡ up_seen u self.now.circuit x }
    {
        let run = run_of(frame.payload)?;
        if by_server && self.is_up(frame.to, run) {
            Some(run)
        } else {
            None
        }
    }

    // Whether a frame is a RUN of the server to the node with this source, or one of the node back with both ids.
    fn captures(&self, slave: u16, by_server: bool, frame: &SentFrame<'_>) -> bool
        ensures value { (u : Setups) (x : Posted) →
            IsTap u self.now →
            IsSeenAs by_server frame.now x →
            result ≡ is_captured u self.now.circuit slave x }
        ensures bytes { IsBytes frame.now.payload.now }
    {
        let Some(run) = run_of(frame.payload) else {
            return false;
        };
        if by_server {
            self.is_up(frame.to, run)
        } else {
            self.is_back(slave, frame.to, run)
        }
    }

    /// Adds the line of a frame, where it is captured.
    pub(crate) fn frame_onto(
        &self,
        alloc: Global,
        text: &mut String,
        slave: u16,
        by_server: bool,
        frame: &SentFrame<'_>,
    ) -> Result<(), Memory>
        ensures text { (u : Setups) (x : Posted) →
            IsTap u self.now →
            IsSeenAs by_server frame.now x →
            OnOk result (string_bytes text.new
            ≡ string_bytes text.old ++ line_of u self.now.circuit slave x) }
        ensures bytes { IsBytes frame.now.payload.now }
    {
        if self.captures(slave, by_server, frame) {
            entry_onto(alloc, text, by_server, frame.payload)?;
        }
        Ok(())
    }
}
