//! An opener of ports in memory. Calls that are to fail can be named.

ghost use Rattle.std.specs.Prelude.{◌≡◌};
ghost use Rattle.lat_outside.specs.Openings.{no_openings};
ghost use Rattle.lat_outside.specs.Visits.{no_visits};

use crate::callers::Callers;
use crate::calls::Calls;
use crate::frames::HeardFrame;
use crate::memory_caller::MemCaller;
use crate::memory_callers::MemCallers;
use crate::memory_carrier::{MemRx, MemTx};
use crate::openings::Openings;
use crate::port_opener::{MOST_PEERS, PortFault, PortOpener, Strays};
use lat_base::Addr;
use std::alloc::Global;

impl Strays for MemRx<'_> {
    ghost strays = { λ rx. 0 };

    fn strays(&self) -> u64 {
        0
    }
}

/// The callers of a line in memory, in the order in which they come.
#[derive(Drop)]
pub struct MemScript {
    pub callers: Vec<MemCaller>,
}

/// An opener of carriers and lines in memory, none of whose calls is to fail.
#[derive(Drop)]
pub struct MemPorts<'a> {
    alloc: Global,
    frames: &'a [HeardFrame],
    lines: &'a [MemScript],
    asked: Openings,
    calls: Calls<'a>,
}

impl<'a> MemPorts<'a> {
    /// An opener whose carrier gives these frames. Each line that it opens has the next of these lists of callers, none where all
    /// were given out. The calls in `failing`, of a carrier or of a line that listens, counted together from 1, fail. Its count of
    /// faults begins at 0.
    pub fn new(
        alloc: Global,
        frames: &'a [HeardFrame],
        lines: &'a [MemScript],
        failing: &'a [u64],
    ) -> MemPorts<'a>
        ensures asked { ⟦<MemPorts<'a> as PortOpener>⟧.asked result ≡ no_openings }
        ensures faults { ⟦<MemPorts<'a> as PortOpener>⟧.faults result ≡ 0 }
        ensures calls { (result.calls.made ≡ 0) × (result.calls.failing.now ≡ failing.entry.now) }
    {
        MemPorts {
            alloc,
            frames,
            lines,
            asked: Openings::new(),
            calls: Calls::new(failing),
        }
    }

    // A line with the next callers.
    fn line(&mut self, port: Option<u16>) -> MemCallers<'a>
        ensures line { (⟦<MemCallers<'a> as Callers>⟧.visits result ≡ no_visits port)
            × (⟦<MemCallers<'a> as Callers>⟧.faults result ≡ 0) }
        ensures calls { (self.new.asked ≡ self.old.asked) × (self.new.calls.faults ≡ self.old.calls.faults) }
    {
        let Some((script, rest)) = self.lines.split_first() else {
            return MemCallers::new(self.alloc, port, &[], &[]);
        };
        self.lines = rest;
        MemCallers::new(self.alloc, port, script.callers.as_slice(), &[])
    }
}

impl<'a> PortOpener for MemPorts<'a> {
    type T = MemTx<'a>;

    type R = MemRx<'a>;

    type C = MemCallers<'a>;

    ghost asked = { λ opener. opener.asked };

    ghost faults = { λ opener. opener.calls.faults };

    fn open_carrier(
        &mut self,
        own: Addr,
        port: u16,
        peers: &[u16],
    ) -> Result<(MemTx<'a>, MemRx<'a>), PortFault> {
        self.asked.ask_carrier(own, port, peers);
        if peers.len() > MOST_PEERS {
            self.calls.fault();
            return Err(PortFault::Peers);
        }
        if self.calls.count().is_err() {
            return Err(PortFault::InUse);
        }
        Ok((MemTx::new(self.alloc, &[]), MemRx::new(self.frames, &[])))
    }

    fn open_port(&mut self, port: u16) -> Result<MemCallers<'a>, PortFault> {
        self.asked.ask_line(Some(port));
        if self.calls.count().is_err() {
            return Err(PortFault::InUse);
        }
        Ok(self.line(Some(port)))
    }

    fn open_dialling(&mut self) -> MemCallers<'a> {
        self.asked.ask_line(None);
        self.line(None)
    }
}
