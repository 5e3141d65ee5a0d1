//! Callers in memory, who come one after another. Calls that are to fail can be named.

ghost use Rattle.std.specs.Prelude.{◌≡◌, ◌∷◌, ◌≤◌, length, map, option_map, IfSome};
ghost use Rattle.lat_outside.specs.Visits.{failed, no_visits, with_present};

use crate::callers::{CALLER_BYTES, CallerGot, Callers, Knock, Presence};
use crate::calls::Calls;
use crate::memory_caller::{MemCaller, MemConnection};
use crate::memory_past::MemPast;
use crate::outside::Failed;
use lat_base::Bytes;
use lat_tale::Tale;
use std::alloc::Global;

/// A line whose callers are given by a list: the next one of it comes to the line's port, or answers where it is dialled.
#[derive(Drop)]
pub struct MemCallers<'a> {
    alloc: Global,
    port: Option<u16>,
    rest: &'a [MemCaller],
    dials: Tale<u16>,
    past: MemPast,
    gone: u64,
    beside: Option<MemConnection<'a>>,
    present: Option<MemConnection<'a>>,
    calls: Calls<'a>,
}

// The next of these callers, where it comes by now to this port, or to the line's own; and who come behind it.
fn comer<'a>(
    rest: &'a [MemCaller],
    gone: u64,
    dialled: Option<u16>,
) -> Option<(&'a MemCaller, &'a [MemCaller])>
    ensures port { IfSome result (λ r. r.0.now.dialled ≡ dialled) }
    ensures next { IfSome result (λ r. rest.entry.now ≡ r.0.now ∷ r.1.now) }
{
    let (caller, behind) = rest.split_first()?;
    if caller.dialled == dialled && caller.behind <= gone {
        Some((caller, behind))
    } else {
        None
    }
}

impl<'a> MemCallers<'a> {
    /// A line with these callers, which listens at this port, if at any. The calls in `failing` fail: accepts, dials, reads, writes
    /// and watches, counted together from 1. Its count of faults begins at 0.
    pub fn new(
        alloc: Global,
        port: Option<u16>,
        callers: &'a [MemCaller],
        failing: &'a [u64],
    ) -> MemCallers<'a>
        ensures visits { ⟦<MemCallers<'a> as Callers>⟧.visits result ≡ no_visits port }
        ensures faults { ⟦<MemCallers<'a> as Callers>⟧.faults result ≡ 0 }
        ensures calls { (result.calls.made ≡ 0) × (result.calls.failing.now ≡ failing.entry.now) }
        ensures rest { result.rest.now ≡ callers.entry.now }
    {
        MemCallers {
            alloc,
            port,
            rest: callers,
            dials: Tale::new(),
            past: MemPast::new(alloc),
            gone: 0,
            beside: None,
            present: None,
            calls: Calls::new(failing),
        }
    }
}

impl<'a> MemCallers<'a> {
    /// What was written to each caller who was hung up, the first one first. `None` where no memory was found for it.
    pub fn written(&self) -> Option<&[Bytes]>
        ensures { IfSome result (λ written. written.now
            ≡ map (λ v. v.written) ((⟦<MemCallers<'a> as Callers>⟧.visits self.now).over)) }
    {
        self.past.written()
    }

    /// How many callers are still to come.
    pub fn to_come(&self) -> usize
        ensures { result ≡ length self.now.rest.now }
    {
        self.rest.len()
    }

    // The connection of who has the line fails.
    fn fail(&mut self)
        ensures visits { ⟦<MemCallers<'a> as Callers>⟧.visits self.new
            ≡ with_present (⟦<MemCallers<'a> as Callers>⟧.visits self.old) failed }
        ensures faults { self.new.calls.faults ≡ self.old.calls.faults }
    {
        if let Some(connection) = &mut self.present {
            connection.fail();
        }
    }
}

impl Callers for MemCallers<'_> {
    ghost use Rattle.std.specs.Prelude.{option_map};

    ghost visits = { λ c. record {
      port = c.port;
      dials = c.dials.items;
      over = c.past;
      beside = option_map (λ g. g.visit) c.beside;
      present = option_map (λ g. g.visit) c.present;
    } };

    ghost faults = { λ c. c.calls.faults };

    fn accept(&mut self) -> Result<Knock, Failed> {
        self.calls.count()?;
        if self.present.is_none()
            && self.port.is_some()
            && let Some((caller, rest)) = comer(self.rest, self.gone, None)
        {
            self.rest = rest;
            self.present = Some(MemConnection::new(self.alloc, caller));
            return Ok(Knock::Came);
        }
        Ok(Knock::Quiet)
    }

    fn dial(&mut self, port: u16) -> Result<(), Failed> {
        self.dials = self.dials.and(&port);
        self.calls.count()?;
        if self.beside.is_none()
            && let Some((caller, rest)) = comer(self.rest, self.gone, Some(port))
        {
            self.rest = rest;
            self.beside = self.present.take();
            self.present = Some(MemConnection::new(self.alloc, caller));
            return Ok(());
        }
        self.calls.fault();
        Err(Failed)
    }

    fn read(&mut self, buf: &mut [u8; CALLER_BYTES]) -> Result<CallerGot, Failed> {
        if self.calls.count().is_err() {
            self.fail();
            return Err(Failed);
        }
        let Some(connection) = &mut self.present else {
            self.calls.fault();
            return Err(Failed);
        };
        let got = connection.read(buf);
        if got.is_err() {
            self.calls.fault();
        }
        got
    }

    fn write(&mut self, piece: &[u8]) -> Result<usize, Failed> {
        if self.calls.count().is_err() {
            self.fail();
            return Err(Failed);
        }
        let Some(connection) = &mut self.present else {
            self.calls.fault();
            return Err(Failed);
        };
        let took = connection.write(piece);
        if took.is_err() {
            self.calls.fault();
        }
        took
    }

    fn watch(&mut self) -> Result<Presence, Failed> {
        if self.calls.count().is_err() {
            self.fail();
            return Err(Failed);
        }
        let Some(connection) = &mut self.present else {
            self.calls.fault();
            return Err(Failed);
        };
        let presence = connection.watch();
        if presence.is_err() {
            self.calls.fault();
        }
        presence
    }

    fn hang_up(&mut self) {
        if let Some(connection) = self.present.take() {
            self.past.push(self.alloc, connection);
            self.gone = self.gone.saturating_add(1);
            self.present = self.beside.take();
        }
    }

    fn turn_away(&mut self) -> usize {
        if self.port.is_some()
            && let Some((_, rest)) = comer(self.rest, self.gone, None)
        {
            self.rest = rest;
            return 1;
        }
        0
    }
}
