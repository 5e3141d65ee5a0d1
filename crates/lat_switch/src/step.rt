//! One event of the switch.

ghost use Rattle.std.specs.Prelude.{◌≡◌, true, length};
ghost use Rattle.lat_lines.specs.Kept.{IsLine};
ghost use Rattle.lat_machines.specs.cores.Lines.{line_exists};
ghost use Rattle.lat_switch.specs.Core.{shown_in};

use crate::switch::SwitchCore;
use lat_base::{
    Answer, CircuitLook, Core, Correspondent, Event, LineLook, Memory, Name, NodeLook, OutBox,
    ServiceLook, SessionState, WaiterLook,
};
use std::alloc::Global;

impl Core for SwitchCore {
    ghost use Rattle.lat_switch.specs.Core.{IsMade, opening, next, answered, Frames, ready};
    ghost use Rattle.lat_switch.specs.Kept.{IsValid};
    ghost use Rattle.lat_switch.specs.Looks.{look_of, correspondent_of, moment_of, finished_of, living_of, drained_of, circuit_of, node_of, service_of, offered_of, waiter_of, ids_left_of, records_left_of};
    ghost use Rattle.lat_switch.specs.Stands.{Stands};
    ghost use Rattle.lat_switch.specs.Switch.{Switch};

    ghost State = { Switch };

    ghost made = { IsMade };

    ghost opening = { opening };

    ghost valid = { IsValid };

    ghost stands = { Stands };

    ghost next = { next };

    ghost answer = { answered };

    ghost frames = { Frames };

    ghost look_of = { look_of };

    ghost correspondent_of = { correspondent_of };

    ghost moment_of = { moment_of };

    ghost finished_of = { finished_of };

    ghost living_of = { living_of };

    ghost drained_of = { drained_of };

    ghost circuit_of = { circuit_of };

    ghost node_of = { node_of };

    ghost service_of = { service_of };

    ghost offered_of = { offered_of };

    ghost waiter_of = { waiter_of };

    ghost ids_left_of = { ids_left_of };

    ghost records_left_of = { records_left_of };

    ghost ready = { ready };

    fn step(&mut self, alloc: Global, event: &Event, out: &mut OutBox) -> Result<Answer, Memory> {
        let answer = self.apply(alloc, event, out)?;
        Ok(answer)
    }

    fn look(&self, line: u8) -> LineLook {
        match self.shown(line) {
            Some(shown) => self.inner.look(shown),
            None => LineLook {
                newest: 0,
                state: SessionState::Free,
                waiting: 0,
                room: 0,
                end: None,
            },
        }
    }

    fn correspondent(&self, line: u8) -> Option<Correspondent> {
        match self.shown(line) {
            Some(shown) => self.inner.correspondent(shown),
            None => None,
        }
    }

    fn moment(&self) -> u64 {
        self.inner.moment()
    }

    fn finished(&self) -> u32 {
        self.inner.finished()
    }

    fn living(&self) -> u8 {
        self.inner.living()
    }

    fn is_drained(&self) -> bool {
        self.inner.is_drained()
    }

    fn circuit(&self, at: usize) -> Option<CircuitLook> {
        self.inner.circuit(at)
    }

    fn node(&self, at: usize) -> Option<NodeLook> {
        self.inner.node(at)
    }

    fn service(&self, node: usize, at: usize) -> Option<ServiceLook> {
        self.inner.service(node, at)
    }

    fn offered(&self, at: usize) -> Option<Name> {
        self.inner.offered(at)
    }

    fn waiter(&self, service: &Name, at: usize) -> Option<WaiterLook> {
        self.inner.waiter(service, at)
    }

    fn ids_left(&self) -> u16 {
        self.inner.ids_left()
    }

    fn records_left(&self) -> Option<u32> {
        self.inner.records_left()
    }
}

impl SwitchCore {
    /// Whether there is a line of this number.
    pub(crate) fn exists(&self, line: u8) -> bool
        ensures value { result ≡ line_exists (length self.now.lines) line }
        ensures line { result ≡ true → IsLine (length self.now.lines) line }
    {
        line >= 1 && line as usize <= self.lines.len()
    }

    /// The inner line that a line shows. `None` where there is no such line.
    pub fn shown(&self, line: u8) -> Option<u8>
        ensures { result ≡ shown_in line self.now.lines }
    {
        if !self.exists(line) {
            return None;
        }
        Some(self.line_at(line).shown())
    }
}
