//! One event of a schedule.

ghost use Rattle.std.specs.Prelude.{◌≡◌, OnOk, OnErr, Some, not, slice_get};
ghost use Rattle.lat_machines.specs.values.Addresses.{address};
ghost use Rattle.lat_machines.specs.world.Machines.{Posted, Machines, Does, HearsFrame, HearsForeign, happens};
ghost use Rattle.lat_payload.specs.Reads.{reading_of};
ghost use Rattle.lat_lines.specs.Events.{event_shown};
ghost use Rattle.lat_wire.specs.Rates.{rates};
ghost use Rattle.lat_wire.specs.Refusals.{RefusedAs, local_refusal, deliver_refusal, inject_refusal};
ghost use Rattle.lat_wire.specs.Told.{IsLocal, moment_after};
ghost use Rattle.lat_replay.specs.Kept.{moment_of, setups_of};
ghost use Rattle.lat_replay.specs.Moves.{IsPlayable, move_of, moment_behind, refusal_of};
ghost use Rattle.lat_replay.specs.Stands.{Stands};

use crate::roster::{add_items, follow, reserve_for, reserve_new};
use crate::world::World;
use lat_base::{Addr, Event};
use lat_node::RatingRule;
use lat_schedule::WorldEvent;
use lat_wire::EventFault;
use std::alloc::Global;

impl<H: RatingRule> World<H> {
    /// Tells the world an event of a schedule, which is never a frame that one end is told as heard. It is refused for the
    /// first of these reasons, as "The world of a schedule" in docs/PROTOCOL.md has them, or for want of memory; then nothing
    /// has changed.
    pub fn step(&mut self, alloc: Global, event: &WorldEvent) -> Result<(), EventFault>
        requires { IsPlayable event.now }
        ensures stands { OnOk result ((w : Machines) →
            Stands self.old w →
            Stands self.new (happens (setups_of self.old) w (move_of (setups_of self.old) w (moment_of self.old) event.now))) }
        ensures refused { (w : Machines) → Stands self.old w →
            RefusedAs result (refusal_of (setups_of self.old) w (moment_of self.old) event.now) }
        ensures moment { OnOk result (moment_of self.new
            ≡ moment_behind (moment_of self.old) event.now) }
        ensures setups { setups_of self.new ≡ setups_of self.old }
        ensures err { OnErr result (self.new.wire ≡ self.old.wire) }
        ensures err_stands { OnErr result ((w : Machines) → Stands self.old w → Stands self.new w) }
    {
        match event {
            WorldEvent::Local { server, event } => self.local(alloc, *server, event),
            WorldEvent::Deliver { index } => self.deliver(alloc, *index),
            WorldEvent::Inject {
                server,
                from,
                payload,
            } => self.inject(alloc, *server, *from, payload.as_slice()),
        }
    }

    // The server or the node is told an event that isn't a frame.
    fn local(&mut self, alloc: Global, server: bool, event: &Event) -> Result<(), EventFault>
        requires { IsLocal (event_shown event.now) }
        ensures stands { OnOk result ((w : Machines) →
            Stands self.old w →
            Stands self.new (happens (setups_of self.old) w (Does server (event_shown event.now)
            (rates (setups_of self.old) w)))) }
        ensures refused { (w : Machines) → Stands self.old w →
            RefusedAs result (local_refusal w (moment_of self.old) (event_shown event.now)) }
        ensures moment { OnOk result (moment_of self.new
            ≡ moment_after (moment_of self.old) (event_shown event.now)) }
        ensures setups { setups_of self.new ≡ setups_of self.old }
        ensures err { OnErr result (self.new.wire ≡ self.old.wire) }
        ensures err_stands { OnErr result ((w : Machines) → Stands self.old w → Stands self.new w) }
    {
        let lines = self.lines(server);
        let World { wire, roster, .. } = self;
        let before = reserve_for(wire, server, lines, event, roster)?;
        let answer = wire.local(alloc, server, event)?;
        add_items(server, event, &answer, roster);
        follow(alloc, wire, server, lines, before, roster);
        Ok(())
    }

    // A frame comes to the end that didn't send it.
    fn deliver(&mut self, alloc: Global, index: u64) -> Result<(), EventFault>
        ensures stands { OnOk result ((w : Machines) →
            Stands self.old w →
            Stands self.new (happens (setups_of self.old) w (HearsFrame index (moment_of self.old)
            (rates (setups_of self.old) w)))) }
        ensures refused { (w : Machines) → Stands self.old w →
            RefusedAs result (deliver_refusal (setups_of self.old) w index) }
        ensures moment { OnOk result (moment_of self.new ≡ moment_of self.old) }
        ensures setups { setups_of self.new ≡ setups_of self.old }
        ensures err { OnErr result (self.new.wire ≡ self.old.wire) }
        ensures err_stands { OnErr result ((w : Machines) → Stands self.old w → Stands self.new w) }
    {
        let hearer = self.hearer(index);
        let lines = self.lines(hearer);
        let World { wire, roster, .. } = self;
        let before = reserve_new(wire, hearer, lines, roster)?;
        if wire.deliver(alloc, index)?.is_none() {
            return Ok(());
        }
        follow(alloc, wire, hearer, lines, before, roster);
        Ok(())
    }

    // The end that hears a frame where it is delivered: the one that didn't send it. Where there is no such frame, it is
    // refused whichever is named.
    fn hearer(&self, index: u64) -> bool
        ensures { (w : Machines) (p : Posted) → Stands self.now w →
            slice_get w.posts index ≡ Some p → result ≡ not p.by_server }
    {
        match self.wire.frame(index) {
            Some((by_server, _)) => !by_server,
            None => true,
        }
    }

    // One end hears a payload from outside.
    fn inject(
        &mut self,
        alloc: Global,
        server: bool,
        from: Addr,
        payload: &[u8],
    ) -> Result<(), EventFault>
        ensures stands { OnOk result ((w : Machines) →
            Stands self.old w →
            Stands self.new (happens (setups_of self.old) w
            (HearsForeign server (address from.0) (reading_of payload.now) (moment_of self.old)
            (rates (setups_of self.old) w)))) }
        ensures refused { (w : Machines) → Stands self.old w →
            RefusedAs result (inject_refusal (setups_of self.old) w (address from.0)) }
        ensures moment { OnOk result (moment_of self.new ≡ moment_of self.old) }
        ensures setups { setups_of self.new ≡ setups_of self.old }
        ensures err { OnErr result (self.new.wire ≡ self.old.wire) }
        ensures err_stands { OnErr result ((w : Machines) → Stands self.old w → Stands self.new w) }
    {
        let lines = self.lines(server);
        let World { wire, roster, .. } = self;
        let before = reserve_new(wire, server, lines, roster)?;
        wire.inject(alloc, server, from, payload)?;
        follow(alloc, wire, server, lines, before, roster);
        Ok(())
    }
}
