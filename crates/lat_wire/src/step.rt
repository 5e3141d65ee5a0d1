//! The events of a world.

ghost use Rattle.std.specs.Prelude.{◌≡◌, IfOk, OnOk, OnErr, None, slice_get};
ghost use Rattle.lat_base.specs.Answers.{PutFits};
ghost use Rattle.lat_machines.specs.values.Addresses.{address};
ghost use Rattle.lat_machines.specs.values.Events.{Hears};
ghost use Rattle.lat_machines.specs.world.Machines.{Machines, Does, HearsFrame, HearsForeign};
ghost use Rattle.lat_payload.specs.Reads.{reading_of};
ghost use Rattle.lat_lines.specs.Events.{event_shown};
ghost use Rattle.lat_wire.specs.Kept.{setups_of};
ghost use Rattle.lat_wire.specs.Refusals.{RefusedAs, local_refusal, deliver_refusal, inject_refusal};
ghost use Rattle.lat_wire.specs.Stands.{Stands, Happens};
ghost use Rattle.lat_wire.specs.Told.{IsLocal, IsAnswered, moment_after, answered_to};

use crate::fault::EventFault;
use crate::wire::Wire;
use lat_base::{Addr, Answer, Event};
use lat_node::RatingRule;
use std::alloc::Global;

impl<H: RatingRule> Wire<H> {
    /// Tells the server or the node an event that isn't a frame, and gives its answer. A `Time` sets the moment of the
    /// schedule, other events happen at the core's own last moment.
    pub fn local(
        &mut self,
        alloc: Global,
        server: bool,
        event: &Event,
    ) -> Result<Answer, EventFault>
        requires { IsLocal (event_shown event.now) }
        ensures stands { OnOk result (Happens self.old self.new (Does server
            (event_shown event.now))) }
        ensures answer { IfOk result (IsAnswered self.old server (event_shown event.now)) }
        ensures refused { (w : Machines) → Stands self.old w →
            RefusedAs result (local_refusal w self.old.moment (event_shown event.now)) }
        ensures put { IfOk result (λ a. PutFits a event.now) }
        ensures moment { OnOk result (self.new.moment
            ≡ moment_after self.old.moment (event_shown event.now)) }
        ensures setups { setups_of self.new ≡ setups_of self.old }
        ensures err { OnErr result (self.new ≡ self.old) }
    {
        self.may_step()?;
        let moment = self.moment_behind(event)?;
        let answer = self.tell(alloc, server, event)?;
        self.moment = moment;
        Ok(answer)
    }

    /// Lets the end that didn't send it hear this frame, at the moment of the schedule, and gives its answer. `None` where it
    /// was sent neither to that end nor to everyone: then nothing hears it, and it counts as an event all the same.
    pub fn deliver(&mut self, alloc: Global, index: u64) -> Result<Option<Answer>, EventFault>
        ensures stands { OnOk result (Happens self.old self.new (HearsFrame index self.old.moment)) }
        ensures answer { IfOk result (λ a. (w : Machines) →
            Stands self.old w →
            a ≡ answered_to (setups_of self.old) w self.old.moment (slice_get w.posts index)) }
        ensures refused { (w : Machines) → Stands self.old w →
            RefusedAs result (deliver_refusal (setups_of self.old) w index) }
        ensures moment { self.new.moment ≡ self.old.moment }
        ensures setups { setups_of self.new ≡ setups_of self.old }
        ensures err { OnErr result (self.new ≡ self.old) }
    {
        self.may_step()?;
        let sent = self.sent(index)?;
        if sent.turn.is_none() {
            self.pass_by(index)?;
            return Ok(None);
        }
        let post = sent.post;
        self.is_young(&post)?;
        let by_server = post.by_server;
        let event = self.heard(alloc, self.own(by_server), post.frame.payload)?;
        let answer = self.tell(alloc, !by_server, &event)?;
        self.come(index);
        Ok(Some(answer))
    }

    /// Lets the server or the node hear a payload from outside at the moment of the schedule, and gives its answer.
    pub fn inject(
        &mut self,
        alloc: Global,
        server: bool,
        from: Addr,
        payload: &[u8],
    ) -> Result<Answer, EventFault>
        ensures stands { OnOk result (Happens self.old self.new
            (HearsForeign server (address from.0) (reading_of payload.now) self.old.moment)) }
        ensures answer { IfOk result (IsAnswered self.old server (Hears (address from.0)
            (reading_of payload.now) None self.old.moment)) }
        ensures refused { (w : Machines) → Stands self.old w →
            RefusedAs result (inject_refusal (setups_of self.old) w (address from.0)) }
        ensures moment { self.new.moment ≡ self.old.moment }
        ensures setups { setups_of self.new ≡ setups_of self.old }
        ensures err { OnErr result (self.new ≡ self.old) }
    {
        self.may_step()?;
        if self.is_own(from) {
            return Err(EventFault::OwnAddress);
        }
        let event = self.heard(alloc, from, payload)?;
        Ok(self.tell(alloc, server, &event)?)
    }
}
