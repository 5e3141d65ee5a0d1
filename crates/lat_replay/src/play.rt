//! The events of a schedule, one after another.

ghost use Rattle.std.specs.Prelude.{◌≡◌};
ghost use Rattle.lat_model.specs.Lists.{Each};
ghost use Rattle.lat_replay.specs.Kept.{setups_of};
ghost use Rattle.lat_replay.specs.Moves.{IsPlayable};
ghost use Rattle.lat_replay.specs.Played.{PlaysAs, State, StandsAt};

use crate::world::World;
use lat_node::RatingRule;
use lat_schedule::WorldEvent;
use lat_wire::EventFault;
use std::alloc::Global;

/// The event that was refused, and why.
#[derive(Drop)]
pub struct Stopped {
    /// How many events were played before it.
    pub index: usize,
    pub fault: EventFault,
}

impl<H: RatingRule> World<H> {
    /// Tells the world these events, in order, up to the first one that is refused. The world stands as the last one before it
    /// left it.
    pub fn play(&mut self, alloc: Global, events: &[WorldEvent]) -> Result<(), Stopped>
        requires { Each IsPlayable events.now }
        ensures plays { (s : State) → StandsAt self.old s →
            PlaysAs (setups_of self.old) s events.now result self.new }
        ensures setups { setups_of self.new ≡ setups_of self.old }
    {
        for (index, event) in events.iter().enumerate() {
            if let Err(fault) = self.step(alloc, event) {
                return Err(Stopped { index, fault });
            }
        }
        Ok(())
    }
}
