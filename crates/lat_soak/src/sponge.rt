//! A core that takes all that is put, and always has one item for a take.

ghost use Rattle.std.specs.Prelude.{◌≡◌, [], OnErr, OnOk, IfOk};
ghost use Rattle.lat_soak.specs.Sponges.{one_item, sponge_answer, sponge_next};

use lat_base::{
    Answer, CircuitLook, Core, Correspondent, Event, Item, Items, LineLook, Memory, Name, NodeLook,
    OutBox, ServiceLook, SessionState, WaiterLook,
};
use std::alloc::Global;
use std::marker::Model;

/// A core of which the moment alone is kept.
#[derive(Drop)]
pub struct Sponge {
    moment: u64,
}

impl Model for Sponge {
    ghost use Rattle.std.specs.Prelude.{ℕ};

    ghost Value = { ℕ };

    ghost view = { λ a. a.moment };
}

impl Sponge {
    /// One that was told nothing yet.
    pub fn new() -> Sponge
        ensures { result ≡ 0 }
    {
        Sponge { moment: 0 }
    }
}

fn one_item(alloc: Global) -> Result<Items, Memory>
    ensures { IfOk result (λ items. items ≡ one_item) }
{
    let mut items = Items::new(alloc);
    items.push(Item::Byte(7))?;
    Ok(items)
}

impl Core for Sponge {
    ghost use Rattle.std.specs.Prelude.{◌≡◌, ℕ, true, None};
    ghost use Rattle.lat_soak.specs.Sponges.{sponge_answer, sponge_look, sponge_next};

    ghost State = { ℕ };

    ghost made = { λ s. s ≡ 0 };

    ghost opening = { λ c. 0 };

    ghost valid = { λ c. Unit {0} };

    ghost stands = { λ c s. c ≡ s };

    ghost next = { sponge_next };

    ghost answer = { sponge_answer };

    ghost frames = { λ s e frames. Unit {0} };

    ghost look_of = { λ s line. sponge_look };

    ghost correspondent_of = { λ s line. None };

    ghost moment_of = { λ s. s };

    ghost finished_of = { λ s. 0 };

    ghost living_of = { λ s. 0 };

    ghost drained_of = { λ s. true };

    ghost circuit_of = { λ s at. None };

    ghost node_of = { λ s at. None };

    ghost service_of = { λ s node at. None };

    ghost offered_of = { λ s at. None };

    ghost waiter_of = { λ s service at. None };

    ghost ids_left_of = { λ s. 0 };

    ghost records_left_of = { λ s. None };

    ghost ready = { λ c line. 1 };

    fn step(&mut self, alloc: Global, event: &Event, _out: &mut OutBox) -> Result<Answer, Memory> {
        match event {
            Event::Heard { .. } => Ok(Answer::Ignored),
            Event::Time { now } => {
                self.moment = *now;
                Ok(Answer::Done)
            }
            Event::Put { bytes, .. } => Ok(Answer::Put(bytes.as_slice().len().min(65535) as u16)),
            Event::Take { n: 0, .. } => Ok(Answer::Closed),
            Event::Take { .. } => Ok(Answer::Took(one_item(alloc)?)),
            _ => Ok(Answer::NotHere),
        }
    }

    fn look(&self, _line: u8) -> LineLook {
        LineLook {
            newest: 1,
            state: SessionState::Live,
            waiting: 1,
            room: 4096,
            end: None,
        }
    }

    fn correspondent(&self, _line: u8) -> Option<Correspondent> {
        None
    }

    fn moment(&self) -> u64 {
        self.moment
    }

    fn finished(&self) -> u32 {
        0
    }

    fn living(&self) -> u8 {
        0
    }

    fn is_drained(&self) -> bool {
        true
    }

    fn circuit(&self, _at: usize) -> Option<CircuitLook> {
        None
    }

    fn node(&self, _at: usize) -> Option<NodeLook> {
        None
    }

    fn service(&self, _node: usize, _at: usize) -> Option<ServiceLook> {
        None
    }

    fn offered(&self, _at: usize) -> Option<Name> {
        None
    }

    fn waiter(&self, _service: &Name, _at: usize) -> Option<WaiterLook> {
        None
    }

    fn ids_left(&self) -> u16 {
        0
    }

    fn records_left(&self) -> Option<u32> {
        None
    }
}
