//! A core with items for its line, of which a put takes only so much, or finds no memory. Its line always has a session.

ghost use Rattle.std.specs.Prelude.{◌≡◌, [], OnErr, OnOk, IfOk};
ghost use Rattle.lat_tests.specs.Hoppers.{Hoppers, full_hopper, hopper_answer, hopper_items, hopper_next};

use lat_base::{
    Answer, CircuitLook, Core, Correspondent, Event, Item, Items, LineLook, Memory, Name, NodeLook,
    OutBox, ServiceLook, SessionState, WaiterLook,
};
use std::alloc::Global;
use std::marker::Model;

/// What comes of a put.
#[derive(Clone, Copy)]
pub enum Puts {
    /// At most so many of its bytes are taken.
    Taken(u16),
    /// No memory is found for it.
    Starved,
}

impl Puts {
    fn most(self) -> u16 {
        match self {
            Puts::Taken(most) => most,
            Puts::Starved => 0,
        }
    }
}

/// The core, of which contracts see the items and the moment.
#[derive(Drop)]
pub struct Hopper {
    given: u16,
    waiting: u16,
    takes: u16,
    moment: u64,
    puts: Puts,
}

impl Model for Hopper {
    ghost use Rattle.lat_tests.specs.Hoppers.{Hoppers};

    ghost Value = { Hoppers };

    ghost view = { λ a. record { given = a.given; waiting = a.waiting; takes = a.takes; moment = a.moment } };
}

impl Hopper {
    /// One with so many items.
    pub fn new(given: u16, puts: Puts) -> Hopper
        ensures { result ≡ full_hopper given result.takes }
    {
        Hopper {
            given,
            waiting: given,
            takes: puts.most(),
            moment: 0,
            puts,
        }
    }
}

fn items(alloc: Global, count: u16) -> Result<Items, Memory>
    ensures { IfOk result (λ items. items ≡ hopper_items count) }
{
    Ok(Items::of(vec![in alloc; Item::Byte(7); usize::from(count)]?))
}

impl Core for Hopper {
    ghost use Rattle.std.specs.Prelude.{◌≡◌, true, None};
    ghost use Rattle.lat_tests.specs.Hoppers.{Hoppers, full_hopper, hopper_answer, hopper_look, hopper_next};

    ghost State = { Hoppers };

    ghost made = { λ s. Unit {0} };

    ghost opening = { λ c. full_hopper c.given c.takes };

    ghost valid = { λ c. Unit {0} };

    ghost stands = { λ c s. c ≡ s };

    ghost next = { hopper_next };

    ghost answer = { hopper_answer };

    ghost frames = { λ s e frames. Unit {0} };

    ghost look_of = { λ s line. hopper_look s };

    ghost correspondent_of = { λ s line. None };

    ghost moment_of = { λ s. s.moment };

    ghost finished_of = { λ s. 0 };

    ghost living_of = { λ s. 0 };

    ghost drained_of = { λ s. true };

    ghost circuit_of = { λ s at. None };

    ghost node_of = { λ s at. None };

    ghost service_of = { λ s node at. None };

    ghost offered_of = { λ s at. None };

    ghost waiter_of = { λ s service at. None };

    ghost ids_left_of = { λ s. 0 };

    ghost records_left_of = { λ s. None };

    ghost ready = { λ c line. c.waiting };

    fn step(&mut self, alloc: Global, event: &Event, _out: &mut OutBox) -> Result<Answer, Memory> {
        match event {
            Event::Time { now } => {
                self.moment = *now;
                Ok(Answer::Done)
            }
            Event::Put { .. } if matches!(self.puts, Puts::Starved) => Err(Memory),
            Event::Put { bytes, .. } => {
                let most = usize::from(self.takes);
                Ok(Answer::Put(bytes.as_slice().len().min(most) as u16))
            }
            Event::Take { n, .. } => {
                let count = self.waiting.min(*n);
                let items = items(alloc, count)?;
                self.waiting -= count;
                Ok(Answer::Took(items))
            }
            Event::Close { .. } | Event::Announce => Ok(Answer::Done),
            _ => Ok(Answer::NotHere),
        }
    }

    fn look(&self, _line: u8) -> LineLook {
        LineLook {
            newest: 1,
            state: SessionState::Live,
            waiting: self.waiting,
            room: 4096,
            end: None,
        }
    }

    fn correspondent(&self, _line: u8) -> Option<Correspondent> {
        None
    }

    fn moment(&self) -> u64 {
        self.moment
    }

    fn finished(&self) -> u32 {
        0
    }

    fn living(&self) -> u8 {
        0
    }

    fn is_drained(&self) -> bool {
        true
    }

    fn circuit(&self, _at: usize) -> Option<CircuitLook> {
        None
    }

    fn node(&self, _at: usize) -> Option<NodeLook> {
        None
    }

    fn service(&self, _node: usize, _at: usize) -> Option<ServiceLook> {
        None
    }

    fn offered(&self, _at: usize) -> Option<Name> {
        None
    }

    fn waiter(&self, _service: &Name, _at: usize) -> Option<WaiterLook> {
        None
    }

    fn ids_left(&self) -> u16 {
        0
    }

    fn records_left(&self) -> Option<u32> {
        None
    }
}
