//! The events of a schedule.

ghost use Rattle.std.specs.Prelude.{◌≡◌, [], ◌∷◌, ◌++◌, OnOk, OnErr};

use lat_base::{Addr, Bytes, Event, Memory};
use std::alloc::Global;
use std::marker::Model;

/// An event of a schedule.
#[derive(Drop)]
pub enum WorldEvent {
    /// One end, the server or the node, is told this event of its own. It is never `Heard`.
    Local {
        server: bool,
        event: Event,
    },
    /// The frame of this number comes to the end that didn't send it. Frames are numbered from 0 over both ends, in the
    /// order in which they were sent.
    Deliver {
        index: u64,
    },
    /// The server or the node hears this payload from a station that is neither of them.
    Inject {
        server: bool,
        from: Addr,
        payload: Bytes,
    },
}

/// A list of events. Contracts see the list.
pub struct WorldEvents {
    events: Vec<WorldEvent>,
}

impl Drop for WorldEvents {
    fn drop(self) {
        let Self { events } = self;
    }
}

impl Model for WorldEvents {
    ghost use Rattle.std.specs.Prelude.{List};
    ghost use Rattle.lat_schedule.specs.declared.event.WorldEvent.{WorldEvent};

    ghost Value = { List WorldEvent };

    ghost view = { λ a. a.events.items };
}

impl WorldEvents {
    /// No event. It takes no memory.
    pub fn new(alloc: Global) -> WorldEvents
        ensures { result ≡ [] }
    {
        WorldEvents {
            events: Vec::new(alloc),
        }
    }

    /// Adds an event at the end, for which it may take memory. `Memory` where none is found; then nothing has changed.
    pub fn push(&mut self, event: WorldEvent) -> Result<(), Memory>
        ensures ok { OnOk result (self.new ≡ self.old ++ event ∷ []) }
        ensures err { OnErr result (self.new ≡ self.old) }
    {
        match self.events.push(event) {
            Ok(()) => Ok(()),
            Err(_) => Err(Memory),
        }
    }

    /// The events, first to last.
    pub fn as_slice(&self) -> &[WorldEvent]
        ensures { result.now ≡ self.now }
    {
        self.events.as_slice()
    }
}
