//! What is to be remembered of an event until its answer is behind it.

ghost use Rattle.std.specs.Prelude.{◌≡◌};
ghost use Rattle.lat_log.specs.Triggers.{hint_of};

use crate::entry::Entry;
use crate::trigger::{Trigger, bad_of, concerns_lists};
use lat_base::{Answer, Event};

/// What an event with its answer says to the log. It has no byte of the event.
#[derive(Clone, Copy)]
pub struct Hint {
    pub trigger: Trigger,
    /// What is logged of a bad payload, where it was one.
    pub bad: Option<Entry>,
    /// Whether circuits, sessions or requests may have come, changed or gone.
    pub concerns: bool,
}

impl Hint {
    /// That of an event with this answer.
    pub fn of(event: &Event, answer: &Answer) -> Hint
        ensures { result ≡ hint_of event.now answer.now }
    {
        Hint {
            trigger: Trigger::of(event, answer),
            bad: bad_of(event, answer),
            concerns: concerns_lists(event),
        }
    }
}
