//! What an event says to the log beside what its core shows behind it.

ghost use Rattle.std.specs.Prelude.{◌≡◌};
ghost use Rattle.lat_log.specs.Triggers.{bad_of, concerns_lists, trigger_in, trigger_of};

use crate::entry::Entry;
use lat_base::{Answer, Event, Heard};

/// What an event was to the circuits that ended by it.
#[derive(Clone, Copy)]
pub enum Trigger {
    /// The peer's STOP, with this reason.
    Stop(u8),
    /// A frame that broke a rule, for which this end ended the circuit with this reason.
    Breach(u8),
    /// Time has passed.
    Time,
    /// The core was halted.
    Halt,
    /// Anything else. Of all that, only a START that follows ends circuits.
    Other,
}

// What an answer says of the circuits that ended.
fn trigger_in(answer: &Answer) -> Trigger
    ensures { result ≡ trigger_in answer.now }
{
    match answer {
        Answer::Circuit(Heard::Ended(reason)) => Trigger::Stop(*reason),
        Answer::Circuit(Heard::Broke(reason)) => Trigger::Breach(*reason),
        _ => Trigger::Other,
    }
}

impl Trigger {
    /// What an event with this answer was to the circuits that ended by it.
    pub fn of(event: &Event, answer: &Answer) -> Trigger
        ensures { result ≡ trigger_of event.now answer.now }
    {
        match event {
            Event::Time { .. } => Trigger::Time,
            Event::Halt => Trigger::Halt,
            _ => trigger_in(answer),
        }
    }
}

/// Whether circuits, sessions or requests may have come, changed or gone by an event. Not so by a put, a setting or an attention:
/// they only add to what a session holds.
pub fn concerns_lists(event: &Event) -> bool
    ensures { result ≡ concerns_lists event.now }
{
    !matches!(
        event,
        Event::Put { .. } | Event::Set { .. } | Event::Attend { .. }
    )
}

/// What is logged of a bad payload: its first bad field, with its place, and who sent it. `None` exactly where the event was
/// answered otherwise.
pub fn bad_of(event: &Event, answer: &Answer) -> Option<Entry>
    ensures { result ≡ bad_of event.now answer.now }
{
    match (event, answer) {
        (Event::Heard { from, .. }, Answer::Bad(bad)) => Some(Entry::Bad {
            bad: *bad,
            from: *from,
        }),
        _ => None,
    }
}
