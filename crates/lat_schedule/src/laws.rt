//! What holds of the lines of events. Each function takes nothing and does nothing: its contract is the law.

ghost use Rattle.lat_schedule.specs.ReadBack.{EventsReadBack, ListsReadBack};

/// What is printed of an event is one line, and it is read as the event, in each version of a schedule that has it.
pub fn events_read_back()
    ensures { EventsReadBack }
{}

/// The lines that are printed of events, in front of `end`, are read as these events in their order, with the number of each
/// line.
pub fn lists_read_back()
    ensures { ListsReadBack }
{}
