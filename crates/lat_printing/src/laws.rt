//! What holds of a job's desk and of its moves. Nothing here runs: each law is a function that takes nothing, and whose contract is
//! the statement.

ghost use Rattle.lat_printing.specs.Desks.{DesksGoAsTales};
ghost use Rattle.lat_printing.specs.Laws.{EventsHaveSeats};

/// A desk goes as the tale of its job does, turn by turn: so what holds of runs of a job's mind holds of what is at hand.
pub fn desks_go_as_tales()
    ensures { DesksGoAsTales }
{}

/// A move with an event has a seat: one that is made at a line is made only where the job's session has this line.
pub fn events_have_seats()
    ensures { EventsHaveSeats }
{}
