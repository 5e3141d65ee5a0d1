//! What holds of rounds behind schedules, as contracts of functions that take nothing.

ghost use Rattle.lat_settle.specs.Laws.{EnoughSettle, SchedulesBegin, SchedulesLeaveRoom, SettledIsLed};

/// What so many rounds come to, where no event of theirs is refused, is behind whole rounds as `lat_laws` has them, with the
/// ratings of the node's rule. So its laws speak of it.
pub fn settled_is_led()
    ensures { SettledIsLed }
{}

/// Where nothing was lost, the state behind so many rounds, if they are enough, has all taken that was put: four for each item
/// put, twenty for each session, and twenty more, by the report of that state.
pub fn enough_settle()
    ensures { EnoughSettle }
{}

/// A schedule's text grants all that this asks for: where a schedule loses nothing, halts nobody and has no prompt end, rounds
/// may begin behind it.
pub fn schedules_begin()
    ensures { SchedulesBegin }
{}

/// Behind each schedule there is room for 100,000 rounds below the moment 2^64.
pub fn schedules_leave_room()
    ensures { SchedulesLeaveRoom }
{}
