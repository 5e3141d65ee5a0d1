//! What holds of every mind, and of every run of one. Nothing here runs: each law is a function that takes nothing, and whose
//! contract is the statement.

ghost use Rattle.lat_mind.specs.Bounds.{Ends, HangsUp};
ghost use Rattle.lat_mind.specs.Laws.{AloneIsStill, AsksEnd, AttachesAgain, CallersAreHeard, CallersAreTaken, LosesFirst, RunsAreRight, TriesAgain, WaitsEnd, WaitsForTheRestarted};
ghost use Rattle.lat_mind.specs.Reasons.{MovesHaveReasons};

/// Each move of a mind has its reason.
pub fn moves_have_reasons()
    ensures { MovesHaveReasons }
{}

/// In every run a put offers all that was read of the present caller and not yet put, into this caller's session; a write has all
/// that was taken for it and not yet written; nothing is read or taken before; a caller is hung up where all is written, or it
/// failed; a line is ready only with its device there; and no session has bytes or items of two callers.
pub fn runs_are_right()
    ensures { RunsAreRight }
{}

/// Without a caller, and with its session over, a mind only awaits or dials the next caller, rests or finishes.
pub fn alone_is_still()
    ensures { AloneIsStill }
{}

/// Without a caller, and with its session free, a mind whose callers come to its port takes the next one.
pub fn callers_are_taken()
    ensures { CallersAreTaken }
{}

/// While a caller waits at a calling line, a try comes at the first look a second after the last.
pub fn tries_again()
    ensures { TriesAgain }
{}

/// While somebody waits for the service of an offering line without a device, it is dialled at the first look five seconds after
/// it couldn't be.
pub fn attaches_again()
    ensures { AttachesAgain }
{}

/// A session for which no caller comes to the line's port is closed at the first look 30 seconds after the first that showed it.
pub fn waits_end()
    ensures { WaitsEnd }
{}

/// While a caller waits at a calling line, a session that isn't answered is closed at the first look five seconds after the first
/// that showed it.
pub fn asks_end()
    ensures { AsksEnd }
{}

/// A caller whose session was never live, and has ended or was closed by its mind, waits again, its node avoided first where that
/// is due.
pub fn loses_first()
    ensures { LosesFirst }
{}

/// So does one whose circuit a peer that was started again didn't know: and this peer isn't avoided.
pub fn waits_for_the_restarted()
    ensures { WaitsForTheRestarted }
{}

/// A caller whose session is over, and who gets no other, is hung up within a bounded number of turns of which something came.
pub fn hangs_up()
    ensures { HangsUp }
{}

/// At the end of the daemon a mind finishes within a bounded number of turns of which something came.
pub fn ends()
    ensures { Ends }
{}

/// Behind each write a caller at a live session is read, or what was read of it is put, however much it owes.
pub fn callers_are_heard()
    ensures { CallersAreHeard }
{}
