//! What holds of every job, and of every run of one. Nothing here runs: each law is a function that takes nothing, and whose
//! contract is the statement.

ghost use Rattle.lat_jobs.specs.Laws.{AsksInTime, DoneAreHungUp, OverIsStill, RepeatsInTime, RunsAreRight, WaitsAreBounded};
ghost use Rattle.lat_jobs.specs.Numbers.{NumbersAreNew};
ghost use Rattle.lat_jobs.specs.QueueRuns.{AsksInTurn, JobsAskInOrder, RepeatsInTurn};
ghost use Rattle.lat_jobs.specs.Reasons.{MovesHaveReasons};

/// Each move of a job's mind has its reason.
pub fn moves_have_reasons()
    ensures { MovesHaveReasons }
{}

/// In every run a put offers all that was read of the client and not yet put, into the live session that came under the number of
/// the job's request and that the job has joined; all bytes of the job go into one session, and none into that of a request that
/// was cancelled; a request is made in the job's turn, while nothing of it was printed, and behind the wait of its tries; and the
/// client is hung up only where it has sent all, all of it is put, and the session was closed behind that and is over.
pub fn runs_are_right()
    ensures { RunsAreRight }
{}

/// Behind its end a job makes no further move.
pub fn over_is_still()
    ensures { OverIsStill }
{}

/// No job waits for more than 300 seconds before it tries again.
pub fn waits_are_bounded()
    ensures { WaitsAreBounded }
{}

/// A job asks at the first look in its turn behind its wait.
pub fn asks_in_time()
    ensures { AsksInTime }
{}

/// A job of which nothing was heard asks again at the first look in its turn five seconds behind the last request.
pub fn repeats_in_time()
    ensures { RepeatsInTime }
{}

/// A client is hung up at the first look at which all of its job is put and its session is over as it should be.
pub fn done_are_hung_up()
    ensures { DoneAreHungUp }
{}

/// Whatever happens at a port, behind a job that has never asked and isn't over none has asked.
pub fn jobs_ask_in_order()
    ensures { JobsAskInOrder }
{}

/// A job asks under a new number only where each job before it has a place in the server's queue, or a session.
pub fn asks_in_turn()
    ensures { AsksInTurn }
{}

/// And so a job asks again, until a status is heard.
pub fn repeats_in_turn()
    ensures { RepeatsInTurn }
{}

/// Each number that is drawn is above all that were drawn before, so none is drawn twice.
pub fn numbers_are_new()
    ensures { NumbersAreNew }
{}
