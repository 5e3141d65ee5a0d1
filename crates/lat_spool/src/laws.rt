//! What holds of every spool, and of every run of one. Nothing here runs: each law is a function that takes nothing, and
//! whose contract is the statement.

ghost use Rattle.lat_spool.specs.Laws.{JobsAskInOrder, JobsHearTheirOwn, LentForItsNumber, NoJobInTwoPlaces};

use crate::load::Load;

/// Whatever happens to a spool, in whatever order: each job stands once in its list, in the order in which they came, and
/// a job is out exactly where it stands as lent. So no job is in two places, and none is lost.
pub fn no_job_in_two_places<J: Load>()
    ensures { NoJobInTwoPlaces J.mind_of }
{}

/// A line gets a job only for a session that came from the job's server under the number of the job's request.
pub fn lent_for_its_number<J: Load>()
    ensures { LentForItsNumber J.mind_of }
{}

/// A job asks under a new number only where each job of its queue before it has a place in the server's queue, or a
/// session.
pub fn jobs_ask_in_order<J: Load>()
    ensures { JobsAskInOrder J.mind_of }
{}

/// A status under another number, or of another station, changes nothing of a job.
pub fn jobs_hear_their_own<J: Load>()
    ensures { JobsHearTheirOwn J.mind_of }
{}
