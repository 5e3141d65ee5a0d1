//! What is handed over of a job.

use crate::load::Load;
use lat_base::Addr;
use lat_jobs::StatusLook;

/// A job that was taken out of the spool, in the hands of who works it. It goes back, or is over.
#[derive(Drop)]
pub struct Loan<J: Load> {
    /// The how-manieth job of the node it is, counted from 0. No other job has it.
    pub key: u64,
    /// The queue that it came to, counted from 0.
    pub queue: u8,
    /// The server whose service it is for.
    pub server: Addr,
    /// The last status that was heard under the number of its request.
    pub status: Option<StatusLook>,
    /// Its mind, its client, and what was read or taken for it.
    pub load: J,
}
