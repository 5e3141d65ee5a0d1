//! The jobs of a port.

ghost use Rattle.std.specs.Prelude.{◌≡◌, ◌<◌, ◌≤◌, [], length, remove};
ghost use Rattle.lat_jobs.specs.Queues.{all_placed, has_room, may_ask, queue_came, queue_next, queue_told};

use crate::fact::{Fact, Move};
use crate::look::Look;
use crate::mind::JobMind;
use arrayvec::ArrayVec;
use std::marker::Model;

/// How many jobs of a port ask at a time.
pub const JOBS: usize = 8;

/// The jobs of a port that were accepted and aren't over, in the order in which they came: 8 at most. Contracts see the list of
/// their minds. A job may ask where each one before it has a place in the server's queue.
#[derive(Drop)]
pub struct JobQueue {
    jobs: ArrayVec<JobMind, 8>,
}

impl Model for JobQueue {
    ghost use Rattle.std.specs.Prelude.{List};
    ghost use Rattle.lat_jobs.specs.declared.mind.JobMind.{JobMind};

    ghost Value = { List JobMind };

    ghost view = { λ a. a.jobs.items };
}

fn all_placed(jobs: &[JobMind]) -> bool
    ensures { result ≡ all_placed jobs.now }
{
    jobs.iter().all(|job| job.has_place())
}

impl JobQueue {
    /// A queue without a job.
    pub fn make() -> JobQueue
        ensures { result ≡ [] }
    {
        JobQueue {
            jobs: ArrayVec::new(),
        }
    }

    /// How many jobs it has, at most 8.
    pub fn len(&self) -> usize
        ensures count { result ≡ length self.now }
        ensures most { result ≤ 8 }
    {
        self.jobs.len()
    }

    /// Whether the next client may be accepted: fewer than 8 jobs are there.
    pub fn has_room(&self) -> bool
        ensures { result ≡ has_room self.now }
    {
        !self.jobs.is_full()
    }

    /// Takes the job of a client that has just come, behind the others. Where there is no room for it nothing changes.
    pub fn came(&mut self)
        ensures { self.new ≡ queue_came self.old }
    {
        if !self.jobs.is_full() {
            self.jobs.push(JobMind::make());
        }
    }

    /// Whether the job at this place, counted from 0, may ask: each job before it has a place.
    pub fn may_ask(&self, at: usize) -> bool
        requires { at ≤ length self.now }
        ensures { result ≡ may_ask self.now at }
    {
        all_placed(&self.jobs.as_slice()[..at])
    }

    /// The next move of the job at this place. `Stop` where there is none.
    pub fn next(&self, at: usize, see: &Look) -> Move
        ensures { result ≡ queue_next self.now at see.now }
    {
        match self.jobs.as_slice().get(at) {
            Some(job) => job.next(see, self.may_ask(at)),
            None => Move::Stop,
        }
    }

    /// Tells the job at this place what came of its move at this look. Where there is none nothing changes.
    pub fn told(&mut self, at: usize, see: &Look, fact: Fact)
        ensures { self.new ≡ queue_told self.old at see.now fact }
    {
        if let Some(job) = self.jobs.get_mut(at) {
            job.told(see, fact);
        }
    }

    /// Lets the job at this place go, which is over.
    pub fn leave(&mut self, at: usize)
        requires { at < length self.old }
        ensures { self.new ≡ remove self.old at }
    {
        self.jobs.remove(at);
    }
}
