//! The spool.

ghost use Rattle.std.specs.Prelude.{◌≡◌, ◌≤◌, ◌<◌, length, false, position, slice_get, OnOk, IsErr, IfErr, OnErr, IfSome};
ghost use Rattle.std.specs.List.{list_all};
ghost use Rattle.lat_jobs.specs.Minds.{fresh_mind};
ghost use Rattle.lat_spool.specs.Jobs.{is_called, is_under, passes};
ghost use Rattle.lat_spool.specs.Spools.{fresh_spool, has_room, jobs_back, jobs_heard, jobs_of, jobs_over, knows, lent, lent_at, loan, loan_from, loan_left, may_ask, out_at, spool_came, spool_next};

use crate::hand::Hand;
use crate::job::Job;
use crate::load::Load;
use crate::loan::Loan;
use lat_base::{Addr, Correspondent};
use lat_jobs::{Look, Move, StatusLook};
use std::alloc::Global;
use std::marker::Model;

/// How many jobs of a queue are there at a time.
pub const JOBS: usize = 8;

/// The jobs of a node's queues that aren't over, in the order in which they came. One that waits is here with what it
/// carries; of one that is lent it is known who has it, and under which number. Contracts see the list.
#[derive(Drop)]
pub struct Spool<J: Load> {
    servers: Vec<Addr>,
    jobs: Vec<Job<J>>,
    came: u64,
}

impl<J: Load> Model for Spool<J> {
    ghost use Rattle.lat_spool.specs.Spools.{SpoolView};

    ghost Value = { SpoolView J };

    ghost view = { λ a. record { servers = a.servers.items; jobs = a.jobs.items; came = a.came } };
}

// How many of these jobs are of the queue.
fn count_of<J: Load>(jobs: &[Job<J>], queue: u8) -> usize
    ensures { result ≡ jobs_of queue jobs.now }
{
    jobs.iter().filter(|job| job.queue == queue).count()
}

// Whether each of these jobs lets those of the queue ask.
fn all_pass<J: Load>(jobs: &[Job<J>], queue: u8) -> bool
    ensures { result ≡ list_all (passes J.mind_of queue) jobs.now }
{
    jobs.iter().all(|job| job.passes(queue))
}

impl<J: Load> Spool<J> {
    /// The spool of a node with a queue for each of these servers, without a job. It takes no memory.
    pub fn make(alloc: Global, servers: Vec<Addr>) -> Spool<J>
        ensures { result ≡ fresh_spool servers.items }
    {
        Spool {
            servers,
            jobs: Vec::new(alloc),
            came: 0,
        }
    }

    /// How many jobs aren't over, those that are lent among them.
    pub fn len(&self) -> usize
        ensures { result ≡ length self.now.jobs }
    {
        self.jobs.len()
    }

    /// Whether the next client of a queue may be accepted: there is such a queue, fewer than 8 jobs of it are there, and
    /// fewer than 2^64 - 1 came in all.
    pub fn has_room(&self, queue: u8) -> bool
        ensures { result ≡ has_room self.now queue }
    {
        (queue as usize) < self.servers.len()
            && (count_of(self.jobs.as_slice(), queue) < JOBS && self.came < u64::MAX)
    }

    /// Takes the job of a client that has just come to a queue, behind the others. Without room, and where no memory is
    /// found, nothing changes, and what it carries is handed back.
    pub fn came(&mut self, queue: u8, load: J) -> Result<(), J>
        requires { J.mind_of load ≡ fresh_mind }
        ensures came { OnOk result (self.new ≡ spool_came self.old queue load) }
        ensures full { has_room self.old queue ≡ false → IsErr result }
        ensures same { OnErr result (self.new ≡ self.old) }
        ensures handed { IfErr result (λ l. l ≡ load) }
    {
        if !self.has_room(queue) {
            return Err(load);
        }
        let Some(came) = self.came.checked_add(1) else {
            return Err(load);
        };
        let Some(server) = self.servers.get(queue as usize).copied() else {
            return Err(load);
        };
        if self.jobs.reserve(1).is_err() {
            return Err(load);
        }
        self.jobs
            .push_reserved(Job::new(self.came, queue, server, load));
        self.came = came;
        Ok(())
    }

    // The place of the first job whose request stands under this number at this server.
    fn under_at(&self, server: Addr, number: u16) -> Option<usize>
        ensures value { result ≡ position (is_under J.mind_of server number) self.now.jobs }
        ensures within { IfSome result (λ at. at < length self.now.jobs) }
    {
        self.jobs
            .iter()
            .position(|job| job.is_under(server, number))
    }

    /// A status that this station sent was heard: the job whose request stands under its number at this server has it as
    /// its last one. Nothing else changes.
    pub fn heard(&mut self, from: Addr, status: StatusLook)
        ensures { self.new ≡ record self.old { jobs = jobs_heard J.mind_of from status self.old.jobs } }
    {
        let Some(at) = self.under_at(from, status.request) else {
            return;
        };
        if let Some(job) = self.jobs.get_mut(at) {
            job.heard(from, status);
        }
    }

    /// Whether a job of this queue may ask at this place, counted from 0: each job of the queue before it has a place in
    /// the server's queue, or a session.
    pub fn may_ask(&self, queue: u8, at: usize) -> bool
        requires { at ≤ length self.now.jobs }
        ensures { result ≡ may_ask J.mind_of self.now.jobs queue at }
    {
        all_pass(&self.jobs.as_slice()[..at], queue)
    }

    /// The next move of the job at this place, counted from 0. `Stop` where none waits there.
    pub fn next(&self, at: usize, see: &Look) -> Move
        ensures { result ≡ spool_next J.mind_of self.now.jobs at see.now }
    {
        match self.jobs.get(at) {
            Some(job) => job.next(see, self.may_ask(job.queue, at)),
            None => Move::Stop,
        }
    }

    /// Hands the job at this place, counted from 0, to the clock's worker. `None` where none waits there.
    pub fn lend_at(&mut self, at: usize) -> Option<Loan<J>>
        ensures jobs { self.new ≡ record self.old { jobs = lent_at J.mind_of self.old.jobs at } }
        ensures loan { result ≡ loan_from (slice_get self.old.jobs at) }
    {
        match self.jobs.get_mut(at) {
            Some(job) => job.lend_to_clock(),
            None => None,
        }
    }

    // The place of the first job that waits for such a session.
    fn called_at(&self, who: &Correspondent) -> Option<usize>
        ensures value { result ≡ position (is_called J.mind_of who.now) self.now.jobs }
        ensures within { IfSome result (λ at. at < length self.now.jobs) }
    {
        self.jobs.iter().position(|job| job.is_called(who))
    }

    /// Hands the first job that waits for such a session to the worker of the line that has it. `None` where none does.
    pub fn lend(&mut self, line: u8, who: &Correspondent) -> Option<Loan<J>>
        ensures jobs { self.new ≡ record self.old { jobs = lent J.mind_of self.old.jobs line who.now } }
        ensures loan { result ≡ loan J.mind_of self.old.jobs who.now }
    {
        let Some(at) = self.called_at(who) else {
            return None;
        };
        match self.jobs.get_mut(at) {
            Some(job) => job.lend(Hand::Line { line }),
            None => None,
        }
    }

    /// Whether a job waits for such a session, or this line has the job whose session it is. One that no job knows is
    /// nobody's, and the line's worker closes it.
    pub fn knows(&self, line: u8, who: &Correspondent) -> bool
        ensures { result ≡ knows J.mind_of self.now.jobs line who.now }
    {
        self.jobs.iter().any(|job| job.is_known(line, who))
    }

    // The place of the job of this key that is lent.
    fn out_at(&self, key: u64) -> Option<usize>
        ensures value { result ≡ out_at key self.now.jobs }
        ensures within { IfSome result (λ at. at < length self.now.jobs) }
    {
        self.jobs.iter().position(|job| job.is_out(key))
    }

    /// Takes a job back, which waits from now on. What isn't lent, or has a session, or comes from a line under another
    /// number than that by which it was lent, is handed back, and nothing changes.
    pub fn back(&mut self, loan: Loan<J>) -> Option<Loan<J>>
        ensures jobs { self.new ≡ record self.old { jobs = jobs_back J.mind_of loan self.old.jobs } }
        ensures left { result ≡ loan_left J.mind_of loan self.old.jobs }
    {
        let Some(at) = self.out_at(loan.key) else {
            return Some(loan);
        };
        match self.jobs.get_mut(at) {
            Some(job) => job.back(loan),
            None => Some(loan),
        }
    }

    /// The job of this key, which is lent, is over: its place in its queue is free.
    pub fn over(&mut self, key: u64)
        ensures { self.new ≡ record self.old { jobs = jobs_over key self.old.jobs } }
    {
        if let Some(at) = self.out_at(key) {
            self.jobs.remove(at);
        }
    }
}
