//! A job of the spool.

ghost use Rattle.std.specs.Prelude.{◌≡◌};
ghost use Rattle.lat_spool.specs.Jobs.{answers, heard_of, is_called, is_known, is_number, is_out, is_under, left_over, lent_job, loan_of, passes, taken_back, takes};
ghost use Rattle.lat_spool.specs.Spools.{clock_lent, fresh_job, place_next};

use crate::hand::Hand;
use crate::load::Load;
use crate::loan::Loan;
use crate::place::Place;
use lat_base::{Addr, Correspondent};
use lat_jobs::{Look, Move, StatusLook};
use std::mem;

/// A job that isn't over.
#[derive(Drop)]
pub(crate) struct Job<J: Load> {
    pub(crate) key: u64,
    pub(crate) queue: u8,
    server: Addr,
    status: Option<StatusLook>,
    place: Place<J>,
}

// Whether this is a number of which a request may stand, and the job's own.
fn is_number(own: u16, number: u16) -> bool
    ensures { result ≡ is_number own number }
{
    0 < number && own == number
}

impl<J: Load> Job<J> {
    /// A job that has just come.
    pub(crate) fn new(key: u64, queue: u8, server: Addr, load: J) -> Job<J>
        ensures { result ≡ fresh_job key queue server load }
    {
        Job {
            key,
            queue,
            server,
            status: None,
            place: Place::Waits { load },
        }
    }

    /// Whether its request stands under this number at this server.
    pub(crate) fn is_under(&self, server: Addr, number: u16) -> bool
        ensures { result ≡ is_under J.mind_of server number self.now }
    {
        self.server == server && is_number(self.place.number(), number)
    }

    // Whether such a session came under its number.
    fn answers(&self, who: &Correspondent) -> bool
        ensures { result ≡ answers J.mind_of who.now who.now.request self.now }
    {
        match who.request {
            Some(number) => self.is_under(who.peer, number),
            None => false,
        }
    }

    /// A status was heard of this station.
    pub(crate) fn heard(&mut self, from: Addr, status: StatusLook)
        ensures { self.new ≡ heard_of J.mind_of from status self.old }
    {
        if self.is_under(from, status.request) {
            self.status = Some(status);
        }
    }

    /// Whether it isn't of this queue, or lets those behind it ask.
    pub(crate) fn passes(&self, queue: u8) -> bool
        ensures { result ≡ passes J.mind_of queue self.now }
    {
        self.queue != queue || self.place.lets_pass()
    }

    /// Its next move, where it waits. `turn` says whether it may ask.
    pub(crate) fn next(&self, see: &Look, turn: bool) -> Move
        ensures { result ≡ place_next J.mind_of self.now.place see.now turn }
    {
        match &self.place {
            Place::Waits { load } => load.mind().next(see, turn),
            Place::Lent { .. } => Move::Stop,
        }
    }

    /// Whether it waits for such a session.
    pub(crate) fn is_called(&self, who: &Correspondent) -> bool
        ensures { result ≡ is_called J.mind_of who.now self.now }
    {
        self.place.waits() && self.answers(who)
    }

    /// Whether such a session of this line is its own, or is to be.
    pub(crate) fn is_known(&self, line: u8, who: &Correspondent) -> bool
        ensures { result ≡ is_known J.mind_of line who.now self.now }
    {
        self.place.is_within(line) && self.answers(who)
    }

    /// Whether it is the job of this key, and lent.
    pub(crate) fn is_out(&self, key: u64) -> bool
        ensures { result ≡ is_out key self.now }
    {
        self.key == key && !self.place.waits()
    }

    /// Hands it over, where it waits.
    pub(crate) fn lend(&mut self, hand: Hand) -> Option<Loan<J>>
        ensures job { self.new ≡ lent_job J.mind_of hand self.old }
        ensures loan { result ≡ loan_of self.old }
    {
        let number = self.place.number();
        match mem::replace(&mut self.place, Place::Lent { hand, number }) {
            Place::Waits { load } => Some(Loan {
                key: self.key,
                queue: self.queue,
                server: self.server,
                status: self.status,
                load,
            }),
            lent => {
                self.place = lent;
                None
            }
        }
    }

    /// Hands it to the clock's worker, where it waits.
    pub(crate) fn lend_to_clock(&mut self) -> Option<Loan<J>>
        ensures job { self.new ≡ clock_lent J.mind_of self.old }
        ensures loan { result ≡ loan_of self.old }
    {
        let placed = self.place.lets_pass();
        self.lend(Hand::Clock { placed })
    }

    // Whether this loan is of the job, which takes it back.
    fn takes(&self, loan: &Loan<J>) -> bool
        ensures { result ≡ takes J.mind_of loan.now self.now }
    {
        self.key == loan.key && self.place.fits(&loan.load)
    }

    /// Takes the loan back, where it is of this job. It tells what is left of it.
    pub(crate) fn back(&mut self, loan: Loan<J>) -> Option<Loan<J>>
        ensures job { self.new ≡ taken_back J.mind_of loan self.old }
        ensures left { result ≡ left_over J.mind_of loan self.old }
    {
        if self.takes(&loan) {
            self.place = Place::Waits { load: loan.load };
            None
        } else {
            Some(loan)
        }
    }
}
