//! Where a job is.

ghost use Rattle.std.specs.Prelude.{◌≡◌};
ghost use Rattle.lat_jobs.specs.Runs.{number_in};
ghost use Rattle.lat_spool.specs.Jobs.{fits, fits_place, is_within, lets_pass, number_of, waits};

use crate::hand::Hand;
use crate::load::Load;
use lat_jobs::{JobMind, Phase};

/// Where a job is.
#[derive(Drop)]
pub(crate) enum Place<J: Load> {
    /// It waits in the spool.
    Waits { load: J },
    /// It is lent. The number of its request then, 0 where none stood.
    Lent { hand: Hand, number: u16 },
}

// The number of the request of a job with this mind, 0 where none stands.
fn number_in(mind: &JobMind) -> u16
    ensures { result ≡ number_in mind.now.phase }
{
    match mind.phase() {
        Phase::Asking(ask) => ask.number,
        Phase::Printing(print) => print.number,
        _ => 0,
    }
}

// Whether a job that was lent so may come back like this.
fn fits(hand: Hand, number: u16, phase: Phase) -> bool
    ensures { result ≡ fits hand number phase }
{
    match phase {
        Phase::Pausing(_) | Phase::Over => true,
        Phase::Asking(ask) => hand.is_clock() || ask.number == number,
        Phase::Printing(_) => false,
    }
}

impl<J: Load> Place<J> {
    /// The number of the job's request, 0 where none stands; of one that is lent, as it was then.
    pub(crate) fn number(&self) -> u16
        ensures { result ≡ number_of J.mind_of self.now }
    {
        match self {
            Place::Waits { load } => number_in(&load.mind()),
            Place::Lent { number, .. } => *number,
        }
    }

    /// Whether those behind the job in its queue may ask.
    pub(crate) fn lets_pass(&self) -> bool
        ensures { result ≡ lets_pass J.mind_of self.now }
    {
        match self {
            Place::Waits { load } => load.mind().has_place(),
            Place::Lent { hand, .. } => hand.passes(),
        }
    }

    /// Whether it waits in the spool.
    pub(crate) fn waits(&self) -> bool
        ensures { result ≡ waits self.now }
    {
        matches!(self, Place::Waits { .. })
    }

    /// Whether it waits in the spool, or this line has it.
    pub(crate) fn is_within(&self, line: u8) -> bool
        ensures { result ≡ is_within line self.now }
    {
        match self {
            Place::Waits { .. } => true,
            Place::Lent { hand, .. } => hand.is_of(line),
        }
    }

    /// Whether it is lent, and may come back like this.
    pub(crate) fn fits(&self, load: &J) -> bool
        ensures { result ≡ fits_place J.mind_of load.now self.now }
    {
        match self {
            Place::Waits { .. } => false,
            Place::Lent { hand, number } => fits(*hand, *number, load.mind().phase()),
        }
    }
}
