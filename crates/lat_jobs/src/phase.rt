//! How far a job is.

ghost use Rattle.std.specs.Prelude.{◌≡◌};
ghost use Rattle.lat_jobs.specs.Phases.{ask_after, asking_after, breaks, fresh_print, has_place, here, left_after, owed_after, pause_after, pausing_after, phase_after, print_after, printing_after};

use crate::fact::Fact;
use crate::look::Look;

/// A job of which no request stands.
#[derive(Clone, Copy)]
pub struct Pause {
    /// The moment from which it waits, in milliseconds.
    pub since: u64,
    /// Whether its client has gone, or no number is left.
    pub gone: bool,
}

/// A job that has asked for a session.
#[derive(Clone, Copy)]
pub struct Ask {
    /// The number of its request.
    pub number: u16,
    /// When it asked first under this number, in milliseconds.
    pub since: u64,
    /// When it asked for last, in milliseconds.
    pub asked: u64,
    /// Whether it was seen to have a place in the server's queue, or a grant.
    pub placed: bool,
    /// Whether its client has gone.
    pub gone: bool,
}

/// A job with its session.
#[derive(Clone, Copy)]
pub struct Print {
    /// The number of its request.
    pub number: u16,
    /// The number of its session among all line sessions of the core.
    pub session: u64,
    /// Whether something was read of its client.
    pub touched: bool,
    /// How many bytes were read and not yet put.
    pub left: u16,
    /// How many items were taken and not yet written.
    pub owed: u16,
    /// Whether its client has sent all.
    pub ended: bool,
    /// Whether its client's connection failed before that.
    pub failed: bool,
    /// Whether its client takes nothing more.
    pub deaf: bool,
    /// Whether the peer has said that its device has gone.
    pub broken: bool,
    /// Whether this mind closed the session.
    pub shut: bool,
    /// Whether the last fact was of a write.
    pub wrote: bool,
}

/// How far a job is.
#[derive(Clone, Copy)]
pub enum Phase {
    /// No request of it stands.
    Pausing(Pause),
    /// It has asked for a session.
    Asking(Ask),
    /// It has a session.
    Printing(Print),
    /// It is over.
    Over,
}

// A job that has just got this session.
fn fresh_print(number: u16, session: u64) -> Print
    ensures { result ≡ fresh_print number session }
{
    Print {
        number,
        session,
        touched: false,
        left: 0,
        owed: 0,
        ended: false,
        failed: false,
        deaf: false,
        broken: false,
        shut: false,
        wrote: false,
    }
}

impl Pause {
    fn after(self, fact: Fact) -> Pause
        ensures { result ≡ pause_after self fact }
    {
        match fact {
            Fact::Failed | Fact::Unasked => Pause { gone: true, ..self },
            _ => self,
        }
    }

    fn phase_after(self, see: &Look, fact: Fact) -> Phase
        ensures { result ≡ pausing_after self see.now fact }
    {
        match fact {
            Fact::Asked(number) => Phase::Asking(Ask {
                number,
                since: see.moment,
                asked: see.moment,
                placed: false,
                gone: false,
            }),
            Fact::Reset => Phase::Over,
            _ => Phase::Pausing(self.after(fact)),
        }
    }
}

impl Ask {
    fn after(self, see: &Look, fact: Fact) -> Ask
        ensures { result ≡ ask_after self see.now fact }
    {
        let asked = match fact {
            Fact::Repeated => see.moment,
            _ => self.asked,
        };
        Ask {
            number: self.number,
            since: self.since,
            asked,
            placed: see.is_placed(self.number),
            gone: self.gone || fact.is_failed(),
        }
    }

    fn phase_after(self, see: &Look, fact: Fact) -> Phase
        ensures { result ≡ asking_after self see.now fact }
    {
        match fact {
            Fact::Joined => Phase::Printing(fresh_print(self.number, see.line.newest)),
            Fact::Lost => Phase::Pausing(Pause {
                since: see.moment,
                gone: false,
            }),
            Fact::Cancelled => Phase::Pausing(Pause {
                since: see.moment,
                gone: self.gone || see.stopping,
            }),
            _ => Phase::Asking(self.after(see, fact)),
        }
    }
}

fn left_after(left: u16, fact: Fact) -> u16
    ensures { result ≡ left_after left fact }
{
    match fact {
        Fact::Read(count) => count,
        Fact::Put(count) => left.saturating_sub(count),
        _ => left,
    }
}

fn owed_after(owed: u16, fact: Fact) -> u16
    ensures { result ≡ owed_after owed fact }
{
    match fact {
        Fact::Took(count) => count,
        Fact::Written(count) => owed.saturating_sub(count),
        Fact::Failed => 0,
        _ => owed,
    }
}

impl Print {
    /// Whether the look shows its session.
    pub(crate) fn here(&self, see: &Look) -> bool
        ensures { result ≡ here self.now see.now }
    {
        see.is_for(self.number) && see.line.newest == self.session
    }

    /// Whether the peer has said that its device has gone, now or before.
    pub(crate) fn breaks(&self, see: &Look) -> bool
        ensures { result ≡ breaks self.now see.now }
    {
        self.broken || (self.here(see) && see.broken)
    }

    fn after(self, see: &Look, fact: Fact) -> Print
        ensures { result ≡ print_after self see.now fact }
    {
        Print {
            number: self.number,
            session: self.session,
            touched: self.touched || fact.is_read(),
            left: left_after(self.left, fact),
            owed: owed_after(self.owed, fact),
            ended: self.ended || fact.is_ended(),
            failed: self.failed || (fact.is_failed() && !self.ended),
            deaf: self.deaf || fact.is_failed(),
            broken: self.breaks(see),
            shut: self.shut || fact.is_closed(),
            wrote: fact.is_write(),
        }
    }

    fn phase_after(self, see: &Look, fact: Fact) -> Phase
        ensures { result ≡ printing_after self see.now fact }
    {
        match fact {
            Fact::Lost => Phase::Pausing(Pause {
                since: see.moment,
                gone: false,
            }),
            Fact::HungUp | Fact::Reset => Phase::Over,
            _ => Phase::Printing(self.after(see, fact)),
        }
    }
}

impl Phase {
    /// Whether those behind the job may ask: it was seen to have a place in the server's queue, or has a session, or is over.
    pub(crate) fn has_place(self) -> bool
        ensures { result ≡ has_place self }
    {
        match self {
            Phase::Pausing(_) => false,
            Phase::Asking(ask) => ask.placed,
            Phase::Printing(_) | Phase::Over => true,
        }
    }

    pub(crate) fn after(self, see: &Look, fact: Fact) -> Phase
        ensures { result ≡ phase_after self see.now fact }
    {
        match self {
            Phase::Pausing(pause) => pause.phase_after(see, fact),
            Phase::Asking(ask) => ask.phase_after(see, fact),
            Phase::Printing(print) => print.phase_after(see, fact),
            Phase::Over => Phase::Over,
        }
    }
}
