//! How far a line is with its caller.

ghost use Rattle.std.specs.Prelude.{◌≡◌};
ghost use Rattle.lat_mind.specs.Phases.{alone_after, fresh_guest, guest_after, has_caller, held_after, hung_up, left_after, owed_after, phase_after, waiter_after, waiting_after};

use crate::fact::Fact;
use crate::line_look::shows_live;
use crate::look::Look;

/// A caller without a session.
#[derive(Clone, Copy)]
pub struct Waiter {
    /// When a session was tried for last, in milliseconds.
    pub tried: Option<u64>,
    /// Whether the caller has left.
    pub gone: bool,
}

/// A caller with its session.
#[derive(Clone, Copy)]
pub struct Guest {
    /// The number of its session.
    pub session: u64,
    /// When a session was tried for last, in milliseconds.
    pub tried: Option<u64>,
    /// Whether another caller waits at the line's port meanwhile: this one was dialled for its session.
    pub beside: bool,
    /// Whether the session was seen live.
    pub live: bool,
    /// How many bytes were read and not yet put.
    pub left: u16,
    /// How many items were taken and not yet written.
    pub owed: u16,
    /// Whether the caller gives no more.
    pub ended: bool,
    /// Whether the caller's connection failed.
    pub failed: bool,
    /// How many items the last fact wrote, where it was a write.
    pub wrote: Option<u16>,
    /// Whether the node of the session was avoided.
    pub avoided: bool,
    /// Whether the peer was told that the device has gone.
    pub attended: bool,
}

/// How far a line is with its caller.
#[derive(Clone, Copy)]
pub enum Phase {
    /// It has no caller.
    Alone,
    /// Its caller has no session.
    Waiting(Waiter),
    /// Its caller has a session.
    Joined(Guest),
    /// Its worker has ended.
    Finished,
}

// A caller that has just got this session.
fn fresh_guest(session: u64, tried: Option<u64>, beside: bool, failed: bool) -> Guest
    ensures { result ≡ fresh_guest session tried beside failed }
{
    Guest {
        session,
        tried,
        beside,
        live: false,
        left: 0,
        owed: 0,
        ended: false,
        failed,
        wrote: None,
        avoided: false,
        attended: false,
    }
}

fn alone_after(see: &Look, fact: Fact) -> Phase
    ensures { result ≡ alone_after see.now fact }
{
    match fact {
        Fact::Came => Phase::Waiting(Waiter {
            tried: None,
            gone: false,
        }),
        Fact::Dialled => Phase::Joined(fresh_guest(see.line.newest, None, false, false)),
        Fact::Finished => Phase::Finished,
        _ => Phase::Alone,
    }
}

impl Waiter {
    fn after(self, see: &Look, fact: Fact) -> Waiter
        ensures { result ≡ waiter_after self see.now fact }
    {
        match fact {
            Fact::Unconnected => Waiter {
                tried: Some(see.moment),
                ..self
            },
            Fact::Ended | Fact::Failed => Waiter { gone: true, ..self },
            _ => self,
        }
    }

    fn phase_after(self, see: &Look, fact: Fact) -> Phase
        ensures { result ≡ waiting_after self see.now fact }
    {
        match fact {
            Fact::Joined => Phase::Joined(fresh_guest(
                see.line.newest,
                self.tried,
                false,
                self.gone,
            )),
            Fact::Dialled => Phase::Joined(fresh_guest(see.line.newest, None, true, false)),
            Fact::Connected(number) => Phase::Joined(fresh_guest(
                number,
                Some(see.moment),
                false,
                self.gone,
            )),
            Fact::HungUp => Phase::Alone,
            Fact::Finished => Phase::Finished,
            _ => Phase::Waiting(self.after(see, fact)),
        }
    }
}

fn left_after(left: u16, fact: Fact) -> u16
    ensures { result ≡ left_after left fact }
{
    match fact {
        Fact::Read(count) => count,
        Fact::Put(count) => left.saturating_sub(count),
        _ => left,
    }
}

fn owed_after(owed: u16, fact: Fact) -> u16
    ensures { result ≡ owed_after owed fact }
{
    match fact {
        Fact::Took(count) => count,
        Fact::Written(count) => owed.saturating_sub(count),
        _ => owed,
    }
}

impl Guest {
    fn after(self, see: &Look, fact: Fact) -> Guest
        ensures { result ≡ held_after self see.now fact }
    {
        Guest {
            session: self.session,
            tried: self.tried,
            beside: self.beside,
            live: self.live || shows_live(&see.line, self.session),
            left: left_after(self.left, fact),
            owed: owed_after(self.owed, fact),
            ended: self.ended || fact.is_ended(),
            failed: self.failed || fact.is_failed(),
            wrote: fact.wrote(),
            avoided: self.avoided || fact.is_avoided(),
            attended: self.attended || fact.is_attended(),
        }
    }

    // Whoever waited beside it has the line now.
    fn hung_up(self) -> Phase
        ensures { result ≡ hung_up self }
    {
        if self.beside {
            Phase::Waiting(Waiter {
                tried: None,
                gone: false,
            })
        } else {
            Phase::Alone
        }
    }

    fn phase_after(self, see: &Look, fact: Fact) -> Phase
        ensures { result ≡ guest_after self see.now fact }
    {
        match fact {
            Fact::Lost => Phase::Waiting(Waiter {
                tried: self.tried,
                gone: false,
            }),
            Fact::HungUp => self.hung_up(),
            Fact::Finished => Phase::Finished,
            _ => Phase::Joined(self.after(see, fact)),
        }
    }
}

impl Phase {
    /// Whether the line has a caller.
    pub(crate) fn has_caller(self) -> bool
        ensures { result ≡ has_caller self }
    {
        matches!(self, Phase::Waiting(_) | Phase::Joined(_))
    }

    pub(crate) fn after(self, see: &Look, fact: Fact) -> Phase
        ensures { result ≡ phase_after self see.now fact }
    {
        match self {
            Phase::Alone => alone_after(see, fact),
            Phase::Waiting(waiter) => waiter.phase_after(see, fact),
            Phase::Joined(guest) => guest.phase_after(see, fact),
            Phase::Finished => Phase::Finished,
        }
    }
}
