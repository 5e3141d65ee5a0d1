//! The mind: the next move, and what is told.

ghost use Rattle.std.specs.Prelude.{◌≡◌};
ghost use Rattle.lat_mind.specs.Phases.{has_caller, was_live};
ghost use Rattle.lat_mind.specs.Runs.{left_in, owed_in};
ghost use Rattle.lat_mind.specs.Minds.{fresh_for, fresh_mind, has_stood, is_last, is_late, is_overdue, may_try, mind_next, mind_told, next_alone, next_close, next_ending, next_joined, next_live, next_lost, next_over, next_serving, next_shut, next_waiting, patience_of, spent, sweeps, to_dial, try_of};

use crate::after::{away_after, calm_after, ready_after, seen_after, shut_after, since_after};
use crate::fact::{Fact, Move};
use crate::kind::Kind;
use crate::line_look::{
    avoidable, holds_on, is_answered, is_free, is_live, is_shunned, shows_live,
};
use crate::look::Look;
use crate::phase::{Guest, Phase, Waiter};

/// How long a calling line waits before it tries again, in milliseconds.
const CONNECT_MS: u64 = 1_000;

/// How long an offering line waits before it dials its device again, in milliseconds.
const ATTACH_MS: u64 = 5_000;

/// How long a session waits for a caller at the line's port, in milliseconds.
const WAIT_MS: u64 = 30_000;

/// How long a caller's session waits for its answer, in milliseconds.
const ANSWER_MS: u64 = 5_000;

/// How long a calm line with a caller waits for something to happen, in milliseconds.
const CALLER_PATIENCE_MS: u64 = 10;

/// What a line's worker knows. A turn is a look, the move at it, and what came of that, told with the same look.
#[derive(Clone, Copy)]
pub struct LineMind {
    kind: Kind,
    /// The number of the last session that got a caller, or for which a dial failed.
    seen: u64,
    /// The number of the last session that this mind closed.
    shut: u64,
    /// The number of the newest session at the last look, and the moment of the first look that showed it.
    noted: u64,
    since: u64,
    /// When the line's device couldn't be dialled, where it hasn't come since.
    away: Option<u64>,
    /// Whether the line is ready.
    ready: bool,
    /// How many facts in a row said that nothing happened, 50 at most.
    calm: u64,
    phase: Phase,
}

fn may_try(tried: Option<u64>, every: u64, now: u64) -> bool
    ensures { result ≡ may_try tried every now }
{
    match tried {
        None => true,
        Some(then) => then <= now && now - then >= every,
    }
}

impl LineMind {
    /// A mind that was told nothing.
    pub fn make(kind: Kind) -> LineMind
        ensures { result ≡ fresh_mind kind }
    {
        LineMind {
            kind,
            seen: 0,
            shut: 0,
            noted: 0,
            since: 0,
            away: None,
            ready: false,
            calm: 0,
            phase: Phase::Alone,
        }
    }

    /// Takes in what came of the move at this look.
    pub fn told(&mut self, see: &Look, fact: Fact)
        ensures { self.new ≡ mind_told self.old see.now fact }
    {
        self.seen = seen_after(self.seen, see, fact);
        self.shut = shut_after(self.shut, see, fact);
        self.since = since_after(self.noted, self.since, see);
        self.noted = see.line.newest;
        self.away = away_after(self.away, see, fact);
        self.ready = ready_after(self.ready, fact);
        self.calm = calm_after(self.calm, fact);
        self.phase = self.phase.after(see, fact);
    }

    /// The next move at this look.
    pub fn next(&self, see: &Look) -> Move
        ensures { result ≡ mind_next self.now see.now }
    {
        match self.phase {
            Phase::Alone => self.next_alone(see),
            Phase::Waiting(waiter) => self.next_waiting(waiter, see),
            Phase::Joined(guest) => self.next_joined(guest, see),
            Phase::Finished => Move::Finish,
        }
    }

    /// How many bytes were read of its caller and not yet put.
    pub fn left(&self) -> u16
        ensures { result ≡ left_in self.now.phase }
    {
        match self.phase {
            Phase::Joined(guest) => guest.left,
            _ => 0,
        }
    }

    /// How many items were taken for its caller and not yet written.
    pub fn owed(&self) -> u16
        ensures { result ≡ owed_in self.now.phase }
    {
        match self.phase {
            Phase::Joined(guest) => guest.owed,
            _ => 0,
        }
    }

    /// How far its line is with its caller.
    pub fn phase(&self) -> Phase
        ensures { result ≡ self.now.phase }
    {
        self.phase
    }

    /// The number of the last session that it closed.
    pub fn shut(&self) -> u64
        ensures { result ≡ self.now.shut }
    {
        self.shut
    }

    /// Whether its line has a caller.
    pub fn has_caller(&self) -> bool
        ensures { result ≡ has_caller self.now.phase }
    {
        self.phase.has_caller()
    }

    /// Whether its caller has a session that was seen live.
    pub fn was_live(&self) -> bool
        ensures { result ≡ was_live self.now.phase }
    {
        match self.phase {
            Phase::Joined(guest) => guest.live,
            _ => false,
        }
    }

    /// How long an accept, a watch, a read or a rest may wait for something to happen, in milliseconds: 0 behind anything that
    /// happened, one more behind each fact that nothing did, up to 50, or 10 where the line has a caller.
    pub fn patience(&self) -> u64
        ensures { result ≡ patience_of self.now }
    {
        if self.phase.has_caller() && self.calm > CALLER_PATIENCE_MS {
            CALLER_PATIENCE_MS
        } else {
            self.calm
        }
    }

    // Whether the newest session came for a caller of this line, who has none yet.
    fn fresh(&self, see: &Look) -> bool
        ensures { result ≡ fresh_for self.now see.now }
    {
        !self.kind.is_calling()
            && see.line.newest > self.seen
            && see.line.newest != self.shut
            && holds_on(&see.line)
            && see.owner.is_own()
    }

    // Whether a caller is to be dialled for such a session.
    fn to_dial(&self, see: &Look) -> bool
        ensures { result ≡ to_dial self.now see.now }
    {
        !self.kind.is_offering() && !see.owner.at_port()
    }

    // Whether the newest session was first shown so many milliseconds ago.
    fn has_stood(&self, see: &Look, ms: u64) -> bool
        ensures { result ≡ has_stood self.now see.now ms }
    {
        see.line.newest == self.noted && self.since <= see.moment && see.moment - self.since >= ms
    }

    // Whether nobody has come to the line's port for the newest session, though it was there for long.
    fn is_late(&self, see: &Look) -> bool
        ensures { result ≡ is_late self.now see.now }
    {
        see.owner.at_port() && self.has_stood(see, WAIT_MS)
    }

    // Whether the caller's session was never live, though it was there for long, and another one may be tried for.
    fn is_overdue(&self, guest: Guest, see: &Look) -> bool
        ensures { result ≡ is_overdue self.now guest see.now }
    {
        self.kind.is_calling() && !guest.live && self.has_stood(see, ANSWER_MS)
    }

    // Whether the newest session, which has no caller, is to be closed.
    fn sweeps(&self, see: &Look) -> bool
        ensures { result ≡ sweeps self.now see.now }
    {
        see.line.newest != self.shut
            && holds_on(&see.line)
            && !see.owner.is_job()
            && (see.stopping || !self.fresh(see) || self.is_late(see))
    }

    fn next_alone(&self, see: &Look) -> Move
        ensures { result ≡ next_alone self.now see.now }
    {
        if self.sweeps(see) {
            return Move::Close;
        }
        if see.stopping {
            return Move::Finish;
        }
        let fresh = self.fresh(see);
        if self.kind.is_offering() {
            let due = may_try(self.away, ATTACH_MS, see.moment);
            return if (see.wanted || fresh) && due {
                Move::Attach
            } else {
                Move::Rest
            };
        }
        if fresh && self.to_dial(see) {
            Move::Dial
        } else if fresh || is_free(&see.line) {
            Move::Accept
        } else {
            Move::Rest
        }
    }

    // Nothing came for the caller, and it stays.
    fn try_again(&self, waiter: Waiter, see: &Look) -> Move
        ensures { result ≡ try_of self.now waiter see.now }
    {
        if self.kind.is_offering() {
            return if self.ready { Move::Watch } else { Move::Ready };
        }
        let due = may_try(waiter.tried, CONNECT_MS, see.moment);
        if self.kind.is_calling() && is_free(&see.line) && due {
            Move::Connect
        } else {
            Move::Watch
        }
    }

    fn next_waiting(&self, waiter: Waiter, see: &Look) -> Move
        ensures { result ≡ next_waiting self.now waiter see.now }
    {
        let fresh = self.fresh(see);
        if see.stopping || (waiter.gone && !(self.kind.is_offering() && fresh)) {
            return if self.ready {
                Move::Unready
            } else {
                Move::HangUp
            };
        }
        if fresh {
            return if self.to_dial(see) {
                Move::Dial
            } else {
                Move::Join
            };
        }
        if self.sweeps(see) {
            return Move::Close;
        }
        self.try_again(waiter, see)
    }

    // Whether nothing more can be put into the caller's session, or taken from it.
    fn spent(&self, guest: Guest, see: &Look) -> bool
        ensures { result ≡ spent self.now guest see.now }
    {
        see.line.newest != guest.session || self.shut == guest.session || !holds_on(&see.line)
    }

    // The caller's session is spent, and nothing is owed.
    fn next_over(&self, guest: Guest, see: &Look) -> Move
        ensures { result ≡ next_over self.now guest see.now }
    {
        if see.stopping || see.line.newest != guest.session {
            Move::HangUp
        } else if self.shut == guest.session {
            self.next_shut(guest, see)
        } else {
            self.next_lost(guest, see)
        }
    }

    // Whether the caller gets no other session.
    fn is_last(&self, guest: Guest) -> bool
        ensures { result ≡ is_last self.now.kind guest }
    {
        guest.live || guest.ended || !self.kind.is_calling()
    }

    // This mind closed the caller's session: where it wasn't answered in time the caller waits for another one.
    fn next_shut(&self, guest: Guest, see: &Look) -> Move
        ensures { result ≡ next_shut self.now guest see.now }
    {
        if self.is_last(guest) {
            Move::HangUp
        } else if !guest.avoided && is_shunned(&see.line) {
            Move::Avoid
        } else {
            Move::Lose
        }
    }

    // The caller's session is over, and this mind didn't close it.
    fn next_lost(&self, guest: Guest, see: &Look) -> Move
        ensures { result ≡ next_lost self.now guest see.now }
    {
        let live = guest.live || shows_live(&see.line, guest.session);
        if self.kind.is_calling() && !guest.avoided && avoidable(see.line.end, live) {
            return Move::Avoid;
        }
        if live || guest.ended || !self.kind.is_calling() {
            return Move::HangUp;
        }
        Move::Lose
    }

    // The caller's session is to be closed: behind an attention, where its device has gone.
    fn next_close(&self, guest: Guest, see: &Look) -> Move
        ensures { result ≡ next_close self.now guest see.now }
    {
        let gone = self.kind.is_offering() && (guest.failed || guest.ended);
        if gone && is_live(&see.line) && !guest.attended {
            Move::Attend
        } else {
            Move::Close
        }
    }

    // The daemon is ending, or the caller's connection failed, and the caller's session isn't spent.
    fn next_ending(&self, guest: Guest, see: &Look) -> Move
        ensures { result ≡ next_ending self.now guest see.now }
    {
        if guest.left > 0 && is_live(&see.line) {
            if see.line.room > 0 {
                Move::Put
            } else {
                Move::Rest
            }
        } else {
            self.next_close(guest, see)
        }
    }

    // The caller's session is live, and no items are to be taken now.
    fn next_live(&self, guest: Guest, see: &Look) -> Move
        ensures { result ≡ next_live self.now guest see.now }
    {
        if guest.left == 0 {
            return if guest.ended {
                self.next_close(guest, see)
            } else {
                Move::Read
            };
        }
        if see.line.room > 0 {
            return Move::Put;
        }
        if guest.owed > 0 {
            Move::Write
        } else {
            Move::Rest
        }
    }

    // The caller's session isn't spent.
    fn next_serving(&self, guest: Guest, see: &Look) -> Move
        ensures { result ≡ next_serving self.now guest see.now }
    {
        if !is_answered(&see.line) {
            return if guest.ended || self.is_overdue(guest, see) {
                Move::Close
            } else {
                Move::Watch
            };
        }
        let live = is_live(&see.line);
        if live && guest.wrote.is_some() {
            return self.next_live(guest, see);
        }
        if see.line.waiting > 0 && guest.owed == 0 {
            return Move::Take;
        }
        if live {
            self.next_live(guest, see)
        } else {
            Move::Write
        }
    }

    fn next_joined(&self, guest: Guest, see: &Look) -> Move
        ensures { result ≡ next_joined self.now guest see.now }
    {
        if self.ready {
            return Move::Unready;
        }
        let spent = self.spent(guest, see);
        if guest.failed {
            return if spent {
                Move::HangUp
            } else {
                self.next_ending(guest, see)
            };
        }
        if guest.owed > 0 && guest.wrote.is_none() {
            return Move::Write;
        }
        if !spent {
            return if see.stopping {
                self.next_ending(guest, see)
            } else {
                self.next_serving(guest, see)
            };
        }
        if guest.owed == 0 {
            return self.next_over(guest, see);
        }
        if see.stopping && guest.wrote == Some(0) {
            Move::Finish
        } else {
            Move::Write
        }
    }
}
