//! The mind of a job: the next move, and what is told.

ghost use Rattle.std.specs.Prelude.{◌≡◌};
ghost use Rattle.lat_jobs.specs.Phases.{has_place};
ghost use Rattle.lat_jobs.specs.Minds.{calm_after, comes, fresh_mind, is_due, is_lost, is_open, is_owing, is_past, is_silent, is_whole, mind_next, mind_told, next_asking, next_cut, next_ending, next_live, next_pausing, next_printing, next_serving, next_shut, wait_after, waits_after};

use crate::fact::{Fact, Move};
use crate::line_look::{holds_on, is_answered, is_free, is_live, is_stopped};
use crate::look::Look;
use crate::phase::{Ask, Pause, Phase, Print};

/// How long a job waits before it tries again, in milliseconds: behind its first try, and at most.
const FIRST_WAIT_MS: u64 = 5_000;

const MOST_WAIT_MS: u64 = 300_000;

/// How long a job waits before it asks again under its number, in milliseconds: until a status is heard, and behind that.
const REPEAT_MS: u64 = 5_000;

const REFRESH_MS: u64 = 30_000;

/// How long nothing is heard of a request before the job tries again, in milliseconds.
const SILENCE_MS: u64 = 60_000;

/// How long a calm job waits for something to happen, in milliseconds.
const PATIENCE_MS: u64 = 10;

/// What a worker knows of a job. A turn is a look, the move at it, and what came of that, told with the same look.
#[derive(Clone, Copy)]
pub struct JobMind {
    /// How long it waits before the next try, or waited before the present one, in milliseconds.
    wait: u64,
    /// How many facts in a row said that nothing happened, 10 at most.
    calm: u64,
    phase: Phase,
}

fn is_past(from: u64, span: u64, now: u64) -> bool
    ensures { result ≡ is_past from span now }
{
    from <= now && now - from >= span
}

fn wait_after(wait: u64) -> u64
    ensures { result ≡ wait_after wait }
{
    if wait == 0 {
        FIRST_WAIT_MS
    } else {
        wait.saturating_add(wait).min(MOST_WAIT_MS)
    }
}

fn waits_after(wait: u64, fact: Fact) -> u64
    ensures { result ≡ waits_after wait fact }
{
    match fact {
        Fact::Lost | Fact::Cancelled => wait_after(wait),
        _ => wait,
    }
}

fn calm_after(calm: u64, fact: Fact) -> u64
    ensures { result ≡ calm_after calm fact }
{
    if !fact.is_quiet() {
        0
    } else if calm < PATIENCE_MS {
        calm + 1
    } else {
        PATIENCE_MS
    }
}

// The next move of a job of which no request stands.
fn next_pausing(wait: u64, pause: Pause, see: &Look, turn: bool) -> Move
    ensures { result ≡ next_pausing wait pause see.now turn }
{
    if pause.gone || see.stopping {
        Move::Reset
    } else if turn && is_past(pause.since, wait, see.moment) {
        Move::Ask
    } else {
        Move::Watch
    }
}

impl Ask {
    // Whether its session has come.
    fn comes(&self, see: &Look) -> bool
        ensures { result ≡ comes self.now see.now }
    {
        see.is_for(self.number) && holds_on(&see.line)
    }

    // Whether its session won't come, or was over before it was joined.
    fn is_lost(&self, see: &Look) -> bool
        ensures { result ≡ is_lost self.now see.now }
    {
        see.is_for(self.number) || see.is_refused(self.number)
    }

    // Whether nothing was heard of it for a minute.
    fn is_silent(&self, see: &Look) -> bool
        ensures { result ≡ is_silent self.now see.now }
    {
        let heard = see.last_heard(self.number, self.since);
        is_past(heard, SILENCE_MS, see.moment)
    }

    // Whether it is time to ask again.
    fn is_due(&self, see: &Look, turn: bool) -> bool
        ensures { result ≡ is_due self.now see.now turn }
    {
        if see.tells(self.number) {
            is_past(self.asked, REFRESH_MS, see.moment)
        } else {
            turn && is_past(self.asked, REPEAT_MS, see.moment)
        }
    }

    fn next(&self, see: &Look, turn: bool) -> Move
        ensures { result ≡ next_asking self.now see.now turn }
    {
        if self.gone || see.stopping {
            Move::Cancel
        } else if self.comes(see) {
            Move::Join
        } else if self.is_lost(see) {
            Move::Lose
        } else if self.is_silent(see) {
            Move::Cancel
        } else if self.is_due(see, turn) {
            Move::Repeat
        } else {
            Move::Watch
        }
    }
}

impl Print {
    // Whether its session is there, and can give or take something still.
    fn is_open(&self, see: &Look) -> bool
        ensures { result ≡ is_open self.now see.now }
    {
        self.here(see) && holds_on(&see.line)
    }

    // Whether all that the client sent was put, and nothing failed.
    fn is_whole(&self) -> bool
        ensures { result ≡ is_whole self.now }
    {
        self.ended && self.left == 0 && !self.failed && !self.broken
    }

    // Whether items are to be written, and the last fact was of no write.
    fn is_owing(&self) -> bool
        ensures { result ≡ is_owing self.now }
    {
        self.owed > 0 && !self.wrote
    }

    // The session is over, and this mind didn't close it.
    fn next_cut(&self) -> Move
        ensures { result ≡ next_cut self.now }
    {
        if self.touched {
            Move::Reset
        } else {
            Move::Lose
        }
    }

    // This mind has closed the session.
    fn next_shut(&self, see: &Look) -> Move
        ensures { result ≡ next_shut self.now see.now }
    {
        if !self.is_whole() || self.breaks(see) {
            return Move::Reset;
        }
        if self.is_owing() {
            return Move::Write;
        }
        let here = self.here(see);
        if here && !is_free(&see.line) {
            Move::Rest
        } else if !(here && is_stopped(&see.line)) {
            Move::Reset
        } else if self.owed > 0 && !see.stopping {
            Move::Write
        } else {
            Move::HangUp
        }
    }

    // The daemon is ending, and the session is open.
    fn next_ending(&self, see: &Look) -> Move
        ensures { result ≡ next_ending self.now see.now }
    {
        if self.left > 0 && is_live(&see.line) {
            if see.line.room > 0 {
                Move::Put
            } else {
                Move::Rest
            }
        } else {
            Move::Close
        }
    }

    // The session is live, and no items are to be taken now.
    fn next_live(&self, see: &Look) -> Move
        ensures { result ≡ next_live self.now see.now }
    {
        if self.left == 0 {
            return if self.ended { Move::Close } else { Move::Read };
        }
        if see.line.room > 0 {
            Move::Put
        } else if self.owed > 0 {
            Move::Write
        } else {
            Move::Rest
        }
    }

    // The session is open.
    fn next_serving(&self, see: &Look) -> Move
        ensures { result ≡ next_serving self.now see.now }
    {
        if !is_answered(&see.line) {
            return Move::Watch;
        }
        let live = is_live(&see.line);
        if live && self.wrote {
            return self.next_live(see);
        }
        if see.line.waiting > 0 && self.owed == 0 && !self.deaf {
            return Move::Take;
        }
        if live {
            self.next_live(see)
        } else if self.owed > 0 {
            Move::Write
        } else {
            self.next_cut()
        }
    }

    fn next(&self, see: &Look) -> Move
        ensures { result ≡ next_printing self.now see.now }
    {
        if self.shut {
            return self.next_shut(see);
        }
        let open = self.is_open(see);
        if self.failed || self.breaks(see) {
            return if open { Move::Close } else { Move::Reset };
        }
        if self.is_owing() {
            Move::Write
        } else if !open {
            self.next_cut()
        } else if see.stopping {
            self.next_ending(see)
        } else {
            self.next_serving(see)
        }
    }
}

impl JobMind {
    /// The mind of a job whose client has just come.
    pub fn make() -> JobMind
        ensures { result ≡ fresh_mind }
    {
        JobMind {
            wait: 0,
            calm: 0,
            phase: Phase::Pausing(Pause {
                since: 0,
                gone: false,
            }),
        }
    }

    /// Takes in what came of the move at this look.
    pub fn told(&mut self, see: &Look, fact: Fact)
        ensures { self.new ≡ mind_told self.old see.now fact }
    {
        self.wait = waits_after(self.wait, fact);
        self.calm = calm_after(self.calm, fact);
        self.phase = self.phase.after(see, fact);
    }

    /// The next move at this look. `turn` says whether the job may ask: each job before it in its queue has a place.
    pub fn next(&self, see: &Look, turn: bool) -> Move
        ensures { result ≡ mind_next self.now see.now turn }
    {
        match self.phase {
            Phase::Pausing(pause) => next_pausing(self.wait, pause, see, turn),
            Phase::Asking(ask) => ask.next(see, turn),
            Phase::Printing(print) => print.next(see),
            Phase::Over => Move::Stop,
        }
    }

    /// How far its job is.
    pub fn phase(&self) -> Phase
        ensures { result ≡ self.now.phase }
    {
        self.phase
    }

    /// Whether those behind the job may ask: it was seen to have a place in the server's queue, or has a session, or is over.
    pub fn has_place(&self) -> bool
        ensures { result ≡ has_place self.now.phase }
    {
        self.phase.has_place()
    }

    /// How long a watch, a read or a rest may wait for something to happen, in milliseconds: 0 behind anything that happened,
    /// one more behind each fact that nothing did, up to 10.
    pub fn patience(&self) -> u64
        ensures { result ≡ self.now.calm }
    {
        self.calm
    }
}

impl Default for JobMind {
    fn default() -> JobMind {
        JobMind::make()
    }
}
