//! How often bad payloads are told of.

ghost use Rattle.std.specs.Prelude.{◌≡◌};
ghost use Rattle.lat_log.specs.BadRates.{blank, counted, due, due_next, is_over, told_after, told_of};

use crate::entry::Entry;

/// How many bad payloads have a line of their own in a second.
const MOST: u8 = 10;

/// How long such a second is, in milliseconds.
const SECOND: u64 = 1000;

/// How bad payloads are told of: at most ten in a second, which begins with the first of them; the others are counted, and their
/// number has a line once the second is over.
#[derive(Clone, Copy, Drop)]
pub struct BadRate {
    /// The moment at which the second began.
    pub since: u64,
    /// How many were told of in it.
    pub told: u8,
    /// How many weren't. It stops at 2^64 - 1.
    pub untold: u64,
}

/// What is told of a bad payload: before it, how many weren't told of in the second before; and its own line.
#[derive(Clone, Copy)]
pub struct BadTold {
    pub before: Option<Entry>,
    pub own: Option<Entry>,
}

// The line for those that were counted.
fn counted(untold: u64) -> Option<Entry>
    ensures { result ≡ counted untold }
{
    if untold == 0 {
        None
    } else {
        Some(Entry::MoreBad(untold))
    }
}

impl BadRate {
    /// None was heard yet.
    pub fn new() -> BadRate
        ensures { result ≡ blank }
    {
        BadRate {
            since: 0,
            told: 0,
            untold: 0,
        }
    }

    // Whether the second is over at a moment.
    fn is_over(&self, now: u64) -> bool
        ensures { result ≡ is_over self.now now }
    {
        now.saturating_sub(self.since) >= SECOND
    }

    /// What is told of a bad payload that was heard at this moment; `entry` is its own line.
    pub fn tell(&mut self, now: u64, entry: Entry) -> BadTold
        ensures told { result ≡ told_of self.old now entry }
        ensures rate { self.new ≡ told_after self.old now }
    {
        if self.is_over(now) {
            let before = counted(self.untold);
            *self = BadRate {
                since: now,
                told: 1,
                untold: 0,
            };
            return BadTold {
                before,
                own: Some(entry),
            };
        }
        if self.told < MOST {
            self.told += 1;
            return BadTold {
                before: None,
                own: Some(entry),
            };
        }
        self.untold = self.untold.saturating_add(1);
        BadTold {
            before: None,
            own: None,
        }
    }

    /// The line for those that were counted, where their second is over at this moment; then they are counted no more.
    pub fn due(&mut self, now: u64) -> Option<Entry>
        ensures due { result ≡ due self.old now }
        ensures rate { self.new ≡ due_next self.old now }
    {
        if !self.is_over(now) {
            return None;
        }
        let before = counted(self.untold);
        self.untold = 0;
        before
    }
}
