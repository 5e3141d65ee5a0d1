//! The generator of a schedule, and its draws.

ghost use Rattle.std.specs.Prelude.{◌≡◌, ◌<◌, ◌≤◌, IfOk, length};
ghost use Rattle.lat_cmd.specs.generate.Draws.{next, below, line, bytes};

use lat_base::{Bytes, Memory};
use std::alloc::Global;

const FACTOR: u64 = 6_364_136_223_846_793_005;

const SUMMAND: u64 = 1_442_695_040_888_963_407;

/// What makes the events of a schedule, turn by turn.
#[derive(Clone, Copy)]
pub struct Generator {
    /// What the next draw goes on from.
    pub drawn: u64,
    /// The moment of the last time event, in milliseconds.
    pub moment: u64,
}

fn next(drawn: u64) -> u64
    ensures { result ≡ next drawn }
{
    drawn.wrapping_mul(FACTOR).wrapping_add(SUMMAND)
}

impl Generator {
    /// One that goes on from this number, at moment 0.
    pub fn new(seed: u64) -> Generator
        ensures { result ≡ record { drawn = seed; moment = 0 } }
    {
        Generator {
            drawn: seed,
            moment: 0,
        }
    }

    // Draws a number below `limit`.
    #[tactic(auto, unfolding(crate::specs::generate::Draws::below))]
    pub(crate) fn below(&mut self, limit: u64) -> u64
        requires { 0 < limit }
        ensures value { (result, self.new) ≡ below limit self.old }
        ensures less { result < limit }
        ensures moment { self.new.moment ≡ self.old.moment }
    {
        self.drawn = next(self.drawn);
        (self.drawn >> 33) % limit
    }

    // Draws a line, 1 to 8.
    #[tactic(auto, unfolding(crate::specs::generate::Draws::line))]
    pub(crate) fn line(&mut self) -> u8
        ensures value { (result, self.new) ≡ line self.old }
        ensures most { result ≤ 8 }
        ensures moment { self.new.moment ≡ self.old.moment }
    {
        1 + self.below(8) as u8
    }

    // Draws the number of bytes, 1 to `most`, and then these.
    pub(crate) fn bytes(&mut self, alloc: Global, most: u64) -> Result<Bytes, Memory>
        requires { (0 < most) × (most ≤ 4096) }
        ensures value { IfOk result (λ drawn. (drawn, self.new) ≡ bytes most self.old) }
        ensures some { IfOk result (λ drawn. 1 ≤ length drawn) }
        ensures most { IfOk result (λ drawn. length drawn ≤ most) }
        ensures moment { self.new.moment ≡ self.old.moment }
    {
        let count = 1 + self.below(most) as usize;
        let mut drawn = Vec::with_capacity(alloc, count)?;
        while drawn.len() < count {
            drawn.push(self.below(256) as u8)?;
        }
        Ok(Bytes::of(drawn))
    }
}
