//! Two steady rules of rating: one that falls as lines fill, and one that stays while a line is free.

ghost use Rattle.std.specs.Prelude.{◌≤◌};
ghost use Rattle.std.proofs.Common.{rules};
ghost use Rattle.lat_tariff.specs.Ratings.{twenty_per_free_line, while_free};

use crate::steady::SteadyRule;

/// Twenty for each line that is free, 255 at most.
#[derive(Drop)]
pub struct TwentyPerFreeLine;

impl SteadyRule for TwentyPerFreeLine {
    ghost may = { λ rule. twenty_per_free_line };

    ghost fact = { λ rule. Unit {0} };

    ghost full = { Prim.search rules };

    ghost steady = { Prim.search rules };

    fn rate(&self, used: u16, max: u16) -> u8 {
        (20 * u32::from(max - used)).min(255) as u8
    }
}

/// The same rating while a line is free.
#[derive(Drop)]
pub struct WhileFree {
    /// At least 1.
    pub rating: u8,
}

impl SteadyRule for WhileFree {
    ghost may = { λ rule. while_free rule.rating };

    ghost fact = { λ rule. 1 ≤ rule.rating };

    ghost full = { Prim.search rules };

    ghost steady = { Prim.search rules };

    fn rate(&self, used: u16, max: u16) -> u8 {
        if used < max { self.rating } else { 0 }
    }
}
