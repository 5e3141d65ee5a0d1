//! How the services of a node are rated, by the words.

ghost use Rattle.std.specs.Prelude.{◌≡◌, ◌≤◌, length, IfOk};
ghost use Rattle.lat_words.specs.Within.{AreServices};
ghost use Rattle.lat_live.specs.Rated.{tariff_of};

use lat_base::Memory;
use lat_tariff::{Rule, SteadyRule, Tariff};
use lat_words::{Rate, Settings};
use std::alloc::Global;

/// A rate of the words, as a rule. A number of 0, which no words say, counts as 1.
#[derive(Drop)]
pub struct RateRule {
    pub rate: Rate,
}

impl SteadyRule for RateRule {
    ghost use Rattle.lat_live.specs.Rated.{MayRate};
    ghost use Rattle.lat_live.specs.Rating.{rated_full, rated_steady};

    ghost may = { MayRate };

    ghost fact = { λ rule. Unit {0} };

    ghost full = { λ rule known. rated_full rule.rate };

    ghost steady = { λ rule known. rated_steady rule.rate };

    fn rate(&self, used: u16, max: u16) -> u8 {
        let free = max - used;
        match self.rate {
            Rate::Free => free.min(255) as u8,
            Rate::Each(each) => (u32::from(each.max(1)) * u32::from(free)).min(255) as u8,
            Rate::WhileFree(rating) => { if used < max { rating.max(1) } else { 0 } }
        }
    }
}

/// The tariff of the words: each service with its rate, in their order. `Memory` where none is found.
pub fn tariff_of(alloc: Global, settings: &Settings) -> Result<Tariff<RateRule>, Memory>
    requires services { AreServices settings.now.seats.services.items }
    requires some { 1 ≤ length settings.now.seats.services.items }
    ensures { IfOk result (λ t. t ≡ tariff_of settings.now) }
{
    let services = settings.seats.services.as_slice();
    let mut rules = Vec::with_capacity(alloc, services.len())?;
    for service in services {
        let rate = settings.rate(rules.len());
        rules.push_reserved(Rule {
            name: service.name,
            rule: RateRule { rate },
        });
    }
    Ok(Tariff::make(rules))
}
