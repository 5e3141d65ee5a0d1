//! A tariff as a node's rule of rating.

use crate::steady::SteadyRule;
use crate::tariff::Tariff;
use lat_node::RatingRule;

/// The rule at the place of the service; behind the last rule, the last one. So a node whose services are those of the tariff,
/// in its order (`Tariff::names`), rates each by its own rule.
impl<R: SteadyRule> RatingRule for Tariff<R> {
    ghost use Rattle.lat_tariff.specs.Full.{full_at};
    ghost use Rattle.lat_tariff.specs.Tariffs.{MayAt, AreKnown};

    ghost may = { MayAt R.may };

    ghost fact = { AreKnown R.fact };

    ghost full = { full_at R.may R.fact R.full };

    fn rate(&self, place: usize, used: u16, max: u16) -> u8 {
        let last = self.rules.len() - 1;
        self.rules[place.min(last)].rule.rate(used, max)
    }
}
