//! What holds of the ratings of a node with a tariff, as contracts of functions that take nothing.

ghost use Rattle.lat_tariff.specs.Laws.{OwnRulesRate, OwnRatingsTellFullness, MoreHeldRatesNoHigher};

use crate::steady::SteadyRule;
use crate::tariff::Tariff;
use lat_node::{NodeCore, RatingRule};

/// Of a node whose rule is a tariff, and whose services are the tariff's: each rating of an announcement or a response is an
/// answer of the service's own rule at the lines then held.
pub fn own_rules_rate<R: SteadyRule>()
    ensures { OwnRulesRate R.may ⟦<Tariff<R> as RatingRule>⟧.may }
{}

/// Each such rating is 0 exactly where all lines were held when it was made, whatever the rules.
pub fn own_ratings_tell_fullness<R: SteadyRule>()
    ensures { OwnRatingsTellFullness R.may R.fact }
{}

/// Of two announcements of one tariff, that with more lines held has no higher rating for any service.
pub fn more_held_rates_no_higher<R: SteadyRule>()
    ensures { MoreHeldRatesNoHigher R.may R.fact }
{}

/// A node with a tariff may go to another thread where its rules may.
pub fn is_send<R: SteadyRule + Send>() {
    sent::<NodeCore<Tariff<R>>>();
}

// It may be called where values of the type may go to another thread.
fn sent<T: Send>() {}
