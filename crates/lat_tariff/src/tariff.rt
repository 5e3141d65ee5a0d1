//! Tariffs: a rule of rating for each service.

ghost use Rattle.std.specs.Prelude.{◌≡◌, ◌<◌, ◌≤◌, length, slice_get, IfOk, IfSome};
ghost use Rattle.lat_tariff.specs.declared.tariff.Rule.{Rule};
ghost use Rattle.lat_tariff.specs.Tariffs.{IsTariff, names};
ghost use Rattle.lat_tariff.specs.Tariffs as tariffs;

use crate::steady::SteadyRule;
use lat_base::{Memory, Name};
use lat_queue::Services16;
use std::alloc::Global;
use std::marker::Model;

/// A service, and the rule by which it is rated. Where rules of several types are to stand in one tariff each is put into a
/// box, as `Box<dyn SteadyRule + Send>`.
pub struct Rule<R> {
    /// The service.
    pub name: Name,
    pub rule: R,
}

impl<R: Drop> Drop for Rule<R> {
    fn drop(self) {
        let Self { name, rule } = self;
    }
}

/// The rules of 1 to 32 services, no two with the same name. Contracts see their list. Once it is made it takes no memory.
pub struct Tariff<R> {
    pub(crate) rules: Vec<Rule<R>>,
}

impl<R: Drop> Drop for Tariff<R> {
    fn drop(self) {
        let Self { rules } = self;
    }
}

impl<R> Model for Tariff<R> {
    ghost use Rattle.std.specs.Prelude.{List};
    ghost use Rattle.lat_tariff.specs.declared.tariff.Rule.{Rule};
    ghost use Rattle.lat_tariff.specs.Tariffs.{IsTariff};

    ghost Value = { List (Rule R) };

    ghost view = { λ a. a.rules.items };

    ghost invariant = { λ a. IsTariff a.rules.items };
}

/// Whether no two of the rules are for the same service, without regard to case.
pub fn are_apart<R>(rules: &[Rule<R>]) -> bool
    ensures { result ≡ tariffs.are_apart rules.now }
{
    for i in 0..rules.len() {
        let (_, rest) = rules.split_at(i + 1);
        if is_named(&rules[i].name, rest) {
            return false;
        }
    }
    true
}

// Whether one of the rules is for the service.
fn is_named<R>(name: &Name, rules: &[Rule<R>]) -> bool
    ensures { result ≡ tariffs.is_named name.now rules.now }
{
    let folded = name.folded();
    rules.iter().any(|r| folded == r.name.folded())
}

impl<R: SteadyRule> Tariff<R> {
    /// The tariff of these rules: 1 to 32, no two of them for the same service (`are_apart`).
    pub fn make(rules: Vec<Rule<R>>) -> Tariff<R>
        requires tariff { IsTariff rules.items }
        ensures { result ≡ rules.items }
    {
        Tariff { rules }
    }

    /// How many rules it has.
    pub fn count(&self) -> usize
        ensures value { result ≡ length self.now }
        ensures most { (1 ≤ result) × (result ≤ 32) }
    {
        self.rules.len()
    }

    /// The service of the rule at this place, counted from 0. There must be one.
    pub fn name(&self, place: usize) -> Name
        requires { place < length self.now }
        ensures { IfSome (slice_get self.now place) (λ (r : Rule R). result ≡ r.name) }
    {
        self.rules[place].name
    }

    /// The services, in order. Takes memory.
    pub fn names(&self, alloc: Global) -> Result<Services16, Memory>
        ensures { IfOk result (λ ns. ns ≡ names self.now) }
    {
        let mut services = Services16::make(alloc);
        for rule in self.rules.as_slice() {
            services.push(&rule.name)?;
        }
        Ok(services)
    }
}
