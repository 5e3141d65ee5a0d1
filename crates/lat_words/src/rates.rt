//! How services are rated, by the words.

ghost use Rattle.std.specs.Prelude.{◌≡◌, map, ◌==◌};
ghost use Rattle.std.specs.List.{list_any};
ghost use Rattle.lat_words.specs.Rates.{said_rate, rate_at, tariff_rate, tariff_rates, rated_at, with_rate, said_rates, rates_in};
ghost use Rattle.lat_words.specs.declared.settings.Rated.{Rated};

use crate::config::Role;
use crate::fault::{Expected, OptionName, Wrong, wrong_at};
use crate::pieces::rate_of;
use crate::services::place_of;
use crate::settings::{Rate, Rated, SERVICES, Service, Settings};
use arrayvec::ArrayVec;

// Whether a rate of the service at this place is said.
fn is_rated(at: usize, rates: &[Rated]) -> bool
    ensures { result ≡ list_any (λ (r : Rated). r.place == at) rates.now }
{
    rates.iter().any(|r| r.place == at)
}

// The rates with one more, of the service at this place.
fn rated_at(
    place: usize,
    mut got: ArrayVec<Rated, SERVICES>,
    rate: Rate,
    at: Option<usize>,
) -> Result<ArrayVec<Rated, SERVICES>, Wrong>
    ensures { result ≡ rated_at place got rate at }
{
    let Some(at) = at else {
        return Err(wrong_at(OptionName::Rate, place, Expected::Offered));
    };
    if is_rated(at, got.as_slice()) {
        return Err(wrong_at(OptionName::Rate, place, Expected::OtherService));
    }
    if got.len() == SERVICES {
        return Err(wrong_at(OptionName::Rate, place, Expected::Most(32)));
    }
    got.push(Rated { place: at, rate });
    Ok(got)
}

// The rates with that of one more value.
fn with_rate(
    services: &[Service],
    place: usize,
    got: ArrayVec<Rated, SERVICES>,
    text: &str,
) -> Result<ArrayVec<Rated, SERVICES>, Wrong>
    ensures { result ≡ with_rate services.now place got text.now }
{
    match rate_of(text.as_bytes()) {
        Some((name, rate)) => rated_at(place, got, rate, place_of(&name, services)),
        None => Err(wrong_at(OptionName::Rate, place, Expected::Rate)),
    }
}

fn said_rates(services: &[Service], texts: &[&str]) -> Result<ArrayVec<Rated, SERVICES>, Wrong>
    ensures { result ≡ said_rates services.now (map (λ t. t.now) texts.now) }
{
    let mut got = ArrayVec::new();
    for i in 0..texts.len() {
        got = with_rate(services, i, got, texts[i])?;
    }
    Ok(got)
}

// What is said of the service at this place.
fn said_rate(rates: &[Rated], place: usize) -> Option<Rate>
    ensures { result ≡ said_rate rates.now place }
{
    for rated in rates {
        if rated.place == place {
            return Some(rated.rate);
        }
    }
    None
}

// The rate of a tariff's service, the usual one where none is said.
fn tariff_rate(said: &[Rated], place: usize, usual: Rate) -> Rated
    ensures { result ≡ tariff_rate said.now place usual }
{
    Rated {
        place,
        rate: said_rate(said, place).unwrap_or(usual),
    }
}

// The rates of both services of the tariff.
fn tariff_rates(said: &[Rated]) -> ArrayVec<Rated, SERVICES>
    ensures { result ≡ tariff_rates said.now }
{
    let mut rates = ArrayVec::new();
    rates.push(tariff_rate(said, 0, Rate::Each(20)));
    rates.push(tariff_rate(said, 1, Rate::WhileFree(9)));
    rates
}

pub(crate) fn rates_in(
    role: Role,
    services: &[Service],
    texts: &[&str],
) -> Result<ArrayVec<Rated, SERVICES>, Wrong>
    ensures { result ≡ rates_in role services.now (map (λ t. t.now) texts.now) }
{
    match role {
        Role::Server | Role::Switch => {
            if texts.is_empty() {
                Ok(ArrayVec::new())
            } else {
                Err(wrong_at(OptionName::Rate, 0, Expected::OtherRole))
            }
        }
        Role::Node => said_rates(services, texts),
        Role::Tariff => Ok(tariff_rates(said_rates(services, texts)?.as_slice())),
    }
}

impl Settings {
    /// How the service at this place, counted from 0, is rated: as the settings say, else by the lines that are free.
    pub fn rate(&self, place: usize) -> Rate
        ensures { result ≡ rate_at self.now place }
    {
        said_rate(self.seats.rates.as_slice(), place).unwrap_or(Rate::Free)
    }
}
