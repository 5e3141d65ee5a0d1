//! What the lines are for, by the words.

ghost use Rattle.std.specs.Prelude.{◌≡◌, ◌≤◌, ◌-◌, true, is_some, map, length, IfOk, IfSome};
ghost use Rattle.std.specs.List.{list_any};
ghost use Rattle.clap.specs.Words.{rows_of, found_of};
ghost use Rattle.lat_words.specs.Values as values;
ghost use Rattle.lat_words.specs.declared.fault.OptionName.TheVariants as options;
ghost use Rattle.lat_words.specs.Seats.{some_call, calls, is_portless, listens, port_there, service_there, seats_in};
ghost use Rattle.lat_words.specs.Within.{IsSeats};

use crate::command_line::values_of;
use crate::config::Role;
use crate::fault::{Expected, OptionName, Wrong, wrong_at};
use crate::groups::groups_in;
use crate::offers::{is_offering, offers_in};
use crate::rates::rates_in;
use crate::roles::most_lines;
use crate::services::services_in;
use crate::settings::{Offer, SERVICES, Seats, Service};
use crate::values::{number_if, number_or};
use arrayvec::ArrayVec;
use clap::ArgMatches;

// Whether the next connection to the line's port is taken for it.
fn is_portless(service: &Service) -> bool
    ensures { result ≡ is_portless service.now }
{
    match service.port {
        Some(_) => false,
        None => true,
    }
}

fn is_any_portless(services: &[Service]) -> bool
    ensures { result ≡ list_any is_portless services.now }
{
    services.iter().any(|s| is_portless(s))
}

// Whether one of so many lines offers nothing.
fn is_any_calling(lines: u8, offers: &[Offer]) -> bool
    ensures { result ≡ some_call lines offers.now }
{
    for line in 1..=lines {
        if !is_offering(line, offers) {
            return true;
        }
    }
    false
}

// Whether a line calls.
fn calls(role: Role, lines: u8, offers: &[Offer]) -> bool
    ensures { result ≡ calls role lines offers.now }
{
    match role {
        Role::Server => is_any_calling(lines, offers),
        Role::Switch => true,
        Role::Node | Role::Tariff => false,
    }
}

// Whether a line listens.
fn listens(role: Role, lines: u8, services: &[Service], offers: &[Offer]) -> bool
    ensures { result ≡ listens role lines services.now offers.now }
{
    match role {
        Role::Server => is_any_calling(lines, offers),
        Role::Switch => true,
        Role::Node | Role::Tariff => is_any_portless(services),
    }
}

fn port_there(needed: bool, said: Option<u16>) -> Result<Option<u16>, Wrong>
    ensures value { result ≡ port_there needed said }
    ensures kept { IfOk result (λ r. r ≡ said) }
    ensures there { IfOk result (λ r. needed ≡ true → is_some r ≡ true) }
{
    if needed && said.is_none() {
        return Err(wrong_at(OptionName::LinePort, 0, Expected::Needed));
    }
    Ok(said)
}

fn service_there(
    needed: bool,
    services: ArrayVec<Service, SERVICES>,
) -> Result<ArrayVec<Service, SERVICES>, Wrong>
    ensures value { result ≡ service_there needed services }
    ensures kept { IfOk result (λ r. r ≡ services) }
    ensures there { IfOk result (λ r. needed ≡ true → 1 ≤ length r.items) }
{
    if needed && services.is_empty() {
        return Err(wrong_at(OptionName::Service, 0, Expected::Needed));
    }
    Ok(services)
}

// The port that is said of the first of so many lines.
fn line_port_of(lines: u8, texts: &[&str]) -> Result<Option<u16>, Wrong>
    requires { (1 ≤ lines) × (lines ≤ 64) }
    ensures value { result ≡ values.number_if options.LinePort 1 (65536 - lines) (map (λ t. t.now) texts.now) }
    ensures within { IfOk result (λ r. IfSome r (λ port. (1 ≤ port) × (port ≤ 65536 - lines))) }
{
    match number_if(OptionName::LinePort, 1, 65_536 - u64::from(lines), texts)? {
        Some(port) => Ok(Some(port as u16)),
        None => Ok(None),
    }
}

pub(crate) fn seats_in(role: Role, found: &ArgMatches<'_>) -> Result<Seats, Wrong>
    ensures value { result ≡ seats_in role (rows_of (found_of found.now)) }
    ensures within { IfOk result (λ seats. IsSeats role seats) }
{
    let most = most_lines(role);
    let lines = number_or(
        OptionName::Lines,
        1,
        most,
        1,
        values_of(found, OptionName::Lines),
    )? as u8;
    let said = line_port_of(lines, values_of(found, OptionName::LinePort))?;
    let services = services_in(role, values_of(found, OptionName::Service))?;
    let rates = rates_in(
        role,
        services.as_slice(),
        values_of(found, OptionName::Rate),
    )?;
    let offers = offers_in(role, lines, values_of(found, OptionName::Offer))?;
    let listening = listens(role, lines, services.as_slice(), offers.as_slice());
    let line_port = port_there(listening, said)?;
    let services = service_there(calls(role, lines, offers.as_slice()), services)?;
    let groups = groups_in(values_of(found, OptionName::Groups))?;
    Ok(Seats {
        lines,
        line_port,
        services,
        rates,
        offers,
        groups,
    })
}
