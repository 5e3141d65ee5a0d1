//! What is offered, or what lines are connected to, by the words.

ghost use Rattle.std.specs.Prelude.{◌≡◌, ◌≤◌, ◌<◌, ◌+◌, Ok, map, length, IfOk, IfSome};
ghost use Rattle.lat_words.specs.Services.{place_of, is_named, offered_too, with_service, offered_in, called, called_in, tariff, services_in};
ghost use Rattle.lat_words.specs.Within.{AreServices, OffersSome};

use crate::config::Role;
use crate::fault::{Expected, OptionName, Wrong, wrong_at};
use crate::name_texts::named;
use crate::pieces::service_of;
use crate::settings::{SERVICES, Service};
use arrayvec::ArrayVec;
use lat_base::Name;

/// The place of the service with this name.
pub(crate) fn place_of(name: &Name, services: &[Service]) -> Option<usize>
    ensures value { result ≡ place_of name.now services.now }
    ensures within { IfSome result (λ at. at < length services.now) }
{
    let folded = name.folded();
    services.iter().position(|s| folded == s.name.folded())
}

// Whether one of the services has this name.
fn is_named(name: &Name, services: &[Service]) -> bool
    ensures { result ≡ is_named name.now services.now }
{
    let folded = name.folded();
    services.iter().any(|s| folded == s.name.folded())
}

// The services with one more.
fn offered_too(
    place: usize,
    mut got: ArrayVec<Service, SERVICES>,
    service: Service,
) -> Result<ArrayVec<Service, SERVICES>, Wrong>
    ensures value { result ≡ offered_too place got service }
    ensures services { AreServices got.items → IfOk result (λ r. AreServices r.items) }
    ensures more { IfOk result (λ r. length r.items ≡ length got.items + 1) }
{
    if is_named(&service.name, got.as_slice()) {
        return Err(wrong_at(OptionName::Service, place, Expected::OtherService));
    }
    if got.len() == SERVICES {
        return Err(wrong_at(OptionName::Service, place, Expected::Most(32)));
    }
    got.push(service);
    Ok(got)
}

// The services with that of one more value.
fn with_service(
    place: usize,
    got: ArrayVec<Service, SERVICES>,
    text: &str,
) -> Result<ArrayVec<Service, SERVICES>, Wrong>
    ensures value { result ≡ with_service place got text.now }
    ensures services { AreServices got.items → IfOk result (λ r. AreServices r.items) }
    ensures more { IfOk result (λ r. length r.items ≡ length got.items + 1) }
{
    match service_of(text.as_bytes()) {
        Some(service) => offered_too(place, got, service),
        None => Err(wrong_at(OptionName::Service, place, Expected::Service)),
    }
}

fn offered_in(texts: &[&str]) -> Result<ArrayVec<Service, SERVICES>, Wrong>
    ensures value { result ≡ offered_in (map (λ t. t.now) texts.now) }
    ensures services { IfOk result (λ r. AreServices r.items) }
    ensures some { IfOk result (λ r. 1 ≤ length r.items) }
{
    if texts.is_empty() {
        return Err(wrong_at(OptionName::Service, 0, Expected::Needed));
    }
    let mut got = ArrayVec::new();
    for i in 0..texts.len() {
        got = with_service(i, got, texts[i])?;
    }
    Ok(got)
}

// The list of one service, without a port.
fn called(name: Name) -> ArrayVec<Service, SERVICES>
    ensures value { Ok result ≡ called name }
    ensures services { AreServices result.items }
{
    let mut got = ArrayVec::new();
    got.push(Service { name, port: None });
    got
}

fn called_in(texts: &[&str]) -> Result<ArrayVec<Service, SERVICES>, Wrong>
    ensures value { result ≡ called_in (map (λ t. t.now) texts.now) }
    ensures services { IfOk result (λ r. AreServices r.items) }
{
    match texts {
        [] => Ok(ArrayVec::new()),
        [text] => match named(text.as_bytes()) {
            Some(name) => Ok(called(name)),
            None => Err(wrong_at(OptionName::Service, 0, Expected::Name)),
        },
        _ => Err(wrong_at(OptionName::Service, 1, Expected::One)),
    }
}

// The services of the tariff.
fn tariff() -> ArrayVec<Service, SERVICES>
    ensures value { result ≡ tariff }
    ensures services { AreServices result.items }
{
    match (Name::read(b"LOGIN"), Name::read(b"PRINT")) {
        (Ok(login), Ok(print)) => {
            let mut got = called(login);
            got.push(Service {
                name: print,
                port: None,
            });
            got
        }
        _ => unreachable!(),
    }
}

pub(crate) fn services_in(role: Role, texts: &[&str]) -> Result<ArrayVec<Service, SERVICES>, Wrong>
    ensures value { result ≡ services_in role (map (λ t. t.now) texts.now) }
    ensures services { IfOk result (λ r. AreServices r.items) }
    ensures some { IfOk result (λ r. OffersSome role (length r.items)) }
{
    match role {
        Role::Server | Role::Switch => called_in(texts),
        Role::Node => offered_in(texts),
        Role::Tariff => {
            called_in(texts)?;
            Ok(tariff())
        }
    }
}
