//! What the lines of a daemon are for, by its words.

ghost use Rattle.std.specs.Prelude.{◌≡◌, ◌≤◌, ◌+◌, ◌-◌, [], ◌∷◌, ◌++◌, IfOk, OnOk, IfSome};
ghost use Rattle.std.specs.List.{list_any};
ghost use Rattle.lat_words.specs.Seats.{is_portless};
ghost use Rattle.lat_live.specs.Lines as lines;

use crate::plan::{LinePlan, Post};
use lat_base::{Memory, Name};
use lat_turns::{Device, Stay};
use lat_words::{Offer, Role, Seats, Service};
use std::alloc::{AllocError, Global};

// What a line offers, if anything.
fn offer_of(offers: &[Offer], line: u8) -> Option<Offer>
    ensures { result ≡ lines.offer_of offers.now line }
{
    offers.iter().find(|offer| offer.line == line).copied()
}

fn is_portless(service: &Service) -> bool
    ensures { result ≡ is_portless service.now }
{
    service.port.is_none()
}

fn has_portless(services: &[Service]) -> bool
    ensures { result ≡ list_any is_portless services.now }
{
    services.iter().any(|service| is_portless(service))
}

// The name of the first of these services.
fn first_name(services: &[Service]) -> Option<Name>
    ensures { result ≡ lines.first_name services.now }
{
    Some(services.first()?.name)
}

// What a line of a server is for.
fn server_post(services: &[Service], offer: Option<Offer>) -> Post
    ensures { result ≡ lines.server_post services.now offer }
{
    if let Some(Offer { name, port, .. }) = offer {
        return Post::Offering(Device {
            service: name,
            port,
        });
    }
    match first_name(services) {
        Some(service) => Post::Calling(service),
        None => Post::Answering,
    }
}

fn switch_post(services: &[Service]) -> Post
    ensures { result ≡ lines.switch_post services.now }
{
    match first_name(services) {
        Some(service) => Post::Switching(service),
        None => Post::Answering,
    }
}

// What the line of this number is for.
fn post_of(role: Role, seats: &Seats, line: u8) -> Post
    ensures { result ≡ lines.post_of role seats.now line }
{
    let services = seats.services.as_slice();
    match role {
        Role::Server => server_post(services, offer_of(seats.offers.as_slice(), line)),
        Role::Switch => switch_post(services),
        Role::Node | Role::Tariff => Post::Answering,
    }
}

// Whether somebody may come to a line.
fn is_open(services: &[Service], post: &Post) -> bool
    ensures { result ≡ lines.is_open services.now post.now }
{
    match post {
        Post::Calling(_) | Post::Switching(_) => true,
        Post::Answering => has_portless(services),
        Post::Offering(_) => false,
    }
}

// The port of a line that somebody may come to.
fn port_of(first: Option<u16>, line: u8, is_open: bool) -> Option<u16>
    requires { IfSome first (λ n. n + (line - 1) ≤ 65535) }
    ensures { result ≡ lines.port_of first line is_open }
{
    match first {
        Some(first) if is_open => Some(first + u16::from(line.saturating_sub(1))),
        _ => None,
    }
}

// A line with this post.
fn line_at(seats: &Seats, line: u8, post: Post) -> LinePlan
    requires { IfSome seats.now.line_port (λ n. n + (line - 1) ≤ 65535) }
    ensures { result ≡ lines.line_at seats.now line post }
{
    let is_open = is_open(seats.services.as_slice(), &post);
    LinePlan {
        post,
        port: port_of(seats.line_port, line, is_open),
    }
}

/// All lines, by rising number.
pub fn lines_of(alloc: Global, role: Role, seats: &Seats) -> Result<Vec<LinePlan>, AllocError>
    requires { IfSome seats.now.line_port (λ n. n + seats.now.lines ≤ 65536) }
    ensures { IfOk result (λ all. all.items ≡ lines.lines_of role seats.now) }
{
    let mut all = Vec::with_capacity(alloc, seats.lines as usize)?;
    for k in 0..seats.lines {
        let post = post_of(role, seats, k + 1);
        all.push_reserved(line_at(seats, k + 1, post));
    }
    Ok(all)
}

fn device_of(service: &Service) -> Option<Device>
    ensures { result ≡ lines.device_of service.now }
{
    let port = service.port?;
    Some(Device {
        service: service.name,
        port,
    })
}

// Adds the device of a service, if it has one.
fn push_device(all: &mut Vec<Device>, service: &Service) -> Result<(), AllocError>
    ensures { OnOk result (all.new.items ≡ all.old.items ++ lines.devices_of (service.now ∷ [])) }
{
    if let Some(device) = device_of(service) {
        all.push(device)?;
    }
    Ok(())
}

/// The devices of these services.
pub fn devices_of(alloc: Global, services: &[Service]) -> Result<Vec<Device>, AllocError>
    ensures { IfOk result (λ all. all.items ≡ lines.devices_of services.now) }
{
    let mut all = Vec::new(alloc);
    for service in services {
        push_device(&mut all, service)?;
    }
    Ok(all)
}

/// How long a line takes callers.
pub fn stay_of(once: bool) -> Stay
    ensures { result ≡ lines.stay_of once }
{
    if once { Stay::OneCaller } else { Stay::Always }
}
