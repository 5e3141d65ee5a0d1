//! The services, the offers and the events of a schedule: as many lines of each as there are.

ghost use Rattle.std.specs.Prelude.{◌≡◌, IfOk};
ghost use Rattle.lat_base.specs.Names.{IsName};
ghost use Rattle.lat_model.specs.Lists.{Each};
ghost use Rattle.lat_server.specs.Config.{AreOffers};
ghost use Rattle.lat_server.specs.declared.config.Offer.{Offer};
ghost use Rattle.lat_schedule.specs.Events.{IsEvent};
ghost use Rattle.lat_schedule.specs.Listed.{services_at, offers_at, events_at};
ghost use Rattle.lat_schedule.specs.Places.{place};

use crate::event::WorldEvents;
use crate::event_line::event_of;
use crate::line_numbers::LineNumbers;
use crate::numbers::saturated_number;
use crate::rest::Rest;
use crate::setup_line::{Version, offer_of, service_of};
use lat_base::{Addr, Memory};
use lat_queue::Services16;
use lat_server::Offers;
use lat_text::LineFault;
use std::alloc::Global;

/// The services that the node offers, and the lines behind theirs.
pub fn services_of(alloc: Global, at: Rest<'_>) -> Result<(Services16, Rest<'_>), Memory>
    ensures value { IfOk result (λ r. (r.0, place r.1) ≡ services_at (place at.entry)) }
    ensures names { IfOk result (λ r. Each IsName r.0) }
{
    let mut services = Services16::make(alloc);
    let mut rest = at;
    while let Ok(next) = rest.line() {
        let Some(service) = service_of(services.as_slice(), next.line) else {
            return Ok((services, rest));
        };
        services.push(&service)?;
        rest = next.behind;
    }
    Ok((services, rest))
}

/// The offers of a server that has so many lines, and the lines behind theirs.
pub fn offers_of(alloc: Global, lines: u8, at: Rest<'_>) -> Result<(Offers, Rest<'_>), Memory>
    ensures value { IfOk result (λ r. (r.0, place r.1) ≡ offers_at lines (place at.entry)) }
    ensures offers { IfOk result (λ r. AreOffers lines r.0) }
    ensures names { IfOk result (λ r. Each (λ (o : Offer). IsName o.service) r.0) }
{
    let mut offers = Offers::new(alloc);
    let mut rest = at;
    while let Ok(next) = rest.line() {
        let Some(offer) = offer_of(lines, offers.as_slice(), next.line) else {
            return Ok((offers, rest));
        };
        offers.push(offer)?;
        rest = next.behind;
    }
    Ok((offers, rest))
}

/// Events with the numbers of their lines.
#[derive(Drop)]
pub struct Listed {
    pub lines: LineNumbers,
    pub events: WorldEvents,
}

/// The events of a text of this version, and the lines behind theirs. Requests go to the server at this address.
pub fn events_of(
    alloc: Global,
    version: Version,
    to: Addr,
    at: Rest<'_>,
) -> Result<(Listed, Rest<'_>), Memory>
    ensures value { IfOk result (λ r. (r.0, place r.1) ≡ events_at version to (place at.entry)) }
    ensures events { IfOk result (λ r. Each (IsEvent to) r.0.events) }
{
    let mut lines = LineNumbers::new(alloc);
    let mut events = WorldEvents::new(alloc);
    let mut rest = at;
    while let Ok(next) = rest.line() {
        match event_of(alloc, version, to, next.line) {
            Ok(event) => events.push(event)?,
            Err(LineFault::Form) => return Ok((Listed { lines, events }, rest)),
            Err(LineFault::Memory) => return Err(Memory),
        }
        lines.push(saturated_number(next.number))?;
        rest = next.behind;
    }
    Ok((Listed { lines, events }, rest))
}
