//! The offers, the services and the rates of an opening, and the events of a record: as many lines of each as there are.

ghost use Rattle.std.specs.Prelude.{◌≡◌, ◌≤◌, length, IfOk};
ghost use Rattle.lat_server.specs.Config.{AreOffers};
ghost use Rattle.lat_record.specs.Cursors.{place};
ghost use Rattle.lat_record.specs.RecordRead.{offers_at, services_at, rates_at, entries_at};

use crate::cursor::Cursor;
use crate::entry::Entries;
use crate::entry_line::entry_of;
use crate::opening::Rates;
use crate::opening_line::{offer_of, rate_of, service_of};
use lat_base::Memory;
use lat_queue::Services16;
use lat_server::Offers;
use lat_text::LineFault;
use std::alloc::Global;

/// The offers of a server that has so many lines, and the lines behind theirs.
pub fn offers_of(alloc: Global, lines: u8, at: Cursor<'_>) -> Result<(Offers, Cursor<'_>), Memory>
    ensures value { IfOk result (λ r. (r.0, place r.1) ≡ offers_at lines (place at.entry)) }
    ensures offers { IfOk result (λ r. AreOffers lines r.0) }
{
    let mut offers = Offers::new(alloc);
    let mut rest = at;
    while let Ok(next) = rest.line() {
        let Some(offer) = offer_of(lines, offers.as_slice(), next.line) else {
            return Ok((offers, rest));
        };
        offers.push(offer)?;
        rest = next.behind;
    }
    Ok((offers, rest))
}

/// The services that a node offers, and the lines behind theirs.
pub fn services_of(alloc: Global, at: Cursor<'_>) -> Result<(Services16, Cursor<'_>), Memory>
    ensures value { IfOk result (λ r. (r.0, place r.1) ≡ services_at (place at.entry)) }
{
    let mut services = Services16::make(alloc);
    let mut rest = at;
    while let Ok(next) = rest.line() {
        let Some(service) = service_of(services.len(), next.line) else {
            return Ok((services, rest));
        };
        services.push(&service)?;
        rest = next.behind;
    }
    Ok((services, rest))
}

/// Their rates, and the lines behind those.
pub fn rates_of(alloc: Global, at: Cursor<'_>) -> Result<(Rates, Cursor<'_>), Memory>
    ensures value { IfOk result (λ r. (r.0, place r.1) ≡ rates_at (place at.entry)) }
{
    let mut rates = Rates::new(alloc);
    let mut rest = at;
    while let Ok(next) = rest.line() {
        let Some(rate) = rate_of(next.line) else {
            return Ok((rates, rest));
        };
        rates.push(rate)?;
        rest = next.behind;
    }
    Ok((rates, rest))
}

/// The events with the words of their answers, and the lines behind theirs.
pub fn entries_of(alloc: Global, at: Cursor<'_>) -> Result<(Entries, Cursor<'_>), Memory>
    ensures value { IfOk result (λ r. (r.0, place r.1) ≡ entries_at (place at.entry)) }
    ensures count { IfOk result (λ r. length r.0 ≤ length at.entry.text.now) }
{
    let mut entries = Entries::new(alloc);
    let mut rest = at;
    while let Ok(next) = rest.line() {
        match entry_of(alloc, next.line) {
            Ok(entry) => entries.push(entry)?,
            Err(LineFault::Form) => return Ok((entries, rest)),
            Err(LineFault::Memory) => return Err(Memory),
        }
        rest = next.behind;
    }
    Ok((entries, rest))
}
