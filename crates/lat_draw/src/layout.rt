//! The rows of a picture.

ghost use Rattle.std.specs.Prelude.{◌≡◌, ◌+◌, ◌-◌, ◌<◌, ◌≤◌, List, IfOk, length, nat_lt};
ghost use Rattle.std.specs.List.{find};
ghost use Rattle.lat_model.specs.Lists.{Each};
ghost use Rattle.lat_schedule.specs.declared.event.WorldEvent.{WorldEvent};
ghost use Rattle.lat_trace.specs.Fates.{AreCounts};
ghost use Rattle.lat_trace.specs.Shown.{IsWithin};
ghost use Rattle.lat_draw.specs.Layout.{stays, staying};
ghost use Rattle.lat_draw.specs.Placed.{IsLayout, row_in};

use lat_base::Memory;
use lat_trace::{Entry, Fates};
use std::alloc::Global;

/// Where an event stands.
#[derive(Clone, Copy)]
pub(crate) struct Place {
    /// The first of its rows.
    pub(crate) row: u32,
    /// The number of the first frame that was made behind it.
    pub(crate) behind: u64,
}

/// The rows of all events.
#[derive(Drop)]
pub(crate) struct Layout {
    pub(crate) places: Vec<Place>,
    /// How many rows there are.
    pub(crate) rows: u32,
}

/// Whether no event delivers this frame. There must be one.
pub(crate) fn stays(fates: &Fates, frame: u64) -> bool
    requires { frame < length fates.now }
    ensures { (events : List WorldEvent) → AreCounts fates.now events → result ≡ stays events frame }
{
    fates.at(frame) == 0
}

// How many frames of an event aren't drawn to the other end.
fn staying(drawn: &Fates, entry: &Entry) -> u64
    requires { IsWithin (length drawn.now) entry.now }
    ensures { (events : List WorldEvent) → AreCounts drawn.now events →
        result ≡ staying events entry.now.first (entry.now.behind - entry.now.first) }
{
    let mut count = 0;
    for frame in entry.first..entry.behind {
        count += u64::from(stays(drawn, frame));
    }
    count
}

/// The row behind this one. There is no room for more than a number of 32 bits counts.
pub(crate) fn row_after(row: u32) -> Result<u32, Memory>
    ensures { IfOk result (λ next. next ≡ row + 1) }
{
    row.checked_add(1).ok_or(Memory)
}

// The row behind those of an event.
fn row_behind(row: u32, staying: u64) -> Result<u32, Memory>
    ensures { IfOk result (λ next. next ≡ row + (staying + 1)) }
{
    let rows = u32::try_from(staying).map_err(|_| Memory)?;
    let next = row_after(row)?;
    next.checked_add(rows).ok_or(Memory)
}

// The first place behind whose frames this one doesn't stand.
fn place_of(places: &[Place], frame: u64) -> Option<Place>
    ensures { result ≡ find (λ p. nat_lt frame p.behind) places.now }
{
    places.iter().find(|place| frame < place.behind).copied()
}

impl Layout {
    /// The rows of these entries, by the deliveries that are drawn.
    pub(crate) fn of(alloc: Global, drawn: &Fates, entries: &[Entry]) -> Result<Layout, Memory>
        requires { Each (IsWithin (length drawn.now)) entries.now }
        ensures layout { IfOk result (λ l. (events : List WorldEvent) → AreCounts drawn.now events →
            IsLayout events entries.now l) }
        ensures places { IfOk result (λ l. length l.places.items ≡ length entries.now) }
    {
        let mut places = Vec::new(alloc);
        let mut row = 0;
        for entry in entries {
            let place = Place {
                row,
                behind: entry.behind,
            };
            let next = row_behind(row, staying(drawn, entry))?;
            places.push(place)?;
            row = next;
        }
        Ok(Layout { places, rows: row })
    }

    /// The row of the event that made a frame.
    pub(crate) fn row_made(&self, frame: u64) -> u32
        ensures { result ≡ row_in frame self.now.rows self.now.places.items }
    {
        match place_of(&self.places, frame) {
            Some(place) => place.row,
            None => self.rows,
        }
    }
}
