//! Room for what an event adds to the rows.

ghost use Rattle.std.specs.Prelude.{◌≡◌, ◌≤◌, ◌<◌, ◌+◌, ◌-◌, ◌^◌, length, IfOk, OnOk};
ghost use Rattle.lat_machines.specs.world.Machines.{Machines, core_of};
ghost use Rattle.lat_lines.specs.Events.{event_shown};
ghost use Rattle.lat_laws.specs.tales.Rows.{RowsAfter};
ghost use Rattle.lat_replay.specs.roster.Roster.{HasRows};
ghost use Rattle.lat_wire.specs.Kept.{setups_of};
ghost use Rattle.lat_wire.specs.Stands.{Stands};
ghost use Rattle.lat_wire.specs.Told.{answered};
ghost use Rattle.lat_replay.specs.roster.Reserved.{line_in, put_count, taken_count, FitsIn, HasPlaces};

use crate::roster::Roster;
use crate::roster::books::made;
use lat_base::{Event, Memory};
use lat_wire::{RatingRule, Wire};

/// Takes room for all that an event which isn't a frame may add to the rows, and gives how many sessions the end has had. The
/// rows stay. `Memory` where none is found, and where the number of sessions could pass the greatest number of 64 bits.
#[tactic(auto, using(crate::proofs::roster::Taking::room_less))]
pub fn reserve_for<H: RatingRule>(
    wire: &Wire<H>,
    server: bool,
    lines: u8,
    event: &Event,
    roster: &mut Roster,
) -> Result<u64, Memory>
    ensures same { (k : RowsAfter) → HasRows roster.old k → HasRows roster.new k }
    ensures places { OnOk result (HasPlaces lines roster.new) }
    ensures items { OnOk result ((w : Machines) →
        Stands wire.now w →
        FitsIn roster.new server event.now (answered (setups_of wire.now) w server (event_shown event.now))) }
    ensures before { IfOk result (λ before.
        (w : Machines) → Stands wire.now w → before ≡ length (core_of w server).seats) }
    ensures few { IfOk result (λ before. before + lines < 2 ^ 64 - 1) }
{
    let before = reserve_new(wire, server, lines, roster)?;
    let line = line_in(event);
    roster.reserve_items(
        server,
        line,
        put_most(event),
        taken_most(wire, server, event),
    )?;
    Ok(before)
}

/// Takes room for the sessions that a frame which an end hears may bring, and gives how many it has had. The rows stay.
/// `Memory` where none is found, and where the number of sessions could pass the greatest number of 64 bits.
pub fn reserve_new<H: RatingRule>(
    wire: &Wire<H>,
    server: bool,
    lines: u8,
    roster: &mut Roster,
) -> Result<u64, Memory>
    ensures same { (k : RowsAfter) → HasRows roster.old k → HasRows roster.new k }
    ensures places { OnOk result (HasPlaces lines roster.new) }
    ensures before { IfOk result (λ before.
        (w : Machines) → Stands wire.now w → before ≡ length (core_of w server).seats) }
    ensures few { IfOk result (λ before. before + lines < 2 ^ 64 - 1) }
{
    let before = made(wire, server);
    if before >= u64::MAX - u64::from(lines) {
        return Err(Memory);
    }
    roster.reserve(usize::from(lines))?;
    Ok(before)
}

// The line that an event puts on or takes from, 0 for none.
fn line_in(event: &Event) -> u8
    ensures { result ≡ line_in event.now }
{
    match event {
        Event::Put { line, .. } => *line,
        Event::Set { line, .. } => *line,
        Event::Take { line, .. } => *line,
        Event::Heard { .. }
        | Event::Time { .. }
        | Event::Connect { .. }
        | Event::Attend { .. }
        | Event::Close { .. }
        | Event::Request { .. }
        | Event::Cancel { .. }
        | Event::Announce
        | Event::Avoid { .. }
        | Event::Ready { .. }
        | Event::Halt => 0,
    }
}

// How many items an event puts at most.
fn put_most(event: &Event) -> usize
    ensures { result ≡ put_count event.now }
{
    match event {
        Event::Put { bytes, .. } => bytes.as_slice().len(),
        Event::Set { .. } => 1,
        Event::Heard { .. }
        | Event::Time { .. }
        | Event::Connect { .. }
        | Event::Take { .. }
        | Event::Attend { .. }
        | Event::Close { .. }
        | Event::Request { .. }
        | Event::Cancel { .. }
        | Event::Announce
        | Event::Avoid { .. }
        | Event::Ready { .. }
        | Event::Halt => 0,
    }
}

// How many items an event takes at most: those that it asks for, or all that wait.
#[tactic(auto, using(crate::proofs::roster::Taking::asked_most))]
fn taken_most<H: RatingRule>(wire: &Wire<H>, server: bool, event: &Event) -> usize
    ensures { (w : Machines) →
        Stands wire.now w →
        taken_count event.now (answered (setups_of wire.now) w server (event_shown event.now)) ≤ result }
{
    let waiting = wire.waiting(server, line_in(event));
    event.asked().min(usize::from(waiting))
}
