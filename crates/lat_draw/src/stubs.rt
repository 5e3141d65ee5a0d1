//! The frames that are drawn as stubs.

ghost use Rattle.std.specs.Prelude.{◌≡◌, ◌+◌, ◌<◌, ◌++◌, List, IfOk, OnOk, length, slice_get, Some, string_bytes};
ghost use Rattle.lat_machines.specs.world.Machines.{Posted, Machines};
ghost use Rattle.lat_schedule.specs.declared.event.WorldEvent.{WorldEvent};
ghost use Rattle.lat_trace.specs.Fates.{AreCounts};
ghost use Rattle.lat_trace.specs.Shown.{IsWithin, between};
ghost use Rattle.lat_wire.specs.Kept.{frame_count};
ghost use Rattle.lat_wire.specs.Stands.{Stands};
ghost use Rattle.lat_draw.specs.Events.{frame_short, stubs_drawn};
ghost use Rattle.lat_draw.specs.Layout.{height, staying};
ghost use Rattle.lat_draw.specs.Lines.{stub};

use crate::layout::{row_after, stays};
use crate::lines::stub_onto;
use crate::short::frame_words;
use lat_base::Memory;
use lat_node::RatingRule;
use lat_trace::{Entry, Fates};
use lat_wire::Wire;
use std::alloc::Global;

// Adds the stub of a frame, in this row.
fn frame_onto<H: RatingRule>(
    alloc: Global,
    text: &mut String,
    wire: &Wire<H>,
    lost: bool,
    row: u32,
    number: u64,
) -> Result<(), Memory>
    requires { number < frame_count wire.now }
    ensures { (w : Machines) → Stands wire.now w →
        OnOk result ((p : Posted) × (slice_get w.posts number ≡ Some p) × (string_bytes text.new
        ≡ string_bytes text.old ++ stub lost p.by_server (height row) (frame_short p))) }
{
    let Some((by_server, frame)) = wire.frame(number) else {
        unreachable!()
    };
    let words = frame_words(alloc, &frame)?;
    Ok(stub_onto(text, lost, by_server, row, words.as_str())?)
}

// Adds the stub of this frame in the row behind this one, if no event that is drawn delivers it. The last row that is taken.
fn next_onto<H: RatingRule>(
    alloc: Global,
    text: &mut String,
    wire: &Wire<H>,
    all: &Fates,
    drawn: &Fates,
    row: u32,
    number: u64,
) -> Result<u32, Memory>
    requires number { number < frame_count wire.now }
    requires all { length all.now ≡ frame_count wire.now }
    requires drawn { length drawn.now ≡ frame_count wire.now }
    ensures row { (played : List WorldEvent) → AreCounts drawn.now played →
        IfOk result (λ last. last ≡ row + staying played number 1) }
    ensures text { (w : Machines) (events played : List WorldEvent) → Stands wire.now w →
        AreCounts all.now events → AreCounts drawn.now played →
        OnOk result (string_bytes text.new
        ≡ string_bytes text.old ++ stubs_drawn events played (row + 1) number (between number (number + 1) w.posts)) }
{
    if !stays(drawn, number) {
        return Ok(row);
    }
    let next = row_after(row)?;
    frame_onto(alloc, text, wire, stays(all, number), next, number)?;
    Ok(next)
}

/// Adds the stubs of the frames that an event made and none delivers, each in a row of its own from this one on.
pub(crate) fn stubs_onto<H: RatingRule>(
    alloc: Global,
    text: &mut String,
    wire: &Wire<H>,
    all: &Fates,
    drawn: &Fates,
    row: u32,
    entry: &Entry,
) -> Result<(), Memory>
    requires within { IsWithin (frame_count wire.now) entry.now }
    requires all { length all.now ≡ frame_count wire.now }
    requires drawn { length drawn.now ≡ frame_count wire.now }
    ensures { (w : Machines) (events played : List WorldEvent) → Stands wire.now w →
        AreCounts all.now events → AreCounts drawn.now played →
        OnOk result (string_bytes text.new
        ≡ string_bytes text.old ++ stubs_drawn events played (row + 1) entry.now.first (between entry.now.first entry.now.behind w.posts)) }
{
    let mut row = row;
    for number in entry.first..entry.behind {
        let last = next_onto(alloc, text, wire, all, drawn, row, number)?;
        row = last;
    }
    Ok(())
}
