//! A trace in print.

ghost use Rattle.std.specs.Prelude.{◌≡◌, ◌≤◌, ◌++◌, List, OnOk, string_bytes, length};
ghost use Rattle.std.specs.List.{flat_map};
ghost use Rattle.lat_machines.specs.world.Machines.{Machines};
ghost use Rattle.lat_schedule.specs.declared.event.WorldEvent.{WorldEvent};
ghost use Rattle.lat_wire.specs.Kept.{frame_count};
ghost use Rattle.lat_wire.specs.Stands.{Stands};
ghost use Rattle.lat_trace.specs.Fates.{AreCounts};
ghost use Rattle.lat_trace.specs.Runs.{Run as IsRun};
ghost use Rattle.lat_trace.specs.Shown.{IsWithin, ShowsRun, between, shown, shown_from};
ghost use Rattle.lat_trace.specs.TraceText.{entry_text, frames_text, trace_text};

use crate::entry::Entry;
use crate::fates::Fates;
use crate::frame::frame_onto;
use crate::heading::heading_onto;
use crate::run::{Run, last_onto};
use lat_base::Memory;
use lat_node::RatingRule;
use lat_schedule::WorldEvent;
use lat_wire::Wire;
use std::alloc::Global;

// Adds what is printed of the frames that an event made.
fn frames_onto<H: RatingRule>(
    alloc: Global,
    text: &mut String,
    wire: &Wire<H>,
    fates: &Fates,
    entry: &Entry,
) -> Result<(), Memory>
    requires within { IsWithin (frame_count wire.now) entry.now }
    requires fates { frame_count wire.now ≤ length fates.now }
    ensures { (w : Machines) (events : List WorldEvent) → Stands wire.now w →
        AreCounts fates.now events →
        OnOk result (string_bytes text.new
        ≡ string_bytes text.old
        ++ frames_text events entry.now.first (between entry.now.first entry.now.behind w.posts)) }
{
    for number in entry.first..entry.behind {
        let Some((by_server, frame)) = wire.frame(number) else {
            unreachable!()
        };
        frame_onto(alloc, text, number, by_server, &frame, fates.at(number))?;
    }
    Ok(())
}

// Adds what is printed of the entry of this number.
fn entry_onto<H: RatingRule>(
    alloc: Global,
    text: &mut String,
    wire: &Wire<H>,
    fates: &Fates,
    number: usize,
    event: &WorldEvent,
    entry: &Entry,
) -> Result<(), Memory>
    requires within { IsWithin (frame_count wire.now) entry.now }
    requires fates { frame_count wire.now ≤ length fates.now }
    ensures { (w : Machines) (events : List WorldEvent) → Stands wire.now w →
        AreCounts fates.now events →
        OnOk result (string_bytes text.new
        ≡ string_bytes text.old ++ entry_text events (shown w.posts number event.now entry.now)) }
{
    heading_onto(alloc, text, number, event, entry)?;
    frames_onto(alloc, text, wire, fates, entry)
}

/// Adds the whole of a trace to a text.
pub(crate) fn trace_onto<H: RatingRule>(
    alloc: Global,
    text: &mut String,
    run: &Run<H>,
) -> Result<(), Memory>
    requires { (r : IsRun) × ShowsRun run.now r }
    ensures { (r : IsRun) → ShowsRun run.now r → OnOk result (string_bytes text.new
        ≡ string_bytes text.old ++ trace_text r) }
{
    let events = run.schedule.events.as_slice();
    let fates = Fates::of(alloc, run.wire.frames(), events)?;
    let entries = run.entries.as_slice();
    for (place, entry) in entries.iter().enumerate() {
        entry_onto(
            alloc,
            text,
            &run.wire,
            &fates,
            place + 1,
            &events[place],
            entry,
        )?;
    }
    Ok(last_onto(text, run.stop)?)
}
