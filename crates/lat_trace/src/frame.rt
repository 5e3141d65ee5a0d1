//! A frame in a trace.

ghost use Rattle.std.specs.Prelude.{◌≡◌, ◌++◌, List, ℕ, OnOk, string_bytes};
ghost use Rattle.lat_machines.specs.values.Addresses.{address};
ghost use Rattle.lat_machines.specs.world.Machines.{Posted};
ghost use Rattle.lat_schedule.specs.declared.event.WorldEvent.{WorldEvent};
ghost use Rattle.lat_payload.specs.Frames.{expected};
ghost use Rattle.lat_wire.specs.ledger.Posts.{frame_shown};
ghost use Rattle.lat_schedule.specs.EventText.{letter};
ghost use Rattle.lat_trace.specs.Fates.{deliveries};
ghost use Rattle.lat_trace.specs.TraceText.{frame_text, sent_line, station_text};

use crate::fates::fate_onto;
use lat_base::{Addr, Memory};
use lat_print::indented_onto;
use lat_show::payload_onto;
use lat_text::address_onto;
use lat_wire::SentFrame;
use std::alloc::{AllocError, Global};

// The letter of an end.
fn letter(server: bool) -> &'static str
    ensures { result.now ≡ letter server }
{
    if server { "s" } else { "n" }
}

// Adds the twelve digits of a station.
fn station_onto(text: &mut String, station: Addr) -> Result<(), AllocError>
    ensures { OnOk result (string_bytes text.new
        ≡ string_bytes text.old ++ station_text (address station.0)) }
{
    address_onto(text, station)
}

// Adds the line of a frame: its number, who sent it, to whom, and its fate.
fn line_onto(
    text: &mut String,
    number: u64,
    by_server: bool,
    frame: &SentFrame<'_>,
    count: u32,
) -> Result<(), AllocError>
    ensures { OnOk result (string_bytes text.new
        ≡ string_bytes text.old
        ++ sent_line number by_server (station_text (address frame.now.to.0)) count) }
{
    let end = letter(by_server);
    write!(text, "  frame {number} {end} > ")?;
    station_onto(text, frame.to)?;
    text.push_str(" ")?;
    fate_onto(text, count)?;
    text.push_str("\n")
}

/// Adds what is printed of a frame: its line, and behind it what `lat show` prints of its payload, with a margin.
pub(crate) fn frame_onto(
    alloc: Global,
    text: &mut String,
    number: u64,
    by_server: bool,
    frame: &SentFrame<'_>,
    count: u32,
) -> Result<(), Memory>
    ensures { (events : List WorldEvent) (p : Posted) →
        count ≡ deliveries number events →
        by_server ≡ p.by_server → frame_shown frame.now ≡ expected p.frame →
        OnOk result (string_bytes text.new
        ≡ string_bytes text.old ++ frame_text events number p) }
{
    let mut printed = String::new(alloc);
    payload_onto(alloc, &mut printed, frame.payload)?;
    line_onto(text, number, by_server, frame, count)?;
    indented_onto(text, printed.as_str())?;
    Ok(())
}
