//! A frame in print.

ghost use Rattle.std.specs.Prelude.{◌≡◌, ◌++◌, ◌<◌, OnOk, string_bytes};
ghost use Rattle.lat_dump.specs.Printed.{moment_printed, heading, frame_printed};

use crate::indent::indented_onto;
use lat_base::{Addr, Memory};
use lat_pcap::Frame;
use lat_show::payload_onto;
use lat_text::address_onto;
use std::alloc::{AllocError, Global};

// Adds a moment: its seconds, and six digits behind the point.
fn moment_onto(text: &mut String, seconds: u32, micros: u32) -> Result<(), AllocError>
    ensures { OnOk result (string_bytes text.new
        ≡ string_bytes text.old ++ moment_printed seconds micros) }
{
    let (a, b, c) = (
        micros / 100_000 % 10,
        micros / 10_000 % 10,
        micros / 1_000 % 10,
    );
    let (d, e, f) = (micros / 100 % 10, micros / 10 % 10, micros % 10);
    write!(text, "{seconds}.{a}{b}{c}{d}{e}{f}")
}

// Adds the line of a frame: when it was captured, who sent it, and to whom.
fn heading_onto(text: &mut String, frame: &Frame) -> Result<(), AllocError>
    ensures { OnOk result (string_bytes text.new ≡ string_bytes text.old ++ heading frame.now) }
{
    moment_onto(text, frame.seconds, frame.nanos / 1_000)?;
    text.push_str(" ")?;
    address_onto(text, frame.from)?;
    text.push_str(" > ")?;
    address_onto(text, frame.to)?;
    text.push_str("\n")
}

/// Adds what is printed of a frame: its line, and behind it what is printed of its payload, with a margin. Takes memory
/// for both; after want of it a part of it may stand there.
#[tactic(auto, unfolding(crate::specs::Printed::frame_printed))]
pub(crate) fn frame_onto(alloc: Global, text: &mut String, frame: &Frame) -> Result<(), Memory>
    ensures { OnOk result (string_bytes text.new ≡ string_bytes text.old ++ frame_printed frame.now) }
{
    let mut printed = String::new(alloc);
    payload_onto(alloc, &mut printed, frame.payload.as_slice())?;
    heading_onto(text, frame)?;
    indented_onto(text, printed.as_str())?;
    Ok(())
}
