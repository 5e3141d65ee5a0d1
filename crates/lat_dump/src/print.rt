//! The whole of a file in print.

ghost use Rattle.std.specs.Prelude.{◌≡◌, ◌++◌, IfOk, OnOk, string_bytes};
ghost use Rattle.std.specs.List.{flat_map};
ghost use Rattle.lat_dump.specs.Printed.{frame_printed, others_printed, wrong_printed};
ghost use Rattle.lat_dump.specs.DumpOf.{dump_of};

use crate::frame::frame_onto;
use lat_base::Memory;
use lat_pcap::{Frame, Wrong, read};
use std::alloc::{AllocError, Global};

fn frames_onto(alloc: Global, text: &mut String, frames: &[Frame]) -> Result<(), Memory>
    ensures { OnOk result (string_bytes text.new
        ≡ string_bytes text.old ++ flat_map frame_printed frames.now) }
{
    for frame in frames {
        frame_onto(alloc, text, frame)?;
    }
    Ok(())
}

fn others_onto(text: &mut String, others: usize) -> Result<(), AllocError>
    ensures { OnOk result (string_bytes text.new ≡ string_bytes text.old ++ others_printed others) }
{
    write!(text, "others {others}\n")
}

fn wrong_onto(text: &mut String, wrong: Wrong) -> Result<(), AllocError>
    ensures { OnOk result (string_bytes text.new ≡ string_bytes text.old ++ wrong_printed wrong) }
{
    let (part, place) = (wrong.part.word(), wrong.at);
    write!(text, "bad {part} {place}\n")
}

/// What is printed of the bytes of a whole file, with the status: of each frame of the type 60-04 its moment, its two
/// stations and the text of its payload, in order, and how many other frames there are. The status is 0 where the bytes
/// are a file; else it is 2, and the first part that is wrong stands behind what is read in front of it. Takes memory for
/// the frames and the text; `Memory` where none is found.
pub fn dump(alloc: Global, input: &[u8]) -> Result<(u8, String), Memory>
    ensures { IfOk result (λ r. (r.0, string_bytes r.1) ≡ dump_of input.now) }
{
    let contents = read(alloc, input)?;
    let mut text = String::new(alloc);
    frames_onto(alloc, &mut text, contents.frames.as_slice())?;
    others_onto(&mut text, contents.others)?;
    match contents.wrong {
        None => Ok((0, text)),
        Some(wrong) => {
            wrong_onto(&mut text, wrong)?;
            Ok((2, text))
        }
    }
}
