//! Why a pcap file is wrong.

ghost use Rattle.std.specs.Prelude.{◌≡◌, ◌++◌, OnOk, IfOk, drop, string_bytes};
ghost use Rattle.lat_explain.specs.FileExplained.{part_wanted, part_found, file_explained};

use crate::found::{behind, front};
use lat_pcap::{Part, Wrong};
use lat_text::hex_onto;
use std::alloc::{AllocError, Global};

fn part_wanted(part: Part) -> &'static str
    ensures { result.now ≡ part_wanted part }
{
    match part {
        Part::Header => "a header of 24 bytes",
        Part::Magic => "d4c3b2a1, 4d3cb2a1, a1b2c3d4 or a1b23c4d",
        Part::Version => "version 2.4",
        Part::LinkType => "link type 1, Ethernet",
        Part::RecordHeader => "a record's header of 16 bytes",
        Part::Fraction => "less than a second",
        Part::IncludedLength => "at most 262144 bytes",
        Part::Data => "all bytes of the record",
    }
}

fn part_found_onto(
    alloc: Global,
    text: &mut String,
    part: Part,
    bytes: &[u8],
) -> Result<(), AllocError>
    ensures { OnOk result (string_bytes text.new
        ≡ string_bytes text.old ++ part_found part bytes.now) }
{
    match part {
        Part::Header | Part::RecordHeader | Part::Data => text.push_str("the end of the file"),
        Part::Version => hex_onto(alloc, text, front(bytes, 2)),
        Part::Magic | Part::LinkType | Part::Fraction | Part::IncludedLength => {
            hex_onto(alloc, text, front(bytes, 4))
        }
    }
}

/// Why the bytes of a file are no pcap file, by the first wrong part: its place, what was expected and what stands there. Takes
/// memory for the text.
#[tactic(auto, unfolding(crate::specs::FileExplained::file_explained))]
pub fn file_explained(alloc: Global, bytes: &[u8], wrong: Wrong) -> Result<String, AllocError>
    ensures { IfOk result (λ told. string_bytes told ≡ file_explained bytes.now wrong) }
{
    let (at, wanted) = (wrong.at, part_wanted(wrong.part));
    let mut text = format!(in alloc; "lat: byte {at}: {wanted} expected, found ")?;
    part_found_onto(alloc, &mut text, wrong.part, behind(bytes, at))?;
    text.push_str("\n")?;
    Ok(text)
}
