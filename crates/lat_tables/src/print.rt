//! The lines of tables as text.

ghost use Rattle.std.specs.Prelude.{◌≡◌, ◌++◌, OnOk, length, string_bytes};
ghost use Rattle.std.specs.List.{flat_map};
ghost use Rattle.lat_tables.specs.Tables.{blanks, gap, line_text, piece, set};

use crate::column::Side;
use crate::layout::Spot;
use crate::row::Row;
use lat_base::Memory;
use std::alloc::{AllocError, Global};

fn blanks_onto(text: &mut String, count: usize) -> Result<(), AllocError>
    ensures { OnOk result (string_bytes text.new ≡ string_bytes text.old ++ blanks count) }
{
    for _ in 0..count {
        text.push(' ')?;
    }
    Ok(())
}

fn gap_onto(text: &mut String, at: usize) -> Result<(), AllocError>
    ensures { OnOk result (string_bytes text.new ≡ string_bytes text.old ++ gap at) }
{
    if at == 0 {
        return Ok(());
    }
    text.push_str("  ")
}

// Adds a text at one side of so much room.
fn set_onto(text: &mut String, side: Side, room: usize, own: &str) -> Result<(), AllocError>
    ensures { OnOk result (string_bytes text.new ≡ string_bytes text.old ++ set side room own.now) }
{
    let count = room.saturating_sub(own.len());
    match side {
        Side::Left => {
            text.push_str(own)?;
            blanks_onto(text, count)
        }
        Side::Right => {
            blanks_onto(text, count)?;
            text.push_str(own)
        }
    }
}

fn piece_onto(alloc: Global, text: &mut String, row: &Row, spot: Spot) -> Result<(), Memory>
    ensures { OnOk result (string_bytes text.new ≡ string_bytes text.old ++ piece row.now spot) }
{
    let own = row.cell(spot.at).text(alloc)?;
    gap_onto(text, spot.at)?;
    set_onto(text, spot.side, spot.room, own.as_str())?;
    Ok(())
}

fn pieces_onto(alloc: Global, text: &mut String, row: &Row, spots: &[Spot]) -> Result<(), Memory>
    ensures { OnOk result (string_bytes text.new
        ≡ string_bytes text.old ++ flat_map (piece row.now) spots.now) }
{
    for spot in spots {
        piece_onto(alloc, text, row, *spot)?;
    }
    Ok(())
}

/// Adds a line, whose cells stand at these spots. After want of memory a part of it may stand in the text.
pub fn line_onto(alloc: Global, text: &mut String, spots: &[Spot], row: &Row) -> Result<(), Memory>
    ensures { OnOk result (string_bytes text.new
        ≡ string_bytes text.old ++ line_text spots.now row.now) }
{
    pieces_onto(alloc, text, row, spots)?;
    text.push_str("\n")?;
    Ok(())
}

/// Adds lines, whose cells stand at these spots. After want of memory a part of them may stand in the text.
pub fn lines_onto(
    alloc: Global,
    text: &mut String,
    spots: &[Spot],
    lines: &[Row],
) -> Result<(), Memory>
    ensures { OnOk result (string_bytes text.new
        ≡ string_bytes text.old ++ flat_map (line_text spots.now) lines.now) }
{
    for row in lines {
        line_onto(alloc, text, spots, row)?;
    }
    Ok(())
}
