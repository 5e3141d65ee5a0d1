//! Where the cells of a table stand.

ghost use Rattle.std.specs.Prelude.{◌≡◌, ◌<◌, Some, length, IfOk};
ghost use Rattle.lat_tables.specs.Tables.{room_of, spot_at, spots, titles, widest};

use crate::column::{Column, Side};
use crate::row::Row;
use lat_base::Memory;
use std::alloc::Global;

/// Where the cells of a column stand.
#[derive(Clone, Copy)]
pub struct Spot {
    /// The column's place, counted from 0 at the left.
    pub at: usize,
    pub side: Side,
    /// How many bytes there is room for. A cell that is longer has no blanks.
    pub room: usize,
}

// The width of the widest cell at a place, the title or one below it.
fn widest(alloc: Global, header: &Row, rows: &[Row], at: usize) -> Result<usize, Memory>
    ensures { IfOk result (λ n. n ≡ widest at header.now rows.now) }
{
    let mut most = header.width(alloc, at)?;
    for row in rows {
        most = most.max(row.width(alloc, at)?);
    }
    Ok(most)
}

fn room_of(side: Side, behind: usize, widest: usize) -> usize
    ensures { result ≡ room_of side behind widest }
{
    match side {
        Side::Left if behind == 0 => 0,
        _ => widest,
    }
}

// Where the cells of the column at this place stand.
fn spot_at(
    alloc: Global,
    columns: &[Column],
    rows: &[Row],
    header: &Row,
    at: usize,
) -> Result<Spot, Memory>
    requires place { at < length columns.now }
    requires header { header.now ≡ titles columns.now }
    ensures { IfOk result (λ spot. Some spot ≡ spot_at (record { columns = columns.now; rows = rows.now }) at) }
{
    let side = columns[at].side();
    let behind = columns.len() - (at + 1);
    let widest = widest(alloc, header, rows, at)?;
    Ok(Spot {
        at,
        side,
        room: room_of(side, behind, widest),
    })
}

/// Where the cells of these columns stand in these rows: each column is as wide as its widest cell.
pub fn spots_of(alloc: Global, columns: &[Column], rows: &[Row]) -> Result<Vec<Spot>, Memory>
    ensures { IfOk result (λ v. v.items ≡ spots (record { columns = columns.now; rows = rows.now })) }
{
    let count = columns.len();
    let header = Row::titles(alloc, columns)?;
    let mut list = Vec::with_capacity(alloc, count)?;
    for at in 0..count {
        let spot = spot_at(alloc, columns, rows, &header, at)?;
        list.push(spot)?;
    }
    Ok(list)
}
