//! The table of lines.

ghost use Rattle.std.specs.Prelude.{◌≡◌, IfOk};
ghost use Rattle.lat_log.specs.Sights.{gathered, one};
ghost use Rattle.lat_tables.specs.Listings.{ended_cell, line_at, line_columns, line_row, lines_table, peer_cell, service_cell, some_number};

use crate::cell::Cell;
use crate::column::Column;
use crate::row::Row;
use crate::table::Table;
use lat_base::{Core, Correspondent, LineLook, Memory, SessionEnd};
use std::alloc::Global;

const COLUMNS: [Column; 7] = [
    Column::Line,
    Column::State,
    Column::Session,
    Column::Service,
    Column::Peer,
    Column::Waiting,
    Column::Ended,
];

/// A number that is none where it is 0.
pub fn some_number(number: u64) -> Cell
    ensures { result ≡ some_number number }
{
    if number == 0 {
        Cell::Absent
    } else {
        Cell::Number(number)
    }
}

fn service_cell(with: &Option<Correspondent>) -> Cell
    ensures { result ≡ service_cell with.now }
{
    match with {
        Some(with) => Cell::Name(with.service),
        None => Cell::Absent,
    }
}

fn peer_cell(with: &Option<Correspondent>) -> Cell
    ensures { result ≡ peer_cell with.now }
{
    match with {
        Some(with) => Cell::Address(with.peer),
        None => Cell::Absent,
    }
}

fn ended_cell(end: Option<SessionEnd>) -> Cell
    ensures { result ≡ ended_cell end }
{
    match end {
        Some(end) => Cell::Ended(end),
        None => Cell::Absent,
    }
}

fn line_row(
    alloc: Global,
    line: u8,
    look: &LineLook,
    with: &Option<Correspondent>,
) -> Result<Row, Memory>
    ensures { IfOk result (λ row. row ≡ line_row line look.now with.now) }
{
    Row::of(
        alloc,
        &[
            Cell::Number(u64::from(line)),
            Cell::State(look.state),
            some_number(look.newest),
            service_cell(with),
            peer_cell(with),
            Cell::Number(u64::from(look.waiting)),
            ended_cell(look.end),
        ],
    )
}

// The rows of the lines from 1 on, so many.
fn line_rows<C: Core>(alloc: Global, core: &C, count: u8) -> Result<Vec<Row>, Memory>
    requires { C.valid core.now }
    ensures { (s : C.State) → C.stands core.now s → IfOk result (λ v.
        v.items ≡ gathered (one (line_at (C.look_of s) (C.correspondent_of s))) 0 count) }
{
    let mut list = Vec::with_capacity(alloc, usize::from(count))?;
    for at in 0..count {
        let line = at + 1;
        let look = core.look(line);
        let with = core.correspondent(line);
        let row = line_row(alloc, line, &look, &with)?;
        list.push(row)?;
    }
    Ok(list)
}

/// The table of the lines from 1 on, so many.
pub fn lines_table<C: Core>(alloc: Global, core: &C, count: u8) -> Result<Table, Memory>
    requires { C.valid core.now }
    ensures { (s : C.State) → C.stands core.now s →
        IfOk result (λ t. t ≡ lines_table (C.look_of s) (C.correspondent_of s) count) }
{
    Table::of(alloc, &COLUMNS, line_rows(alloc, core, count)?)
}
