//! The rows of tables.

ghost use Rattle.std.specs.Prelude.{◌≡◌, IfOk, length, map};
ghost use Rattle.lat_tables.specs.Tables.{cell_at, titles, width};

use crate::cell::Cell;
use crate::column::Column;
use lat_base::Memory;
use std::alloc::Global;
use std::marker::Model;

/// A row of a table: its cells, from the left. Contracts see the list.
#[derive(Drop)]
pub struct Row {
    cells: Vec<Cell>,
}

impl Model for Row {
    ghost use Rattle.std.specs.Prelude.{List};
    ghost use Rattle.lat_tables.specs.declared.cell.Cell.{Cell};

    ghost Value = { List Cell };

    ghost view = { λ a. a.cells.items };
}

impl Row {
    /// The row of these cells, for which it takes memory. `Memory` where none is found.
    pub fn of(alloc: Global, cells: &[Cell]) -> Result<Row, Memory>
        ensures { IfOk result (λ row. row ≡ cells.now) }
    {
        Ok(Row {
            cells: Vec::from_slice(alloc, cells)?,
        })
    }

    /// The header of a table of these columns.
    pub fn titles(alloc: Global, columns: &[Column]) -> Result<Row, Memory>
        ensures { IfOk result (λ row. row ≡ titles columns.now) }
    {
        let mut cells = Vec::with_capacity(alloc, columns.len())?;
        for column in columns {
            cells.push(Cell::Title(*column))?;
        }
        Ok(Row { cells })
    }

    /// Its cell at this place, counted from 0.
    pub fn cell(&self, at: usize) -> Cell
        ensures { result ≡ cell_at self.now at }
    {
        match self.cells.get(at) {
            Some(cell) => *cell,
            None => Cell::Absent,
        }
    }

    /// How wide its cell at this place is, in bytes.
    pub fn width(&self, alloc: Global, at: usize) -> Result<usize, Memory>
        ensures { IfOk result (λ n. n ≡ width at self.now) }
    {
        Ok(self.cell(at).text(alloc)?.len())
    }
}
