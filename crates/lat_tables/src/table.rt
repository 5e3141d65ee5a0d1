//! Tables.

ghost use Rattle.std.specs.Prelude.{◌≡◌, IfOk, string_bytes};
ghost use Rattle.lat_tables.specs.Tables.{Sheet, table_text};

use crate::column::Column;
use crate::layout::spots_of;
use crate::print::{line_onto, lines_onto};
use crate::row::Row;
use lat_base::Memory;
use std::alloc::Global;
use std::marker::Model;

/// A table: its columns and its rows. Contracts see both.
#[derive(Drop)]
pub struct Table {
    columns: Vec<Column>,
    rows: Vec<Row>,
}

impl Model for Table {
    ghost use Rattle.lat_tables.specs.Tables.{Sheet};

    ghost Value = { Sheet };

    ghost view = { λ a. record { columns = a.columns.items; rows = a.rows.items } };
}

impl Table {
    /// The table of these columns and rows, for which it may take memory. `Memory` where none is found.
    pub fn of(alloc: Global, columns: &[Column], rows: Vec<Row>) -> Result<Table, Memory>
        ensures { IfOk result (λ table. table ≡ record { columns = columns.now; rows = rows.items }) }
    {
        Ok(Table {
            columns: Vec::from_slice(alloc, columns)?,
            rows,
        })
    }

    /// Its text: a line for the header and one for each row. `Memory` where none is found.
    pub fn text(&self, alloc: Global) -> Result<String, Memory>
        ensures { IfOk result (λ text. string_bytes text ≡ table_text self.now) }
    {
        let mut text = String::new(alloc);
        let columns = self.columns.as_slice();
        let rows = self.rows.as_slice();
        let header = Row::titles(alloc, columns)?;
        let spots = spots_of(alloc, columns, rows)?;
        line_onto(alloc, &mut text, spots.as_slice(), &header)?;
        lines_onto(alloc, &mut text, spots.as_slice(), rows)?;
        Ok(text)
    }
}
