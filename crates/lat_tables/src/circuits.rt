//! The table of circuits.

ghost use Rattle.std.specs.Prelude.{◌≡◌, IfOk};
ghost use Rattle.lat_log.specs.Sights.{gathered, one};
ghost use Rattle.lat_tables.specs.Listings.{circuit_at, circuit_columns, circuit_row, circuits_table};

use crate::cell::Cell;
use crate::column::Column;
use crate::lines::some_number;
use crate::row::Row;
use crate::table::Table;
use lat_base::{CircuitLook, Core, Memory};
use std::alloc::Global;

/// How many circuits live at most.
const CIRCUITS: usize = 8;

const COLUMNS: [Column; 9] = [
    Column::Id,
    Column::PeerId,
    Column::Address,
    Column::Name,
    Column::Timer,
    Column::KeepAlive,
    Column::Sessions,
    Column::Unacknowledged,
    Column::Rounds,
];

fn circuit_row(alloc: Global, circuit: &CircuitLook) -> Result<Row, Memory>
    ensures { IfOk result (λ row. row ≡ circuit_row circuit.now) }
{
    Row::of(
        alloc,
        &[
            Cell::Number(u64::from(circuit.id)),
            some_number(u64::from(circuit.peer_id)),
            Cell::Address(circuit.peer),
            Cell::Name(circuit.name),
            Cell::Number(u64::from(circuit.timer) * 10),
            Cell::Number(u64::from(circuit.keep_alive)),
            Cell::Number(u64::from(circuit.held)),
            Cell::Number(u64::from(circuit.unacknowledged)),
            Cell::Number(u64::from(circuit.rounds)),
        ],
    )
}

// The rows of the circuits that live, by rising id.
fn circuit_rows<C: Core>(alloc: Global, core: &C) -> Result<Vec<Row>, Memory>
    requires { C.valid core.now }
    ensures { (s : C.State) → C.stands core.now s →
        IfOk result (λ v. v.items ≡ gathered (one (circuit_at (C.circuit_of s))) 0 8) }
{
    let mut list = Vec::with_capacity(alloc, CIRCUITS)?;
    for at in 0..CIRCUITS {
        let Some(circuit) = core.circuit(at) else {
            return Ok(list);
        };
        let row = circuit_row(alloc, &circuit)?;
        list.push(row)?;
    }
    Ok(list)
}

/// The table of the circuits that live, by rising id.
pub fn circuits_table<C: Core>(alloc: Global, core: &C) -> Result<Table, Memory>
    requires { C.valid core.now }
    ensures { (s : C.State) → C.stands core.now s →
        IfOk result (λ t. t ≡ circuits_table (C.circuit_of s)) }
{
    Table::of(alloc, &COLUMNS, circuit_rows(alloc, core)?)
}
