//! The table of services.

ghost use Rattle.std.specs.Prelude.{◌≡◌, ◌++◌, IfOk, OnOk};
ghost use Rattle.lat_log.specs.Sights.{gathered, one};
ghost use Rattle.lat_tables.specs.Listings.{node_at, node_rows, service_columns, seconds_left, service_row, services_table};

use crate::cell::Cell;
use crate::column::Column;
use crate::row::Row;
use crate::table::Table;
use lat_base::{Core, Memory, NodeLook, ServiceLook};
use std::alloc::Global;

/// How many nodes are live at most.
const NODES: usize = 256;

const COLUMNS: [Column; 5] = [
    Column::Service,
    Column::Rating,
    Column::Node,
    Column::Address,
    Column::Expires,
];

// How many whole seconds are left.
fn seconds_left(until: u64, now: u64) -> u64
    ensures { result ≡ seconds_left until now }
{
    until.saturating_sub(now) / 1000
}

fn service_row(
    alloc: Global,
    now: u64,
    node: &NodeLook,
    service: &ServiceLook,
) -> Result<Row, Memory>
    ensures { IfOk result (λ row. row ≡ service_row now node.now service.now) }
{
    Row::of(
        alloc,
        &[
            Cell::Name(service.name),
            Cell::Number(u64::from(service.rating)),
            Cell::Name(node.name),
            Cell::Address(node.from),
            Cell::Number(seconds_left(node.until, now)),
        ],
    )
}

// Adds the services of a node, which stands at this place.
fn node_onto<C: Core>(
    alloc: Global,
    list: &mut Vec<Row>,
    core: &C,
    now: u64,
    place: usize,
    node: &NodeLook,
) -> Result<(), Memory>
    requires { C.valid core.now }
    ensures { (s : C.State) → C.stands core.now s → OnOk result (list.new.items
        ≡ list.old.items ++ node_rows now node.now (C.service_of s place)) }
{
    for at in 0..node.services {
        let Some(service) = core.service(place, at) else {
            return Ok(());
        };
        let row = service_row(alloc, now, node, &service)?;
        list.push(row)?;
    }
    Ok(())
}

// The rows of what the nodes that are live at this moment announced.
fn service_rows<C: Core>(alloc: Global, core: &C, now: u64) -> Result<Vec<Row>, Memory>
    requires { C.valid core.now }
    ensures { (s : C.State) → C.stands core.now s → IfOk result (λ v.
        v.items ≡ gathered (node_at now (C.node_of s) (C.service_of s)) 0 256) }
{
    let mut list = Vec::new(alloc);
    for at in 0..NODES {
        let Some(node) = core.node(at) else {
            return Ok(list);
        };
        node_onto(alloc, &mut list, core, now, at, &node)?;
    }
    Ok(list)
}

/// The table of what the nodes that are live announced.
pub fn services_table<C: Core>(alloc: Global, core: &C) -> Result<Table, Memory>
    requires { C.valid core.now }
    ensures { (s : C.State) → C.stands core.now s →
        IfOk result (λ t. t ≡ services_table (C.moment_of s) (C.node_of s) (C.service_of s)) }
{
    let now = core.moment();
    Table::of(alloc, &COLUMNS, service_rows(alloc, core, now)?)
}
