//! The table of requests that wait.

ghost use Rattle.std.specs.Prelude.{◌≡◌, ◌+◌, ◌<◌, ◌++◌, IfOk, OnOk};
ghost use Rattle.lat_log.specs.Sights.{gathered, one};
ghost use Rattle.lat_tables.specs.Listings.{first_rows, queue_at, request_columns, names_same, queue_rows, request_row, requests_table, stood_before};

use crate::cell::Cell;
use crate::column::Column;
use crate::row::Row;
use crate::table::Table;
use lat_base::{Core, Memory, Name, WaiterLook};
use std::alloc::Global;

/// How many services are offered at most.
const OFFERS: usize = 256;

/// How many requests wait for a service at most.
const WAITERS: usize = 64;

const COLUMNS: [Column; 5] = [
    Column::Service,
    Column::Place,
    Column::Node,
    Column::Address,
    Column::Request,
];

fn request_row(
    alloc: Global,
    service: &Name,
    place: usize,
    waiter: &WaiterLook,
) -> Result<Row, Memory>
    ensures { IfOk result (λ row. row ≡ request_row service.now place waiter.now) }
{
    Row::of(
        alloc,
        &[
            Cell::Name(*service),
            Cell::Number(place as u64),
            Cell::Name(waiter.node),
            Cell::Address(waiter.from),
            Cell::Number(u64::from(waiter.request)),
        ],
    )
}

// Adds who waits for a service.
fn queue_onto<C: Core>(
    alloc: Global,
    list: &mut Vec<Row>,
    core: &C,
    service: &Name,
) -> Result<(), Memory>
    requires { C.valid core.now }
    ensures { (s : C.State) → C.stands core.now s → OnOk result (list.new.items
        ≡ list.old.items ++ queue_rows (C.waiter_of s) service.now) }
{
    for at in 0..WAITERS {
        let Some(waiter) = core.waiter(service, at) else {
            return Ok(());
        };
        let row = request_row(alloc, service, at + 1, &waiter)?;
        list.push(row)?;
    }
    Ok(())
}

fn names_same(other: Option<Name>, name: &Name) -> bool
    ensures { result ≡ names_same other name.now }
{
    match other {
        Some(other) => other.folded() == name.folded(),
        None => false,
    }
}

// Whether a service of this name is offered at this place.
fn stands_at<C: Core>(core: &C, name: &Name, at: usize) -> bool
    requires { C.valid core.now }
    ensures { (s : C.State) → C.stands core.now s →
        result ≡ names_same (C.offered_of s at) name.now }
{
    names_same(core.offered(at), name)
}

// Whether a service of this name is offered at a place below this one.
fn stood_before<C: Core>(core: &C, name: &Name, at: usize) -> bool
    requires { C.valid core.now }
    ensures { (s : C.State) → C.stands core.now s →
        result ≡ stood_before (C.offered_of s) name.now at }
{
    let mut place = at;
    while place > 0 {
        place -= 1;
        if stands_at(core, name, place) {
            return true;
        }
    }
    false
}

// Adds who waits for a service that is offered at this place, where it is offered at none before.
fn first_onto<C: Core>(
    alloc: Global,
    list: &mut Vec<Row>,
    core: &C,
    at: usize,
    service: &Name,
) -> Result<(), Memory>
    requires { C.valid core.now }
    ensures { (s : C.State) → C.stands core.now s → OnOk result (list.new.items
        ≡ list.old.items ++ first_rows (C.offered_of s) (C.waiter_of s) at service.now) }
{
    if stood_before(core, service, at) {
        return Ok(());
    }
    queue_onto(alloc, list, core, service)
}

// The rows of who waits for the services that are offered.
fn request_rows<C: Core>(alloc: Global, core: &C) -> Result<Vec<Row>, Memory>
    requires { C.valid core.now }
    ensures { (s : C.State) → C.stands core.now s → IfOk result (λ v.
        v.items ≡ gathered (queue_at (C.offered_of s) (C.waiter_of s)) 0 256) }
{
    let mut list = Vec::new(alloc);
    for at in 0..OFFERS {
        let Some(service) = core.offered(at) else {
            return Ok(list);
        };
        first_onto(alloc, &mut list, core, at, &service)?;
    }
    Ok(list)
}

/// The table of who waits for the services that are offered.
pub fn requests_table<C: Core>(alloc: Global, core: &C) -> Result<Table, Memory>
    requires { C.valid core.now }
    ensures { (s : C.State) → C.stands core.now s →
        IfOk result (λ t. t ≡ requests_table (C.offered_of s) (C.waiter_of s)) }
{
    Table::of(alloc, &COLUMNS, request_rows(alloc, core)?)
}
