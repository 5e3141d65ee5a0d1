//! The table of counters.

ghost use Rattle.std.specs.Prelude.{◌≡◌, ◌++◌, IfOk, OnOk, map};
ghost use Rattle.std.specs.List.{flat_map};
ghost use Rattle.lat_tables.specs.Counts.{bad_counts, counting, count_row, counters_table, counts, left_counts, records_counts};
ghost use Rattle.lat_tables.specs.FieldPlaces.{all_fields};

use crate::cell::Cell;
use crate::column::Column;
use crate::counter::Counter;
use crate::counters::Counters;
use crate::field_count::{FIELDS, field_place};
use crate::row::Row;
use crate::table::Table;
use lat_base::{Field, Memory};
use lat_log::Left;
use std::alloc::Global;

const COLUMNS: [Column; 2] = [Column::Counter, Column::Count];

/// A counter, and its number.
#[derive(Clone, Copy)]
pub struct Count {
    pub counter: Counter,
    pub number: u64,
}

fn counting(counter: Counter, number: u64) -> Count
    ensures { result ≡ counting counter number }
{
    Count { counter, number }
}

// What was counted and always has a row.
fn counts(c: &Counters) -> [Count; 16]
    ensures { result ≡ counts c.now }
{
    [
        counting(Counter::Events, c.events),
        counting(Counter::Heard, c.heard),
        counting(Counter::Sent, c.sent),
        counting(Counter::SentAgain, c.sent_again),
        counting(Counter::Stray, c.stray),
        counting(Counter::Foreign, c.foreign),
        counting(Counter::StartsRefused, c.starts_refused),
        counting(Counter::BytesPut, c.put),
        counting(Counter::ItemsTaken, c.taken),
        counting(Counter::SessionsClosed, c.closed),
        counting(Counter::SessionsCircuit, c.by_circuit),
        counting(Counter::SessionsUnseen, c.unseen),
        counting(Counter::RejectedService, c.no_service),
        counting(Counter::RejectedRequest, c.no_request),
        counting(Counter::RejectedRoom, c.no_room),
        counting(Counter::RejectedOther, c.rejected),
    ]
}

// Adds how many records of requests are left, where the core keeps requests.
fn records_onto(list: &mut Vec<Count>, records: Option<u32>) -> Result<(), Memory>
    ensures { OnOk result (list.new.items ≡ list.old.items ++ records_counts records) }
{
    if let Some(records) = records {
        list.push(counting(Counter::RecordsLeft, u64::from(records)))?;
    }
    Ok(())
}

// Adds what is left of what runs out.
fn left_onto(list: &mut Vec<Count>, left: Left) -> Result<(), Memory>
    ensures { OnOk result (list.new.items ≡ list.old.items ++ left_counts left) }
{
    list.push(counting(Counter::IdsLeft, u64::from(left.ids)))?;
    records_onto(list, left.records)
}

// Adds how many frames had this field as their first bad one, where there were any.
fn bad_onto(list: &mut Vec<Count>, c: &Counters, field: Field) -> Result<(), Memory>
    ensures { OnOk result (list.new.items ≡ list.old.items ++ bad_counts c.now field) }
{
    let number = c.bad[field_place(field)];
    if number != 0 {
        list.push(counting(Counter::Bad(field), number))?;
    }
    Ok(())
}

fn all_bad_onto(list: &mut Vec<Count>, c: &Counters, fields: &[Field]) -> Result<(), Memory>
    ensures { OnOk result (list.new.items ≡ list.old.items ++ flat_map (bad_counts c.now) fields.now) }
{
    for field in fields {
        bad_onto(list, c, *field)?;
    }
    Ok(())
}

// All counts that have a row.
fn all_counts(alloc: Global, c: &Counters, left: Left) -> Result<Vec<Count>, Memory>
    ensures { IfOk result (λ v. v.items ≡ counts c.now
        ++ (left_counts left ++ flat_map (bad_counts c.now) all_fields)) }
{
    let mut list = Vec::from_slice(alloc, &counts(c))?;
    left_onto(&mut list, left)?;
    all_bad_onto(&mut list, c, &FIELDS)?;
    Ok(list)
}

fn count_row(alloc: Global, count: Count) -> Result<Row, Memory>
    ensures { IfOk result (λ row. row ≡ count_row count) }
{
    Row::of(
        alloc,
        &[Cell::Counter(count.counter), Cell::Number(count.number)],
    )
}

fn rows_of(alloc: Global, counts: &[Count]) -> Result<Vec<Row>, Memory>
    ensures { IfOk result (λ v. v.items ≡ map count_row counts.now) }
{
    let mut list = Vec::with_capacity(alloc, counts.len())?;
    for count in counts {
        let row = count_row(alloc, *count)?;
        list.push(row)?;
    }
    Ok(list)
}

/// The table of counters: a row for each, behind them how much is left of what runs out, which the core tells (`Left`), and behind
/// that one for each field that a bad frame had. `Memory` where none is found.
pub fn counters_table(alloc: Global, counters: &Counters, left: Left) -> Result<Table, Memory>
    ensures { IfOk result (λ t. t ≡ counters_table counters.now left) }
{
    let counts = all_counts(alloc, counters, left)?;
    let rows = rows_of(alloc, counts.as_slice())?;
    Table::of(alloc, &COLUMNS, rows)
}
