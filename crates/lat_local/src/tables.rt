//! The tables of services and sessions.

ghost use Rattle.std.specs.Prelude.{◌≡◌, ◌+◌, ◌-◌, ◌++◌, ◌≤◌, OnOk, IfOk, codes, decimal, drop, fold, length, map, replicate, string_bytes, take};
ghost use Rattle.std.specs.List.{flat_map};
ghost use Rattle.lat_text.specs.NameText.{name_text};
ghost use Rattle.lat_local.specs.Tables.{padded, service_row, services_below, services_header, services_text, session_back, session_front, session_row, sessions_below, sessions_header, sessions_text, service_wider, session_wider, node_wider, state_word, wider};

use lat_base::{Name, SessionState};
use lat_text::name_onto;
use std::alloc::{AllocError, Global};

/// A service that a node offers.
#[derive(Clone, Copy)]
pub struct ServiceRow {
    /// Its name.
    pub service: Name,
    /// How well the node can take a session, 0 where it can't.
    pub rating: u8,
    /// The name of the node.
    pub node: Name,
}

/// A session of a line.
#[derive(Clone, Copy)]
pub struct SessionRow {
    /// Its place among those of the line, counted from 1.
    pub number: u8,
    /// The service that was asked for.
    pub service: Name,
    /// The name of the node.
    pub node: Name,
    /// Its state.
    pub state: SessionState,
}

fn blanks_onto(text: &mut String, count: usize) -> Result<(), AllocError>
    ensures { OnOk result (string_bytes text.new ≡ string_bytes text.old ++ replicate count 32) }
{
    for _ in 0..count {
        text.push(' ')?;
    }
    Ok(())
}

fn cell_onto(text: &mut String, cell: &str, width: usize) -> Result<(), AllocError>
    ensures { OnOk result (string_bytes text.new ≡ string_bytes text.old ++ padded width cell.now) }
{
    text.push_str(cell)?;
    blanks_onto(text, width.saturating_sub(cell.len()))
}

// A name in print.
fn printed(alloc: Global, name: &Name) -> Result<String, AllocError>
    ensures { IfOk result (λ t. string_bytes t ≡ name_text name.now) }
{
    let mut cell = String::new(alloc);
    name_onto(&mut cell, name)?;
    Ok(cell)
}

fn name_cell_onto(
    text: &mut String,
    alloc: Global,
    name: &Name,
    width: usize,
) -> Result<(), AllocError>
    ensures { OnOk result (string_bytes text.new ≡ string_bytes text.old ++ padded width (name_text name.now)) }
{
    let cell = printed(alloc, name)?;
    cell_onto(text, cell.as_str(), width)
}

fn number_cell_onto(
    text: &mut String,
    alloc: Global,
    number: u8,
    width: usize,
) -> Result<(), AllocError>
    ensures { OnOk result (string_bytes text.new ≡ string_bytes text.old ++ padded width (decimal number)) }
{
    let cell = format!(in alloc; "{number}")?;
    cell_onto(text, cell.as_str(), width)
}

fn wider(alloc: Global, width: usize, name: &Name) -> Result<usize, AllocError>
    ensures { IfOk result (λ n. n ≡ wider width name.now) }
{
    let cell = printed(alloc, name)?;
    Ok(width.max(cell.len()))
}

fn service_width(alloc: Global, rows: &[ServiceRow]) -> Result<usize, AllocError>
    ensures { IfOk result (λ n. n ≡ fold service_wider 7 rows.now) }
{
    let mut width = 7;
    for row in rows {
        width = wider(alloc, width, &row.service)?;
    }
    Ok(width)
}

fn service_row_onto(
    text: &mut String,
    alloc: Global,
    row: &ServiceRow,
    width: usize,
) -> Result<(), AllocError>
    ensures { OnOk result (string_bytes text.new ≡ string_bytes text.old ++ service_row width row.now) }
{
    name_cell_onto(text, alloc, &row.service, width)?;
    text.push_str("  ")?;
    number_cell_onto(text, alloc, row.rating, 6)?;
    text.push_str("  ")?;
    name_onto(text, &row.node)?;
    text.push_str("\r\n")
}

fn service_rows_onto(
    text: &mut String,
    alloc: Global,
    rows: &[ServiceRow],
    width: usize,
) -> Result<(), AllocError>
    ensures { OnOk result (string_bytes text.new ≡ string_bytes text.old ++ flat_map (service_row width) rows.now) }
{
    for row in rows {
        service_row_onto(text, alloc, row, width)?;
    }
    Ok(())
}

fn services_header_onto(text: &mut String, width: usize) -> Result<(), AllocError>
    ensures { OnOk result (string_bytes text.new ≡ string_bytes text.old ++ services_header width) }
{
    cell_onto(text, "service", width)?;
    text.push_str("  rating")?;
    text.push_str("  node\r\n")
}

/// Adds the table of services.
pub(crate) fn services_onto(
    text: &mut String,
    alloc: Global,
    rows: &[ServiceRow],
) -> Result<(), AllocError>
    ensures { OnOk result (string_bytes text.new ≡ string_bytes text.old ++ services_text rows.now) }
{
    let width = service_width(alloc, rows)?;
    services_header_onto(text, width)?;
    service_rows_onto(text, alloc, rows, width)
}

fn state_word(state: SessionState) -> &'static str
    ensures { result.now ≡ state_word state }
{
    match state {
        SessionState::Free => "free",
        SessionState::Calling => "calling",
        SessionState::Asked => "asked",
        SessionState::Live => "live",
        SessionState::Closing => "closing",
        SessionState::Left => "left",
    }
}

fn session_width(alloc: Global, rows: &[SessionRow]) -> Result<usize, AllocError>
    ensures { IfOk result (λ n. n ≡ fold session_wider 7 rows.now) }
{
    let mut width = 7;
    for row in rows {
        width = wider(alloc, width, &row.service)?;
    }
    Ok(width)
}

fn node_width(alloc: Global, rows: &[SessionRow]) -> Result<usize, AllocError>
    ensures { IfOk result (λ n. n ≡ fold node_wider 4 rows.now) }
{
    let mut width = 4;
    for row in rows {
        width = wider(alloc, width, &row.node)?;
    }
    Ok(width)
}

fn session_front_onto(
    text: &mut String,
    alloc: Global,
    row: &SessionRow,
    width: usize,
) -> Result<(), AllocError>
    ensures { OnOk result (string_bytes text.new ≡ string_bytes text.old ++ session_front width row.now) }
{
    number_cell_onto(text, alloc, row.number, 7)?;
    text.push_str("  ")?;
    name_cell_onto(text, alloc, &row.service, width)?;
    text.push_str("  ")
}

fn session_back_onto(
    text: &mut String,
    alloc: Global,
    row: &SessionRow,
    nodes: usize,
) -> Result<(), AllocError>
    ensures { OnOk result (string_bytes text.new ≡ string_bytes text.old ++ session_back nodes row.now) }
{
    name_cell_onto(text, alloc, &row.node, nodes)?;
    text.push_str("  ")?;
    text.push_str(state_word(row.state))?;
    text.push_str("\r\n")
}

fn session_row_onto(
    text: &mut String,
    alloc: Global,
    row: &SessionRow,
    width: usize,
    nodes: usize,
) -> Result<(), AllocError>
    ensures { OnOk result (string_bytes text.new ≡ string_bytes text.old ++ session_row width nodes row.now) }
{
    session_front_onto(text, alloc, row, width)?;
    session_back_onto(text, alloc, row, nodes)
}

fn session_rows_onto(
    text: &mut String,
    alloc: Global,
    rows: &[SessionRow],
    width: usize,
    nodes: usize,
) -> Result<(), AllocError>
    ensures { OnOk result (string_bytes text.new ≡ string_bytes text.old ++ flat_map (session_row width nodes) rows.now) }
{
    for row in rows {
        session_row_onto(text, alloc, row, width, nodes)?;
    }
    Ok(())
}

fn sessions_header_onto(text: &mut String, width: usize, nodes: usize) -> Result<(), AllocError>
    ensures { OnOk result (string_bytes text.new ≡ string_bytes text.old ++ sessions_header width nodes) }
{
    text.push_str("session  ")?;
    cell_onto(text, "service", width)?;
    text.push_str("  ")?;
    cell_onto(text, "node", nodes)?;
    text.push_str("  state\r\n")
}

/// Adds the table of sessions.
pub(crate) fn sessions_onto(
    text: &mut String,
    alloc: Global,
    rows: &[SessionRow],
) -> Result<(), AllocError>
    ensures { OnOk result (string_bytes text.new ≡ string_bytes text.old ++ sessions_text rows.now) }
{
    let width = session_width(alloc, rows)?;
    let nodes = node_width(alloc, rows)?;
    sessions_header_onto(text, width, nodes)?;
    session_rows_onto(text, alloc, rows, width, nodes)
}
