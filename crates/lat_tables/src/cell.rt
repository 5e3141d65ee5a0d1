//! The cells of tables.

ghost use Rattle.std.specs.Prelude.{◌≡◌, ◌++◌, IfOk, OnOk, string_bytes};
ghost use Rattle.lat_tables.specs.Cells.{cell_text, ended_text, state_text};

use crate::column::Column;
use crate::counter::{Counter, counter_onto};
use lat_base::{Addr, Name, SessionEnd, SessionState};
use lat_text::{address_onto, name_onto};
use std::alloc::{AllocError, Global};

/// What stands in a table at one place.
#[derive(Clone, Copy)]
pub enum Cell {
    /// The title of a column.
    Title(Column),
    /// There is no such thing.
    Absent,
    Number(u64),
    Name(Name),
    Address(Addr),
    /// The state of a session.
    State(SessionState),
    /// How a session ended.
    Ended(SessionEnd),
    /// The name of a counter.
    Counter(Counter),
}

fn state_text(state: SessionState) -> &'static str
    ensures { result.now ≡ state_text state }
{
    match state {
        SessionState::Free => "free",
        SessionState::Calling => "calling",
        SessionState::Asked => "asked",
        SessionState::Live => "live",
        SessionState::Closing => "closing",
        SessionState::Left => "left",
    }
}

fn ended_onto(text: &mut String, end: SessionEnd) -> Result<(), AllocError>
    ensures { OnOk result (string_bytes text.new ≡ string_bytes text.old ++ ended_text end) }
{
    match end {
        SessionEnd::Closed => text.push_str("closed"),
        SessionEnd::Rejected(reason) => write!(text, "rejected {reason}"),
        SessionEnd::Circuit(reason) => write!(text, "circuit {reason}"),
    }
}

fn cell_onto(text: &mut String, cell: Cell) -> Result<(), AllocError>
    ensures { OnOk result (string_bytes text.new ≡ string_bytes text.old ++ cell_text cell) }
{
    match cell {
        Cell::Title(column) => text.push_str(column.title()),
        Cell::Absent => text.push_str("-"),
        Cell::Number(number) => write!(text, "{number}"),
        Cell::Name(name) => name_onto(text, &name),
        Cell::Address(address) => address_onto(text, address),
        Cell::State(state) => text.push_str(state_text(state)),
        Cell::Ended(end) => ended_onto(text, end),
        Cell::Counter(counter) => counter_onto(text, counter),
    }
}

impl Cell {
    /// Its text, for which it takes memory. `AllocError` where none is found.
    pub fn text(self, alloc: Global) -> Result<String, AllocError>
        ensures { IfOk result (λ text. string_bytes text ≡ cell_text self) }
    {
        let mut text = String::new(alloc);
        cell_onto(&mut text, self)?;
        Ok(text)
    }
}
