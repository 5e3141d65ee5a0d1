//! The lines of the sessions.

ghost use Rattle.std.specs.Prelude.{◌≡◌, ◌<◌, ◌++◌, OnOk, string_bytes};
ghost use Rattle.lat_machines.specs.world.Machines.{Machines};
ghost use Rattle.lat_wire.specs.report.ReportText.{row_text, rows_text};
ghost use Rattle.lat_wire.specs.report.Rows.{row_in};
ghost use Rattle.lat_laws.specs.tales.Rows as rows;
ghost use Rattle.lat_laws.specs.tales.Reported.{report_row, report_rows};
ghost use Rattle.lat_replay.specs.roster.Rows.{ShowsRow};
ghost use Rattle.lat_replay.specs.Rows.{figures_shown, row_with};
ghost use Rattle.lat_replay.specs.Standing.{StandsFor, RowAt};

use crate::figures::{exact, node_figures, server_figures};
use crate::roster::{Figures, Roster, Row};
use lat_base::Memory;
use lat_wire::{Flow, RatingRule, SessionRow, Wire, session_onto};
use std::alloc::Global;

// The session of a row, with its figures at both ends.
fn session_row(row: &Row, server: Figures, node: Figures) -> SessionRow<'_>
    ensures { (r : rows.RowAfter) → ShowsRow row.now r →
        row_in result ≡ row_with r (figures_shown server) (figures_shown node) }
{
    SessionRow {
        line: row.line,
        node_line: row.node_line,
        ended: server.end,
        up: Flow {
            put: row.up.put.as_slice(),
            taken: row.up.taken.as_slice(),
            given: node.given,
            used: server.used,
        },
        down: Flow {
            put: row.down.put.as_slice(),
            taken: row.down.taken.as_slice(),
            given: server.given,
            used: node.used,
        },
    }
}

// Appends the lines of the session of the row at this place, from 1 on.
fn row_onto<H: RatingRule>(
    alloc: Global,
    wire: &Wire<H>,
    roster: &Roster,
    place: usize,
    row: &Row,
    out: &mut String,
) -> Result<(), Memory>
    requires { 0 < place }
    ensures { OnOk result ((w : Machines) (k : rows.RowsAfter) (r : rows.RowAfter) →
        StandsFor wire.now roster.now w k →
        RowAt k place r →
        ShowsRow row.now r →
        string_bytes out.new ≡ string_bytes out.old ++ row_text place (report_row w k place r)) }
{
    let server = exact(server_figures(wire, roster, place, row.line, row.server))?;
    let node = exact(node_figures(wire, roster, place, row.node_line, row.node))?;
    session_onto(alloc, out, place as u64, &session_row(row, server, node))?;
    Ok(())
}

/// Appends the lines of all sessions, in the order in which the server connected them.
pub(crate) fn sessions_onto<H: RatingRule>(
    alloc: Global,
    wire: &Wire<H>,
    roster: &Roster,
    out: &mut String,
) -> Result<(), Memory>
    ensures { OnOk result ((w : Machines) (k : rows.RowsAfter) →
        StandsFor wire.now roster.now w k →
        string_bytes out.new ≡ string_bytes out.old ++ rows_text 1 (report_rows w k)) }
{
    let list = roster.rows();
    let mut place: usize = 0;
    for row in list {
        place += 1;
        row_onto(alloc, wire, roster, place, row, out)?;
    }
    Ok(())
}
