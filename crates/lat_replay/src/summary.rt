//! The whole report.

ghost use Rattle.std.specs.Prelude.{◌≡◌, ◌++◌, OnOk, string_bytes};
ghost use Rattle.std.specs.List.{flat_map};
ghost use Rattle.lat_machines.specs.server.Records.{grants_of};
ghost use Rattle.lat_machines.specs.server.Server.{Server};
ghost use Rattle.lat_machines.specs.world.Machines.{Machines};
ghost use Rattle.lat_machines.specs.world.Reports.{report};
ghost use Rattle.lat_server.specs.Stands as servers;
ghost use Rattle.lat_laws.specs.tales.Rows.{RowsAfter, KeepsRows};
ghost use Rattle.lat_replay.specs.roster.Roster.{HasRows};
ghost use Rattle.lat_wire.specs.report.ReportText.{request_text, grant_text, report_text};
ghost use Rattle.lat_wire.specs.Kept.{setups_of};
ghost use Rattle.lat_wire.specs.Stands.{Stands};
ghost use Rattle.lat_replay.specs.Requests.{request_rows};

use crate::grants::grants_onto;
use crate::notes::notes_onto;
use crate::requests::requests_onto;
use crate::roster::Roster;
use crate::sessions::sessions_onto;
use lat_base::Memory;
use lat_server::ServerCore;
use lat_wire::{RatingRule, Wire, done_onto, frames_onto};
use std::alloc::Global;

// Appends what became of the requests, and the grants in their order.
fn queue_onto(alloc: Global, server: &ServerCore, out: &mut String) -> Result<(), Memory>
    ensures { OnOk result ((s : Server) →
        servers.Stands server.now s →
        string_bytes out.new
        ≡ string_bytes out.old ++ flat_map request_text (request_rows s.queue)
        ++ flat_map grant_text (grants_of s.queue)) }
{
    requests_onto(server, out)?;
    grants_onto(alloc, server, out)?;
    Ok(())
}

/// Appends the report of a world: of its wire, and of the rows that were kept of it. `Memory` where none is found, and where
/// a count of credits stands at the greatest number of 64 bits, where it isn't exact any more. After it a part of the report
/// may stand in the text.
pub fn report_onto<H: RatingRule>(
    alloc: Global,
    wire: &Wire<H>,
    roster: &Roster,
    out: &mut String,
) -> Result<(), Memory>
    ensures { OnOk result ((w : Machines) (k : RowsAfter) →
        Stands wire.now w →
        KeepsRows (setups_of wire.now) w k →
        HasRows roster.now k →
        string_bytes out.new
        ≡ string_bytes out.old ++ report_text (report (setups_of wire.now) w)) }
{
    frames_onto(out, wire.frames())?;
    sessions_onto(alloc, wire, roster, out)?;
    queue_onto(alloc, wire.server(), out)?;
    notes_onto(out, wire.notes())?;
    done_onto(out)?;
    Ok(())
}
