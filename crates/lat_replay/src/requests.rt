//! The lines of the requests.

ghost use Rattle.std.specs.Prelude.{◌≡◌, ◌++◌, OnOk, string_bytes};
ghost use Rattle.std.specs.List.{flat_map};
ghost use Rattle.lat_machines.specs.server.Server.{Server};
ghost use Rattle.lat_server.specs.Stands.{Stands};
ghost use Rattle.lat_wire.specs.report.ReportText.{request_text};
ghost use Rattle.lat_replay.specs.Requests.{request_rows};

use lat_base::Memory;
use lat_server::ServerCore;
use lat_wire::request_onto;

/// Appends what became of each request, in the order of their first commands.
pub(crate) fn requests_onto(server: &ServerCore, out: &mut String) -> Result<(), Memory>
    ensures { OnOk result ((s : Server) →
        Stands server.now s →
        string_bytes out.new
        ≡ string_bytes out.old ++ flat_map request_text (request_rows s.queue)) }
{
    let mut place = 0;
    while let Some(request) = server.record_at(place) {
        request_onto(out, &request)?;
        place += 1;
    }
    Ok(())
}
