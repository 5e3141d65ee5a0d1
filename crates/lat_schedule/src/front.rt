//! The first four lines of a schedule.

ghost use Rattle.std.specs.Prelude.{◌≡◌, IfOk};
ghost use Rattle.std.specs.Result.{result_map_both};
ghost use Rattle.lat_schedule.specs.Front.{FitsFront, front_at};
ghost use Rattle.lat_schedule.specs.Places.{place};

use crate::rest::Rest;
use crate::setup_line::{
    CircuitLine, NodeLine, ServerLine, Version, circuit_of, node_of, server_of, version_of,
};

/// What they say.
#[derive(Clone, Copy)]
pub struct Front {
    pub version: Version,
    pub server: ServerLine,
    pub node: NodeLine,
    pub circuit: CircuitLine,
}

/// Reads them, and gives the lines behind them. The number of the first that is wrong or missing, where one is.
pub fn front_of<'a>(at: &Rest<'a>) -> Result<(Front, Rest<'a>), usize>
    ensures value { result_map_both (λ r. (r.0, place r.1)) (λ number. number) result
        ≡ front_at (place at.now) }
    ensures fits { IfOk result (λ r. FitsFront r.0) }
{
    let first = at.line()?;
    let version = version_of(first.line).ok_or(first.number)?;
    let second = first.behind.line()?;
    let server = server_of(version, second.line).ok_or(second.number)?;
    let third = second.behind.line()?;
    let node = node_of(version, server.own, third.line).ok_or(third.number)?;
    let fourth = third.behind.line()?;
    let circuit = circuit_of(version, fourth.line).ok_or(fourth.number)?;
    let front = Front {
        version,
        server,
        node,
        circuit,
    };
    Ok((front, fourth.behind))
}
