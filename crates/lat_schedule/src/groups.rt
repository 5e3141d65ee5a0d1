//! The lines that tell groups.

ghost use Rattle.std.specs.Prelude.{◌≡◌, ◌≤◌, length, IfOk};
ghost use Rattle.lat_schedule.specs.Places.{place};
ghost use Rattle.lat_schedule.specs.Groups.{server_groups_at, node_groups_at, groups_at};

use crate::rest::Rest;
use crate::setup_line::{Version, node_groups_of, server_groups_of};
use lat_base::{Bytes, Memory};
use lat_text::LineFault;
use std::alloc::Global;

/// All groups.
const ALL: [u8; 32] = [255; 32];

/// The masks of both ends.
#[derive(Drop)]
pub struct Groups {
    pub server: [u8; 32],
    pub node: Bytes,
}

// The server's mask: all groups without its line.
fn server_groups_at(at: Rest<'_>) -> ([u8; 32], Rest<'_>)
    ensures { (result.0, place result.1) ≡ server_groups_at (place at.entry) }
{
    if let Ok(next) = at.line() {
        if let Some(mask) = server_groups_of(next.line) {
            return (mask, next.behind);
        }
    }
    (ALL, at)
}

// The node's mask: without its line an empty one.
fn node_groups_at(alloc: Global, at: Rest<'_>) -> Result<(Bytes, Rest<'_>), Memory>
    ensures value { IfOk result (λ r. (r.0, place r.1) ≡ node_groups_at (place at.entry)) }
    ensures fits { IfOk result (λ r. length r.0 ≤ 32) }
{
    if let Ok(next) = at.line() {
        match node_groups_of(alloc, next.line) {
            Ok(mask) => return Ok((Bytes::copy(alloc, &mask)?, next.behind)),
            Err(LineFault::Memory) => return Err(Memory),
            Err(LineFault::Form) => {}
        }
    }
    Ok((Bytes::copy(alloc, &[])?, at))
}

/// Reads them, where there are any, and gives the lines behind them: in the first version there is none. Takes memory for
/// the node's mask.
pub fn groups_of(
    alloc: Global,
    version: Version,
    at: Rest<'_>,
) -> Result<(Groups, Rest<'_>), Memory>
    ensures value { IfOk result (λ r. (r.0, place r.1) ≡ groups_at version (place at.entry)) }
    ensures fits { IfOk result (λ r. length r.0.node ≤ 32) }
{
    if version == Version::One {
        let node = Bytes::copy(alloc, &[])?;
        return Ok((Groups { server: ALL, node }, at));
    }
    let (server, at) = server_groups_at(at);
    let (node, at) = node_groups_at(alloc, at)?;
    Ok((Groups { server, node }, at))
}
