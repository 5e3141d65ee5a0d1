//! The rerun of a record, by the role of its core.

ghost use Rattle.std.specs.Prelude.{◌≡◌, ◌+◌, ◌<◌, ◌≤◌, ◌^◌, length, IfOk, string_bytes};
ghost use Rattle.lat_node.specs.Config as nodes;
ghost use Rattle.lat_server.specs.Config as servers;
ghost use Rattle.lat_switch.specs.Config as switches;
ghost use Rattle.lat_record.specs.declared.opening.Opening.TheVariants as openings;
ghost use Rattle.lat_record.specs.Openings.{IsOpening};
ghost use Rattle.lat_rerun.specs.Reruns.{rerun_by, rerun_of, opened_node, told};
ghost use Rattle.lat_node.specs.Looks as looks;
ghost use Rattle.lat_node.specs.Stands as stands;

use crate::told::told;
use lat_base::Memory;
use lat_node::{FreeLines, NodeConfig, NodeCore};
use lat_record::{Entry, Opening, RecordFault, read_record};
use lat_server::{ServerConfig, ServerCore};
use lat_switch::{SwitchConfig, SwitchCore};
use lat_text::wrong_line;
use std::alloc::Global;

fn of_server(
    alloc: Global,
    config: &ServerConfig,
    first: usize,
    entries: &[Entry],
) -> Result<(u8, String), Memory>
    requires config { servers.IsConfig config.now }
    requires counted { first + length entries.now < 2 ^ 64 }
    ensures { IfOk result (λ r. (r.0, string_bytes r.1) ≡ rerun_by (openings.Server config.now) first entries.now) }
{
    let core = ServerCore::make(alloc, config)?;
    told(alloc, core, config.lines, first, entries)
}

fn of_switch(
    alloc: Global,
    config: &SwitchConfig,
    first: usize,
    entries: &[Entry],
) -> Result<(u8, String), Memory>
    requires config { switches.IsConfig config.now }
    requires counted { first + length entries.now < 2 ^ 64 }
    ensures { IfOk result (λ r. (r.0, string_bytes r.1) ≡ rerun_by (openings.Switch config.now) first entries.now) }
{
    let core = SwitchCore::make(alloc, config)?;
    told(alloc, core, config.lines, first, entries)
}

// A node rates by the lines that are free, whatever its rule was: its answers don't depend on it.
fn of_node(
    alloc: Global,
    config: &NodeConfig,
    first: usize,
    entries: &[Entry],
) -> Result<(u8, String), Memory>
    requires config { nodes.IsConfig config.now }
    requires counted { first + length entries.now < 2 ^ 64 }
    ensures { IfOk result (λ r. (r.0, string_bytes r.1)
        ≡ told stands.next stands.answered looks.look_of (opened_node (tt {0}) config.now) config.now.lines first entries.now) }
{
    let core = NodeCore::make(alloc, config, FreeLines)?;
    told(alloc, core, config.lines, first, entries)
}

fn by_role(
    alloc: Global,
    opening: &Opening,
    first: usize,
    entries: &[Entry],
) -> Result<(u8, String), Memory>
    requires opening { IsOpening opening.now }
    requires counted { first + length entries.now < 2 ^ 64 }
    ensures { IfOk result (λ r. (r.0, string_bytes r.1) ≡ rerun_by opening.now first entries.now) }
{
    match opening {
        Opening::Server(config) => of_server(alloc, config, first, entries),
        Opening::Switch(config) => of_switch(alloc, config, first, entries),
        Opening::Node(node) => of_node(alloc, &node.config, first, entries),
    }
}

/// Tells a fresh core the events of the record that a text is, and compares each answer: the status, and what is printed.
///
/// - 0: each answer is the one that stands there; `agrees N`, and the newest session of each line that had one;
/// - 2: the text is no record; `line N form`, N the first line that is wrong or missing;
/// - 3: an answer is another one; `line N answer`, N the line of the first such event.
///
/// A last line that is cut counts for nothing. `Memory` where none is found. `docs/FORMATS.md`, "Records", has the lines.
pub fn rerun(alloc: Global, text: &[u8]) -> Result<(u8, String), Memory>
    ensures { IfOk result (λ r. (r.0, string_bytes r.1) ≡ rerun_of text.now) }
{
    match read_record(alloc, text) {
        Ok(record) => by_role(
            alloc,
            &record.opening,
            record.first,
            record.entries.as_slice(),
        ),
        Err(RecordFault::Form { line }) => Ok((2, wrong_line(alloc, line)?)),
        Err(RecordFault::Memory) => Err(Memory),
    }
}
