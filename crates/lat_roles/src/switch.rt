//! Blocks over a switch and a node.

mod play;
mod print;

ghost use Rattle.std.specs.Prelude.{◌≤◌};
ghost use Rattle.lat_schedule.specs.Setups.{IsSetup};

use crate::switch::play::{Play, Post};
use lat_base::Memory;
use lat_node::{FreeLines, NodeCore};
use lat_schedule::{Schedule, ScheduleFault, Setup, read_schedule};
use lat_switch::{SwitchConfig, SwitchCore};
use std::alloc::Global;

// Makes both, a switch of at most 8 lines; the node rates by the lines that are left.
fn opened(alloc: Global, setup: &Setup) -> Result<Play<FreeLines>, Memory>
    requires setup { IsSetup setup.now }
    requires lines { setup.now.server.lines ≤ 8 }
{
    let config = SwitchConfig {
        own: setup.server.own,
        name: setup.server.name,
        lines: setup.server.lines,
        groups: setup.server.groups,
        timing: setup.server.timing,
        prompt: setup.server.prompt,
        first: setup.server.first,
    };
    let switch = Post::new(SwitchCore::make(alloc, &config)?, config.own);
    let node = Post::new(
        NodeCore::make(alloc, &setup.node, FreeLines)?,
        setup.node.own,
    );
    Ok(Play::new(alloc, switch, node))
}

fn play_schedule(alloc: Global, schedule: &Schedule, text: &mut String) -> Result<(), Memory>
    requires { IsSetup schedule.now.setup }
{
    if schedule.setup.server.lines > 8 {
        return Ok(text.push_str("line 2 form\n")?);
    }
    let mut play = opened(alloc, &schedule.setup)?;
    for event in schedule.events.as_slice() {
        play.told(alloc, event, text)?;
    }
    Ok(())
}

/// What a block does, printed.
pub fn block_onto(alloc: Global, block: &str, text: &mut String) -> Result<(), Memory> {
    let (title, lines) = block.split_once("\n").unwrap_or((block, ""));
    write!(text, "{title}\n")?;
    match read_schedule(alloc, lines.as_bytes()) {
        Ok(schedule) => play_schedule(alloc, &schedule, text),
        Err(ScheduleFault::Form { line }) => Ok(write!(text, "line {line} form\n")?),
        Err(ScheduleFault::Events { line }) => Ok(write!(text, "line {line} limit events\n")?),
        Err(ScheduleFault::Memory) => Err(Memory),
    }
}
