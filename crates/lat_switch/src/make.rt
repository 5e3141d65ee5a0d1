//! How a switch is made.

ghost use Rattle.std.specs.Prelude.{◌≡◌, ◌≤◌, IfOk};
ghost use Rattle.lat_switch.specs.Config.{IsConfig, open_switch};
ghost use Rattle.lat_switch.specs.Core.{IsMade, opening};
ghost use Rattle.lat_switch.specs.Kept.{IsValid};
ghost use Rattle.lat_switch.specs.Lines.{opened_lines};
ghost use Rattle.lat_switch.specs.Stands.{Stands};

use crate::config::SwitchConfig;
use crate::line::{INNER, Line};
use crate::switch::SwitchCore;
use lat_base::Memory;
use lat_server::{Offers, ServerConfig, ServerCore};
use std::alloc::Global;

// So many lines as they are opened, at most 8.
fn opened_lines(alloc: Global, count: u8) -> Result<Vec<Line>, Memory>
    requires { count ≤ 8 }
    ensures { IfOk result (λ lines. lines.items ≡ opened_lines count) }
{
    let mut lines = Vec::with_capacity(alloc, count as usize)?;
    for number in 1..count + 1 {
        lines.push(Line::open(number))?;
    }
    Ok(lines)
}

impl SwitchCore {
    /// The switch of a valid configuration at moment 0, as it is opened. Takes the memory of a server core that has no circuit;
    /// `Memory` where none is found.
    pub fn make(alloc: Global, config: &SwitchConfig) -> Result<SwitchCore, Memory>
        requires { IsConfig config.now }
        ensures made { IfOk result (λ k. IsMade (opening k)) }
        ensures stands { IfOk result (λ k. Stands k (opening k)) }
        ensures opening { IfOk result (λ k. opening k ≡ open_switch config.now) }
        ensures valid { IfOk result IsValid }
    {
        let server = ServerConfig {
            own: config.own,
            name: config.name,
            lines: INNER * config.lines,
            offers: Offers::new(alloc),
            groups: config.groups,
            timing: config.timing,
            prompt: config.prompt,
            first: config.first,
        };
        let inner = ServerCore::make(alloc, &server)?;
        let lines = opened_lines(alloc, config.lines)?;
        Ok(SwitchCore { inner, lines })
    }
}
