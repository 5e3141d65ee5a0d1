//! How the two ends begin.

ghost use Rattle.std.specs.Prelude.{◌≡◌, ◌+◌, ◌<◌, ◌≤◌, [], true, length, IfOk};
ghost use Rattle.lat_frames.specs.Conditions.{InfoFits};
ghost use Rattle.lat_frames.specs.Timings.{IsTiming};

use crate::end::End;
use lat_base::{Addr, Memory, OutBox};
use lat_circuit::{Circuit, CircuitConfig};
use lat_frames::StartInfo;
use lat_script::{ScriptFault, known_name, timing};
use std::alloc::Global;

const SERVER: Addr = Addr([0xaa, 0x00, 0x04, 0x00, 0x01, 0x04]);

const NODE: Addr = Addr([0xaa, 0x00, 0x04, 0x00, 0x02, 0x04]);

/// What both ends are made of.
#[derive(Clone, Copy)]
pub struct Setup {
    pub master: CircuitConfig,
    pub slave: CircuitConfig,
}

/// The server TS1 and the node VAX1, with the numbers that a line states.
pub fn setup_of(line: &str) -> Result<Setup, ScriptFault>
    ensures master { IfOk result (λ setup. IsTiming setup.master.timing) }
    ensures slave { IfOk result (λ setup. IsTiming setup.slave.timing) }
{
    let timing = timing(line)?;
    let (server, node) = (known_name(b"TS1"), known_name(b"VAX1"));
    Ok(Setup {
        master: CircuitConfig {
            own: SERVER,
            peer: NODE,
            name: server,
            peer_name: node,
            timing,
        },
        slave: CircuitConfig {
            own: NODE,
            peer: SERVER,
            name: node,
            peer_name: server,
            timing,
        },
    })
}

/// A master that is called at moment 0.
pub fn called(
    alloc: Global,
    config: &CircuitConfig,
    id: u16,
    out: &mut OutBox,
) -> Result<End, Memory>
    requires timing { IsTiming config.now.timing }
    requires id { 0 < id }
    requires room { length out.old + 16 ≤ 256 }
{
    let circuit = Circuit::call(alloc, config, id, 0, out)?;
    Ok(End { circuit })
}

/// A slave of id 1 that answers a START.
pub fn answered(
    alloc: Global,
    config: &CircuitConfig,
    from: u16,
    info: &StartInfo,
    now: u64,
    out: &mut OutBox,
) -> Result<End, Memory>
    requires timing { IsTiming config.now.timing }
    requires from { 0 < from }
    requires info { InfoFits true info.now }
    requires room { length out.old + 16 ≤ 256 }
{
    let circuit = Circuit::answer(alloc, config, 1, from, info, now, out)?;
    Ok(End { circuit })
}

/// How many sessions a circuit holds that connected so many, and how many one holds that is called in its memory.
pub fn room_used_again(
    alloc: Global,
    config: &CircuitConfig,
    sessions: u8,
    out: &mut OutBox,
) -> Result<(u8, u8), Memory>
    requires timing { IsTiming config.now.timing }
    requires room { out.old ≡ [] }
{
    let mut first = Circuit::call(alloc, config, 1, 0, out)?;
    for _ in 0..sessions {
        if first.lives() {
            let _ = first.connect(&config.peer_name, None);
        }
    }
    let before = first.held();
    out.clear();
    let second = Circuit::call_in(first.into_room(), config, 2, 0, out);
    Ok((before, second.held()))
}
