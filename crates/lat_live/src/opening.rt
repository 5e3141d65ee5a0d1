//! What is opened.

ghost use Rattle.std.specs.Prelude.{◌≡◌, ◌<◌, ◌≤◌, length, IfOk, IfErr, OnOk, vec_len};
ghost use Rattle.lat_mind.specs.Good.{Each};
ghost use Rattle.lat_outside.specs.Openings.{with_carrier, with_line};
ghost use Rattle.lat_outside.specs.Visits.{no_visits};
ghost use Rattle.lat_live.specs.Opened.{CarrierRefused, IsNew, IsRefusedAt, LineRefused, RoseIfRefused, with_lines};

use crate::plan::LinePlan;
use lat_base::{Addr, Memory};
use lat_outside::{PortFault, PortOpener};
use std::alloc::{AllocError, Global};

/// What a port is for.
#[derive(Clone, Copy, Debug, PartialEq, Eq)]
pub enum PortOf {
    Carrier,
    /// The line of this number, from 1 on.
    Line(u8),
}

/// A port that couldn't be opened, on the loopback address.
#[derive(Clone, Copy, Debug, PartialEq, Eq)]
pub struct Refused {
    pub of: PortOf,
    pub port: u16,
    pub fault: PortFault,
}

/// Why no worker was started.
#[derive(Clone, Copy)]
pub enum StartFault {
    /// The carrier or a line wasn't opened.
    Refused(Refused),
    /// No memory was found.
    Memory,
}

impl From<Memory> for StartFault {
    ghost use Rattle.std.specs.Prelude.{◌≡◌};
    ghost use Rattle.lat_live.specs.declared.opening.StartFault.TheVariants as faults;

    ghost from_gives = { λ _ e. e ≡ faults.Memory };

    fn from(_e: Memory) -> StartFault {
        StartFault::Memory
    }
}

impl From<AllocError> for StartFault {
    ghost use Rattle.std.specs.Prelude.{◌≡◌};
    ghost use Rattle.lat_live.specs.declared.opening.StartFault.TheVariants as faults;

    ghost from_gives = { λ _ e. e ≡ faults.Memory };

    fn from(_e: AllocError) -> StartFault {
        StartFault::Memory
    }
}

/// Opens the carrier of the station with this address: frames come to this port, and go to the peers' ports.
pub fn open_carrier<O: PortOpener>(
    opener: &mut O,
    own: Addr,
    port: u16,
    peers: &[u16],
) -> Result<(O::T, O::R), StartFault>
    ensures asked { O.asked opener.new ≡ with_carrier (O.asked opener.old) own port peers.now }
    ensures refused { IfErr result (CarrierRefused port) }
    ensures later { O.faults opener.old ≤ O.faults opener.new }
    ensures cause { IfErr result (RoseIfRefused (O.faults opener.old) (O.faults opener.new)) }
{
    match opener.open_carrier(own, port, peers) {
        Ok(halves) => Ok(halves),
        Err(fault) => Err(StartFault::Refused(Refused {
            of: PortOf::Carrier,
            port,
            fault,
        })),
    }
}

// Opens a line, at its port if it listens.
fn open_line<O: PortOpener>(opener: &mut O, line: u8, port: Option<u16>) -> Result<O::C, StartFault>
    ensures asked { O.asked opener.new ≡ with_line (O.asked opener.old) port }
    ensures line { IfOk result (λ callers. O.C.visits callers ≡ no_visits port) }
    ensures refused { IfErr result (IsRefusedAt line port) }
    ensures later { O.faults opener.old ≤ O.faults opener.new }
    ensures cause { IfErr result (RoseIfRefused (O.faults opener.old) (O.faults opener.new)) }
{
    let Some(port) = port else {
        return Ok(opener.open_dialling());
    };
    match opener.open_port(port) {
        Ok(callers) => Ok(callers),
        Err(fault) => Err(StartFault::Refused(Refused {
            of: PortOf::Line(line),
            port,
            fault,
        })),
    }
}

/// Opens these lines by rising number, each that listens at its port, and the others to dial.
pub fn open_lines<O: PortOpener>(
    alloc: Global,
    opener: &mut O,
    lines: &[LinePlan],
) -> Result<Vec<O::C>, StartFault>
    requires { length lines.now < 255 }
    ensures count { IfOk result (λ opened. vec_len opened ≡ length lines.now) }
    ensures asked { OnOk result (O.asked opener.new ≡ with_lines lines.now (O.asked opener.old)) }
    ensures fresh { IfOk result (λ opened. Each (λ callers. IsNew (O.C.visits callers)) opened.items) }
    ensures refused { IfErr result (LineRefused lines.now (O.asked opener.old) (O.asked opener.new)) }
    ensures later { O.faults opener.old ≤ O.faults opener.new }
    ensures cause { IfErr result (RoseIfRefused (O.faults opener.old) (O.faults opener.new)) }
{
    let mut opened = Vec::with_capacity(alloc, lines.len())?;
    for k in 0..lines.len() {
        let callers = open_line(opener, k as u8 + 1, lines[k].port)?;
        opened.push_reserved(callers);
    }
    Ok(opened)
}
