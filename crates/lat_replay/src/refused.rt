//! How a refused event is told.

ghost use Rattle.std.specs.Prelude.{◌≡◌, ◌≢◌, IfOk};
ghost use Rattle.lat_wire.specs.declared.fault.EventFault.TheVariants as faults;
ghost use Rattle.lat_replay.specs.Refusals.{refused_of};

use lat_base::Memory;
use lat_wire::{EventFault, Refused};

/// How the line of a refused event says why. Want of memory has no line.
pub fn refused_of(fault: EventFault) -> Result<Refused, Memory>
    ensures value { IfOk result (λ refused. refused ≡ refused_of fault) }
    ensures kept { IfOk result (λ refused. fault ≢ faults.Memory) }
{
    match fault {
        EventFault::FramesFull => Ok(Refused::FramesLimit),
        EventFault::Backward { at, last } => Ok(Refused::Backward { at, last }),
        EventFault::OwnAddress => Ok(Refused::OwnAddress),
        EventFault::NoFrame { index, sent } => Ok(Refused::NoFrame { index, sent }),
        EventFault::Old {
            acknowledgement,
            number,
            newest,
        } => Ok(Refused::Old {
            acknowledgement,
            number,
            newest,
        }),
        EventFault::Memory => Err(Memory),
    }
}
