//! What stands in front of the events.

ghost use Rattle.std.specs.Prelude.{◌≡◌, IfOk};
ghost use Rattle.lat_schedule.specs.Setups.{IsSetup};
ghost use Rattle.lat_cmd.specs.generate.Front.{setup};

use lat_base::Memory;
use lat_schedule::{ScheduleFault, Setup, read_schedule};
use std::alloc::Global;

/// The lines in front of the events.
pub const FRONT: &str = "lat 1\n\
    server aa0004000104 TS1 8\n\
    node aa0004000204 VAX1 8 1 255\n\
    circuit 8 20 64 7 4\n\
    service VAX\n\
    go\n";

/// The line behind them.
pub const END: &str = "end\n";

/// What both cores are made of. `Memory` where none is found: these lines are a schedule without an event.
pub fn setup(alloc: Global) -> Result<Setup, Memory>
    ensures value { IfOk result (λ made. made ≡ setup) }
    ensures is { IfOk result (λ made. IsSetup made) }
{
    let mut text = String::from_str(alloc, FRONT)?;
    text.push_str(END)?;
    match read_schedule(alloc, text.as_bytes()) {
        Ok(schedule) => Ok(schedule.setup),
        Err(ScheduleFault::Memory) => Err(Memory),
        Err(ScheduleFault::Form { .. }) => unreachable!(),
        Err(ScheduleFault::Events { .. }) => unreachable!(),
    }
}
