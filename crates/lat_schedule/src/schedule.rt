//! A schedule, and why a text is none.

use crate::event::WorldEvents;
use crate::line_numbers::LineNumbers;
use crate::setup::Setup;
use lat_base::Memory;
use thiserror::Error;

/// What a text of a schedule says.
#[derive(Drop)]
pub struct Schedule {
    /// What both cores are made of.
    pub setup: Setup,
    /// The numbers of the events' lines, counted from 1; one past the greatest number is told as that.
    pub lines: LineNumbers,
    /// The events, in the order of their lines.
    pub events: WorldEvents,
}

/// Why a schedule isn't read from a text. Lines are counted from 1; a line past the greatest number is told as that.
#[derive(Clone, Copy, Debug, PartialEq, Eq, Error)]
pub enum ScheduleFault {
    /// The text is no schedule. This is the first line that is wrong or missing.
    #[error("line {line} form")]
    Form { line: u32 },
    /// The text is a schedule with more than 100,000 events. This is the line of the first one too many.
    #[error("line {line} limit events")]
    Events { line: u32 },
    /// No memory was found.
    #[error("memory")]
    Memory,
}

impl From<Memory> for ScheduleFault {
    ghost use Rattle.std.specs.Prelude.{◌≡◌};
    ghost use Rattle.lat_schedule.specs.declared.schedule.ScheduleFault.TheVariants as faults;

    ghost from_gives = { λ _ fault. fault ≡ faults.Memory };

    fn from(_e: Memory) -> ScheduleFault {
        ScheduleFault::Memory
    }
}
