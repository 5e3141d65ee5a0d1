//! What a world refuses.

use crate::report::old_word;
use lat_base::Memory;
use thiserror::Error;

/// How many frames a world has at most when it is told an event.
pub const FRAMES: usize = 199_744;

/// Why an event was refused. Nothing has changed then.
#[derive(Debug, Drop, PartialEq, Eq, Error)]
pub enum EventFault {
    /// More than 199,744 frames were sent.
    #[error("limit frames")]
    FramesFull,
    /// The moment lies before the last one.
    #[error("backward {at} {last}")]
    Backward {
        at: u64,
        last: u64,
    },
    /// A frame that was to come from outside bears the address of an end.
    #[error("own-address")]
    OwnAddress,
    /// So many frames were sent, and this isn't the index of one.
    #[error("noframe {index} {sent}")]
    NoFrame {
        index: u64,
        sent: u64,
    },
    /// The circuit that the frame names lives, and the frame isn't young: its message number, or else its acknowledgement, is
    /// half a range or more below the newest that its sender has sent on its circuit.
    #[error("old {} {number} {newest}", old_word(*.acknowledgement))]
    Old {
        acknowledgement: bool,
        number: u64,
        newest: u64,
    },
    /// No memory was found.
    #[error("memory")]
    Memory,
}

impl From<Memory> for EventFault {
    ghost use Rattle.std.specs.Prelude.{◌≡◌};
    ghost use Rattle.lat_wire.specs.declared.fault.EventFault.TheVariants as faults;

    ghost from_gives = { λ _ e. e ≡ faults.Memory };

    fn from(_e: Memory) -> EventFault {
        EventFault::Memory
    }
}
