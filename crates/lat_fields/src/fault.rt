//! Why a layout wasn't read.

ghost use Rattle.std.specs.Prelude.{◌≡◌};
ghost use Rattle.lat_fields.specs.declared.fault.LayoutFault.TheVariants as faults;

use lat_base::{Bad, Memory};

/// Why no value was read.
#[derive(Clone, Copy)]
pub enum LayoutFault {
    /// The bytes have no layout: this is the first bad field, with its place.
    Bad(Bad),
    /// No memory was found for the value.
    Memory,
}

impl From<Memory> for LayoutFault {
    ghost from_gives = { λ _ fault. fault ≡ faults.Memory };

    fn from(_e: Memory) -> LayoutFault {
        LayoutFault::Memory
    }
}
