//! Why what is written isn't read.

use lat_base::Memory;

/// Why a line, or a part of it, wasn't read.
#[derive(Clone, Copy)]
pub enum LineFault {
    /// It hasn't its form.
    Form,
    /// No memory was found.
    Memory,
}

impl From<Memory> for LineFault {
    ghost use Rattle.std.specs.Prelude.{◌≡◌};
    ghost use Rattle.lat_text.specs.declared.fault.LineFault.TheVariants as faults;

    ghost from_gives = { λ _ fault. fault ≡ faults.Memory };

    fn from(_e: Memory) -> LineFault {
        LineFault::Memory
    }
}
