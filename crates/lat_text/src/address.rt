//! Station addresses in print.

ghost use Rattle.std.specs.Prelude.{◌≡◌, ◌++◌, OnOk, string_bytes};
ghost use Rattle.lat_text.specs.AddressText.{address_text};

use crate::digits::byte_onto;
use lat_base::Addr;
use std::alloc::AllocError;

/// Adds an address to a text: twelve lower-case hex digits.
/// After want of memory a part of it may stand in the text.
pub fn address_onto(text: &mut String, address: Addr) -> Result<(), AllocError>
    ensures { OnOk result (string_bytes text.new ≡ string_bytes text.old ++ address_text address) }
{
    for byte in address.0 {
        byte_onto(text, byte)?;
    }
    Ok(())
}
