//! Whom a frame is for.

ghost use Rattle.std.specs.Prelude.{◌≡◌, ◌||◌, nat_eq};
ghost use Rattle.lat_machines.specs.values.Addresses.{address, everyone};

use lat_base::Addr;

/// Whether a frame that is sent to `to` is for the end of the address `own`: it was sent to it or to everyone.
pub fn is_for(to: Addr, own: Addr) -> bool
    ensures { result ≡ (nat_eq (address to.0) (address own.0) || nat_eq (address to.0) everyone) }
{
    to == own || to.is_everyone()
}
