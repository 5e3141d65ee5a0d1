//! Faults of sockets.

ghost use Rattle.std.specs.Prelude.{◌≤◌, ◌↔◌, IsTrue};
ghost use Rattle.lat_outside.specs.Causes.{Rose};
ghost use Rattle.lat_udp.specs.Faults.{IsQuiet};

use std::io::ErrorKind;

/// How long a read waits for something to come, in milliseconds.
pub(crate) const WAIT_MS: u64 = 10;

/// One more fault. The count stops at its greatest number.
pub(crate) fn more(faults: &mut u64)
    ensures { (faults.old ≤ faults.new) × Rose faults.old faults.new }
{
    *faults = faults.saturating_add(1);
}

/// Whether a read failed only because nothing had come: it would have waited, has waited long enough, or was interrupted.
pub(crate) fn is_quiet(kind: ErrorKind) -> bool
    ensures { IsTrue result ↔ IsQuiet kind }
{
    matches!(
        kind,
        ErrorKind::WouldBlock | ErrorKind::TimedOut | ErrorKind::Interrupted
    )
}
