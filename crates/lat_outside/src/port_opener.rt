//! What opens the ports of a daemon.

ghost use Rattle.std.specs.Prelude.{◌≡◌, ◌≢◌, ℕ, ◌<◌, ◌↔◌, length, Some, None, Err, IfOk};
ghost use Rattle.lat_outside.specs.Causes.{HasCause};
ghost use Rattle.lat_outside.specs.Openings.{OpeningsView, with_carrier, with_line};
ghost use Rattle.lat_outside.specs.Visits.{no_visits};

use crate::callers::Callers;
use crate::carrier::{Rx, Tx};
use lat_base::Addr;

/// The most peers of a carrier.
pub const MOST_PEERS: usize = 8;

/// Why a port wasn't opened.
#[derive(Clone, Copy, Debug, PartialEq, Eq)]
pub enum PortFault {
    /// Something else has it.
    InUse,
    /// The system doesn't allow it.
    Denied,
    /// More than eight peers.
    Peers,
    /// Anything else.
    Other,
}

impl PortFault {
    /// What an operator is told.
    pub fn words(self) -> &'static str {
        match self {
            PortFault::InUse => "address in use",
            PortFault::Denied => "permission denied",
            PortFault::Peers => "more than eight peers",
            PortFault::Other => "can't be opened",
        }
    }
}

/// A receiving half that hears its peers alone, and counts the rest.
pub trait Strays {
    ghost strays: { Self → ℕ };

    /// How many frames came from somebody who is no peer. The count stops at 2^64 - 1.
    fn strays(&self) -> u64
        ensures { result ≡ strays self.now };
}

/// Opens the carrier and the lines of a daemon, on the loopback address. What it opened begins with no fault, no stray and no
/// caller. Its own count of faults never falls, and a call answers an `Err` only where the count rose, or stands at 2^64 - 1
/// already.
pub trait PortOpener: Drop {
    type T: Tx + Send;

    type R: Rx + Strays + Send;

    type C: Callers + Send;

    // What it was asked for.
    ghost asked: { Self → OpeningsView };

    ghost faults: { Self → ℕ };

    /// Opens the two halves of a carrier for the station with this address. Frames come to this port, from the peers' ports alone,
    /// and go to these. `Peers` exactly where there are more than eight of them.
    fn open_carrier(
        &mut self,
        own: Addr,
        port: u16,
        peers: &[u16],
    ) -> Result<(Self::T, Self::R), PortFault>
        ensures asked { asked self.new ≡ with_carrier (asked self.old) own port peers.now }
        ensures counts { IfOk result (λ halves.
            (Self.T.faults halves.0 ≡ 0) × (Self.R.faults halves.1 ≡ 0) × (Self.R.strays halves.1 ≡ 0)) }
        ensures peers { result ≡ Err PortFault.Peers ↔ 8 < length peers.now }
        ensures cause { HasCause (faults self.old) (faults self.new) result };

    /// Opens a line that listens at this port. It listens as long as the line is there. Never `Peers`.
    fn open_port(&mut self, port: u16) -> Result<Self::C, PortFault>
        ensures asked { asked self.new ≡ with_line (asked self.old) (Some port) }
        ensures line { IfOk result (λ line.
            (Self.C.visits line ≡ no_visits (Some port)) × (Self.C.faults line ≡ 0)) }
        ensures peers { result ≢ Err PortFault.Peers }
        ensures cause { HasCause (faults self.old) (faults self.new) result };

    /// Opens a line that doesn't listen: its callers are dialled. It can't fail.
    fn open_dialling(&mut self) -> Self::C
        ensures asked { asked self.new ≡ with_line (asked self.old) None }
        ensures line { (Self.C.visits result ≡ no_visits None) × (Self.C.faults result ≡ 0) }
        ensures faults { faults self.new ≡ faults self.old };
}
