//! Clients of a control socket, and where they come from.

ghost use Rattle.std.specs.Prelude.{◌≡◌, ℕ, ◌≤◌, List, ◌++◌, length, IfOk, IfSome};
ghost use Rattle.lat_outside.specs.Causes.{HasCause};
ghost use Rattle.lat_outside.specs.Visits.{GaveWithin};
ghost use Rattle.lat_control.specs.Clients.{IsFresh, got_bytes, taken_bytes};

use lat_outside::{CALLER_BYTES, CallerGot, Failed};

/// A client. No call waits longer than 10 ms. Its count of faults never falls, and a call answers `Failed` only where the count
/// rose, or stands at 2^64 - 1 already.
pub trait Client: Drop {
    // All that it gave so far, and all that was written to it, each in order.
    ghost given: { Self → List ℕ };

    ghost written: { Self → List ℕ };

    ghost faults: { Self → ℕ };

    /// Reads the next bytes into the front of the buffer.
    fn read(&mut self, buf: &mut [u8; CALLER_BYTES]) -> Result<CallerGot, Failed>
        ensures bound { IfOk result (λ got. GaveWithin got 1024) }
        ensures given { given self.new ≡ given self.old ++ got_bytes result buf.new }
        ensures written { written self.new ≡ written self.old }
        ensures cause { HasCause (faults self.old) (faults self.new) result };

    /// Writes from the front of the piece, and answers how many bytes were taken. `Failed` took none.
    fn write(&mut self, piece: &[u8]) -> Result<usize, Failed>
        ensures bound { IfOk result (λ n. n ≤ length piece.now) }
        ensures given { given self.new ≡ given self.old }
        ensures written { written self.new ≡ written self.old ++ taken_bytes result piece.now }
        ensures cause { HasCause (faults self.old) (faults self.new) result };
}

/// Where clients come to. No call waits. Its count of faults never falls, and an accept answers `Failed` only where the count
/// rose, or stands at 2^64 - 1 already.
pub trait Clients: Drop {
    type Client: Client;

    ghost faults: { Self → ℕ };

    /// Takes who knocks, if anybody does.
    fn accept(&mut self) -> Result<Option<Self::Client>, Failed>
        ensures fresh { IfOk result (λ comer. IfSome comer (λ client.
            IsFresh (Self.Client.given client) (Self.Client.written client))) }
        ensures cause { HasCause (faults self.old) (faults self.new) result };

    /// Hangs up a client. What was written to it still goes out.
    fn hang_up(&mut self, client: Self::Client)
        ensures { faults self.new ≡ faults self.old };

    /// Nobody can come any more.
    fn close(&mut self)
        ensures { faults self.old ≤ faults self.new };
}
