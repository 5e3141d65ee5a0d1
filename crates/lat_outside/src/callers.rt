//! A line's way to its callers, who come and go.

ghost use Rattle.std.specs.Prelude.{◌≡◌, ◌≢◌, ℕ, ◌≤◌, length, IfOk, IsErr, None};
ghost use Rattle.lat_outside.specs.Causes.{HasCause};
ghost use Rattle.lat_outside.specs.Visits.{GaveWithin, GivesAs, MayAccept, MayAnswer, StaysAs, TakesAs, VisitsView, accepted, dialled_at, hung_up, read_by, watched_by, with_present, written_by};

use crate::outside::Failed;

/// The most bytes of one read.
pub const CALLER_BYTES: usize = 1024;

/// What came of an accept.
#[derive(Clone, Copy, Debug, PartialEq, Eq)]
pub enum Knock {
    /// A caller has the line.
    Came,
    /// Nobody knocks.
    Quiet,
}

/// What a caller gave.
#[derive(Clone, Copy, Debug, PartialEq, Eq)]
pub enum CallerGot {
    /// So many bytes, at the front of the buffer, one at least.
    Bytes(usize),
    /// Nothing by now.
    Quiet,
    /// It gives no more.
    Ended,
}

/// Whether a caller stays.
#[derive(Clone, Copy, Debug, PartialEq, Eq)]
pub enum Presence {
    /// It stays, as far as is known.
    Stays,
    /// It gives no more than what wasn't read yet.
    Leaves,
}

/// A line's way to its callers. One of them has the line at a time; while it is one that was dialled, another may wait beside it.
/// No call waits for a caller: an accept, a read and a watch answer at once, a write within 10 ms, a dial within a second. Its
/// count of faults never falls, and a call answers `Failed` only where the count rose, or stands at 2^64 - 1 already.
pub trait Callers: Drop {
    // All its callers so far: what each gave and was written.
    ghost visits: { Self → VisitsView };

    ghost faults: { Self → ℕ };

    /// Takes who knocks at the line's port; nobody where the line has a caller or doesn't listen. `Quiet` and `Failed` took nobody.
    fn accept(&mut self) -> Result<Knock, Failed>
        ensures visits { visits self.new ≡ accepted (visits self.old) result }
        ensures may { MayAccept (visits self.old) result }
        ensures cause { HasCause (faults self.old) (faults self.new) result };

    /// Dials this port on the loopback address. Who answers has the line, and who had it waits beside. `Failed` where nobody
    /// answers within a second, and where one waits beside already.
    fn dial(&mut self, port: u16) -> Result<(), Failed>
        ensures visits { visits self.new ≡ dialled_at (visits self.old) port result }
        ensures full { (visits self.old).beside ≢ None → IsErr result }
        ensures cause { HasCause (faults self.old) (faults self.new) result };

    /// Reads the next bytes of who has the line into the front of the buffer. `Failed` where nobody has it, or its connection
    /// failed, now or before. Behind `Ended` no byte comes any more.
    fn read(&mut self, buf: &mut [u8; CALLER_BYTES]) -> Result<CallerGot, Failed>
        ensures bound { IfOk result (λ got. GaveWithin got 1024) }
        ensures visits { visits self.new ≡ with_present (visits self.old) (read_by result buf.new) }
        ensures may { MayAnswer GivesAs (visits self.old) result }
        ensures cause { HasCause (faults self.old) (faults self.new) result };

    /// Writes to who has the line, from the front of the piece, as much as is taken within 10 ms, and answers how many bytes.
    /// `Failed` where nobody has it, or its connection failed, now or before; then none was written.
    fn write(&mut self, piece: &[u8]) -> Result<usize, Failed>
        ensures bound { IfOk result (λ n. n ≤ length piece.now) }
        ensures visits { visits self.new ≡ with_present (visits self.old) (written_by result piece.now) }
        ensures may { MayAnswer TakesAs (visits self.old) result }
        ensures cause { HasCause (faults self.old) (faults self.new) result };

    /// Whether who has the line stays. It takes no byte. `Leaves` as soon as 1,024 bytes show it, and then never `Stays` any
    /// more. `Failed` as at a read.
    fn watch(&mut self) -> Result<Presence, Failed>
        ensures visits { visits self.new ≡ with_present (visits self.old) (watched_by result) }
        ensures may { MayAnswer StaysAs (visits self.old) result }
        ensures cause { HasCause (faults self.old) (faults self.new) result };

    /// Hangs up who has the line, and frees all that it had. Who waited beside has the line then. Where nobody has it, nothing
    /// changes.
    fn hang_up(&mut self)
        ensures visits { visits self.new ≡ hung_up (visits self.old) }
        ensures faults { faults self.new ≡ faults self.old };

    /// Takes who else knocks at the line's port, at most 16, and closes them at once. It answers how many.
    fn turn_away(&mut self) -> usize
        ensures visits { visits self.new ≡ visits self.old }
        ensures most { result ≤ 16 }
        ensures deaf { (visits self.old).port ≡ None → result ≡ 0 }
        ensures faults { faults self.old ≤ faults self.new };
}
