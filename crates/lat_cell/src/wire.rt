//! The wire's worker.

ghost use Rattle.std.specs.Prelude.{◌≡◌, ◌≤◌, IfOk, OnErr};
ghost use Rattle.lat_cell.specs.Refusals.{HasCause};
ghost use Rattle.lat_cell.specs.Wires.{heard_event};
ghost use Rattle.lat_history.specs.Asked.{Tried};
ghost use Rattle.lat_history.specs.History.{state_of};
ghost use Rattle.lat_outside.specs.Carriers.{frame_bytes};

use lat_base::{Bytes, Core, Event, PAYLOAD_BYTES};
use lat_history::{Cell, CellFault, LineShare};
use lat_outside::{Failed, Got, Rx, Tx};
use std::alloc::Global;
use std::sync::ledger::Ledger;
use std::sync::{Mutex, Wait};

/// Applies what the wire brought, with the cell's moment: a frame whole, and nothing where none came or the read failed. It
/// tells the event's place.
pub fn hear<C: Core, T: Tx, E: Ledger, B: Ledger>(
    alloc: Global,
    cell: &mut Cell<C, T, E, B>,
    share: &mut LineShare<E, B>,
    got: Result<Got, Failed>,
    buf: &[u8; PAYLOAD_BYTES],
) -> Result<Option<u64>, CellFault>
    requires seat { share.old.seat ≡ 0 }
    requires bound { IfOk got (λ g. frame_bytes g ≤ 1500) }
    ensures tried { Tried C.opening C.next C.answer cell.old cell.new
        (heard_event got buf.now (C.moment_of (state_of C.opening C.next cell.old))) result }
    ensures cause { HasCause cell.old
        (heard_event got buf.now (C.moment_of (state_of C.opening C.next cell.old))) result }
    ensures refused { OnErr result (share.new ≡ share.old) }
    ensures seat { (share.new.seat ≡ share.old.seat) × (share.new.parts ≡ share.old.parts) }
{
    match got {
        Ok(Got::Frame { from, len }) => {
            let payload = Bytes::copy(alloc, &buf[..len as usize])?;
            let now = cell.moment();
            let event = Event::Heard { from, payload, now };
            Ok(Some(cell.apply(alloc, event, share)?.place))
        }
        Ok(Got::Quiet) | Err(Failed) => Ok(None),
    }
}

/// Applies what the wire brings, until the daemon has ended. A frame whose event is refused is left out. A read that fails is counted by
/// the carrier alone: it brings nothing, as a quiet one, and the next follows at once. The worker itself never pauses, so a carrier
/// whose every read fails without waiting is read without rest until then.
pub fn wire_worker<C: Core, T: Tx, X: Rx, E: Ledger, B: Ledger, R: Wait>(
    rt: &R,
    alloc: Global,
    cell: &Mutex<Cell<C, T, E, B>>,
    share: LineShare<E, B>,
    rx: X,
) -> LineShare<E, B>
    requires { share.seat ≡ 0 }
    ensures { (result.seat ≡ share.seat) × (result.parts ≡ share.parts) }
{
    let mut share = share;
    let mut rx = rx;
    let mut buf = [0; PAYLOAD_BYTES];
    for _ in rt.forever() {
        if cell.lock(rt).is_over() {
            return share;
        }
        let got = rx.recv(&mut buf);
        let _ = hear(alloc, &mut cell.lock(rt), &mut share, got, &buf);
    }
    unreachable!()
}
