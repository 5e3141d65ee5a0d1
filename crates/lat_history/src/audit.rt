//! Each seat's counts in the history against its share.

ghost use Rattle.std.specs.Prelude.{◌≡◌, ◌<◌, ℕ, Err, Some, None, IsOk, OnOk};
ghost use Rattle.lat_history.specs.Audits.{share_events, share_bytes, differs, seat_fault, audit_of};
ghost use Rattle.lat_history.specs.Audits.{SeatAgrees, IsFirstToDiffer};

use crate::cell::Cell;
use crate::fault::SeatFault;
use crate::share::LineShare;
use lat_base::Core;
use lat_outside::Tx;
use lat_past::{History, SEATS};
use std::sync::ledger::Ledger;

// The share of this seat.
fn counts_of<E: Ledger, B: Ledger>(at: u8, shares: &[LineShare<E, B>]) -> (u64, u64)
    ensures events { result.0 ≡ share_events at shares.now }
    ensures bytes { result.1 ≡ share_bytes at shares.now }
{
    for s in shares {
        if s.seat() == at {
            return (s.events(), s.bytes());
        }
    }
    (0, 0)
}

fn differs(seat: u8, kept: u64, share: u64) -> Option<SeatFault>
    ensures { result ≡ differs seat kept share }
{
    if kept == share {
        return None;
    }
    Some(SeatFault { seat, kept, share })
}

fn seat_fault<E: Ledger, B: Ledger>(
    seat: u8,
    history: &History,
    shares: &[LineShare<E, B>],
) -> Option<SeatFault>
    ensures { result ≡ seat_fault seat history.now.items shares.now }
{
    let kept = history.of_seat(seat);
    let (events, bytes) = counts_of(seat, shares);
    match differs(seat, kept.events, events) {
        Some(fault) => Some(fault),
        None => differs(seat, kept.bytes, bytes),
    }
}

fn audited<E: Ledger, B: Ledger>(history: &History, shares: &[LineShare<E, B>]) -> Option<SeatFault>
    ensures { result ≡ audit_of history.now.items shares.now }
{
    for seat in 0..SEATS {
        if let Some(fault) = seat_fault(seat, history, shares) {
            return Some(fault);
        }
    }
    None
}

impl<C: Core, T: Tx, E: Ledger, B: Ledger> Cell<C, T, E, B> {
    /// Whether each seat did in the history just what its share says: the events, and the bytes put, of each seat from 0 to 65
    /// are those of the entry with this seat, 0 where there is none. Else the first pair that differs, events before bytes. It
    /// walks over no history.
    pub fn audit(&self, shares: &[LineShare<E, B>]) -> Result<(), SeatFault>
        ensures fault { (f : SeatFault) → result ≡ Err f →
            audit_of self.now.history shares.now ≡ Some f }
        ensures ok { OnOk result (audit_of self.now.history shares.now ≡ None) }
        ensures agrees { OnOk result ((seat : ℕ) → seat < 66 →
            SeatAgrees self.now.history shares.now seat) }
        ensures only { ((seat : ℕ) → seat < 66 → SeatAgrees self.now.history shares.now seat) →
            IsOk result }
        ensures first { (f : SeatFault) → result ≡ Err f →
            IsFirstToDiffer self.now.history shares.now f }
    {
        match audited(&self.history, shares) {
            Some(fault) => Err(fault),
            None => Ok(()),
        }
    }
}
