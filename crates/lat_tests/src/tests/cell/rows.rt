//! One cell after another, without threads.

ghost use Rattle.std.specs.Prelude.{◌≤◌};
ghost use Rattle.lat_history.specs.Ledgers.{AreBlanks};

use super::echo::Echo;
use super::outside::FailingTx;
use lat_base::{Bytes, Core, Event};
use lat_cell::{Blanks, Cell, CellFault, LineShare, Receipt, SeatFault};
use lat_outside::{MemTx, Tx};
use lat_past::{Entry, SeatTotals, seat};
use std::alloc::Global;
use std::marker::Brand;
use std::sync::atomic::{AtomicU64, Ordering};
use std::sync::ledger::Ledger;

/// How many entries the cells keep, where it doesn't matter.
const KEPT: usize = 2;

// A cell with one line, and the shares of wire, line and clock.
#[derive(Drop)]
struct OpenCell<T: Tx, E: Ledger, B: Ledger> {
    cell: Cell<Echo, T, E, B>,
    wire: LineShare<E, B>,
    line: LineShare<E, B>,
    clock: LineShare<E, B>,
}

fn make_cell<T: Tx, E: Ledger, B: Ledger>(
    alloc: Global,
    tx: T,
    most: usize,
    blanks: Blanks,
) -> Option<OpenCell<T, E, B>>
    requires most { most ≤ 1000000 }
    requires blanks { AreBlanks blanks E.name E.parts B.name B.parts }
{
    let (cell, shares) = Cell::<Echo, T, E, B>::make(alloc, Echo::new(), tx, 1, most, blanks).ok()?;
    let mut shares = shares.into_vec();
    let (clock, line, wire) = (shares.pop()?, shares.pop()?, shares.pop()?);
    Some(OpenCell {
        cell,
        wire,
        line,
        clock,
    })
}

// Applies an event of the share's seat.
fn act<C: Core, T: Tx, E: Ledger, B: Ledger>(
    alloc: Global,
    cell: &mut Cell<C, T, E, B>,
    share: &mut LineShare<E, B>,
    event: Event,
) -> Result<Receipt, CellFault> {
    if seat(&event) != share.seat() {
        return Err(CellFault::Memory);
    }
    cell.apply(alloc, event, share)
}

// What a cell has behind so many time events and a put on line 1.
#[derive(Debug, Drop, PartialEq)]
struct Passed {
    events: u64,
    kept: usize,
    /// The moment of the oldest entry that is kept.
    oldest: Option<u64>,
    line: SeatTotals,
    agrees: bool,
}

// Tells a cell of so many moments.
fn pass<C: Core, T: Tx, E: Ledger, B: Ledger>(
    alloc: Global,
    cell: &mut Cell<C, T, E, B>,
    clock: &mut LineShare<E, B>,
    times: u64,
) -> Option<()> {
    for now in 0..times {
        act(alloc, cell, clock, Event::Time { now }).ok()?;
    }
    Some(())
}

// The moment of a time event.
fn moment_of(entry: &Entry) -> Option<u64> {
    match entry.event {
        Event::Time { now } => Some(now),
        _ => None,
    }
}

fn pass_year<E: Ledger, B: Ledger>(
    alloc: Global,
    times: u64,
    most: usize,
    blanks: Blanks,
) -> Option<Passed>
    requires most { most ≤ 1000000 }
    requires blanks { AreBlanks blanks E.name E.parts B.name B.parts }
{
    let tx = MemTx::new(alloc, &[]);
    let OpenCell {
        mut cell,
        wire,
        mut line,
        mut clock,
    } = make_cell::<MemTx, E, B>(alloc, tx, most, blanks)?;
    pass(alloc, &mut cell, &mut clock, times)?;
    let bytes = Bytes::copy(alloc, &[7; 150]).ok()?;
    act(alloc, &mut cell, &mut line, Event::Put { line: 1, bytes }).ok()?;
    let (front, back) = cell.entries();
    let kept = front.len().checked_add(back.len())?;
    let oldest = moment_of(front.first()?);
    let mut shares = Vec::new(alloc);
    shares.push(wire).ok()?;
    shares.push(line).ok()?;
    shares.push(clock).ok()?;
    Some(Passed {
        events: cell.len(),
        kept,
        oldest,
        line: cell.of_seat(1),
        agrees: cell.audit(shares.as_slice()).is_ok(),
    })
}

// What an audit says of three time events and two takes: with all shares, and without the line's.
fn audited<E: Ledger, B: Ledger>(alloc: Global, blanks: Blanks) -> Option<(bool, Option<SeatFault>)>
    requires blanks { AreBlanks blanks E.name E.parts B.name B.parts }
{
    let tx = MemTx::new(alloc, &[]);
    let OpenCell {
        mut cell,
        wire,
        mut line,
        mut clock,
    } = make_cell::<MemTx, E, B>(alloc, tx, KEPT, blanks)?;
    pass(alloc, &mut cell, &mut clock, 3)?;
    for _ in 0..2 {
        let take = Event::Take { line: 1, n: 5 };
        act(alloc, &mut cell, &mut line, take).ok()?;
    }
    let mut shares = Vec::new(alloc);
    shares.push(wire).ok()?;
    shares.push(clock).ok()?;
    let without = cell.audit(shares.as_slice()).err();
    shares.push(line).ok()?;
    Some((cell.audit(shares.as_slice()).is_ok(), without))
}

// Puts three bytes, and tells how many events there are.
fn put_three<T: Tx, E: Ledger, B: Ledger>(alloc: Global, tx: T, blanks: Blanks) -> Option<u64>
    requires blanks { AreBlanks blanks E.name E.parts B.name B.parts }
{
    let OpenCell {
        mut cell,
        mut line,
        ..
    } = make_cell::<T, E, B>(alloc, tx, KEPT, blanks)?;
    for byte in *b"abc" {
        let bytes = Bytes::copy(alloc, &[byte]).ok()?;
        act(alloc, &mut cell, &mut line, Event::Put { line: 1, bytes }).ok()?;
    }
    Some(cell.len())
}

// The bytes of the frames tried, where the send of this number fails, and how many events there are.
fn tried<E: Ledger, B: Ledger>(alloc: Global, fails: u64, blanks: Blanks) -> Option<(u64, u64)>
    requires blanks { AreBlanks blanks E.name E.parts B.name B.parts }
{
    let tried = AtomicU64::new(0);
    let tx = FailingTx {
        tried: &tried,
        fails,
        sends: 0,
        faults: 0,
    };
    let events = put_three::<FailingTx, E, B>(alloc, tx, blanks)?;
    Some((tried.load(Ordering::SeqCst), events))
}

#[test]
fn cells(rt: HostRuntime) {
    let alloc = rt.alloc();
    let line = SeatTotals {
        events: 1,
        bytes: 1,
        items: 0,
    };
    for (times, most, kept, oldest) in [(5, 3, 3, 3), (2_000_000, 1000, 1000, 1_999_001)] {
        let came = pass_year::<Brand, Brand>(alloc, times, most, Blanks::new());
        let due = Passed {
            events: times.saturating_add(1),
            kept,
            oldest: Some(oldest),
            line,
            agrees: true,
        };
        assert_eq!(rt; came, Some(due));
    }
    let left_out = SeatFault {
        seat: 1,
        kept: 2,
        share: 0,
    };
    let came = audited::<Brand, Brand>(alloc, Blanks::new());
    assert_eq!(rt; came, Some((true, Some(left_out))));
    for fails in 0..4 {
        let came = tried::<Brand, Brand>(alloc, fails, Blanks::new());
        assert_eq!(rt; came, Some((0x61_62_63, 3)));
    }
}
