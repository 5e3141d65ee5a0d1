//! The workers in threads.

ghost use Rattle.std.specs.Prelude.{◌≡◌, ◌<◌, vec_len};
ghost use Rattle.lat_mind.specs.Good.{Each};
ghost use Rattle.lat_live.specs.Seating.{EachPair, IsWorked, MayWork, SamePlace};

use crate::seats::Seated;
use lat_base::Core;
use lat_cell::{Cell, Course, LineShare, LogWriter, log_worker, time_worker, wire_worker};
use lat_outside::{Callers, Clock, Gate, Rx, Sink, Tx};
use lat_turns::LineWorker;
use std::alloc::Global;
use std::sync::ledger::Ledger;
use std::sync::{Mutex, Wait};
use std::thread;
use std::thread::Threads;

// Works all lines at once.
fn crew<
    'a,
    C: Core + Send,
    T: Tx + Send,
    L: Callers + Send,
    K: Clock + Send,
    G: Gate + Sync,
    E: Ledger + Sync,
    B: Ledger + Sync,
    R: Threads + Wait + Sync,
>(
    rt: &R,
    alloc: Global,
    cell: &Mutex<Cell<C, T, E, B>>,
    seats: Vec<LineWorker<'a, L, K, E, B>>,
    gate: &G,
) -> Vec<LineWorker<'a, L, K, E, B>>
    requires some { 0 < vec_len seats }
    requires may { Each MayWork seats.items }
    ensures count { vec_len result ≡ vec_len seats.entry }
    ensures worked { EachPair (IsWorked L.visits) seats.entry.items result.items }
{
    let mut seats = seats;
    let count = seats.len();
    thread::for_each_mut(
        rt,
        seats.as_mut_slice(),
        count,
        &|_, seat|
            requires { MayWork seat.now }
            ensures { IsWorked L.visits seat.entry.now seat.exit.now }
        { seat.work(rt, alloc, cell, gate) },
    );
    seats
}

// Works all lines at once, and says behind them that the daemon is to end.
fn crew_then_stop<
    'a,
    C: Core + Send,
    T: Tx + Send,
    L: Callers + Send,
    K: Clock + Send,
    G: Gate + Sync,
    E: Ledger + Sync,
    B: Ledger + Sync,
    R: Threads + Wait + Sync,
>(
    rt: &R,
    alloc: Global,
    cell: &Mutex<Cell<C, T, E, B>>,
    seats: Vec<LineWorker<'a, L, K, E, B>>,
    gate: &G,
) -> Vec<LineWorker<'a, L, K, E, B>>
    requires some { 0 < vec_len seats }
    requires may { Each MayWork seats.items }
    ensures count { vec_len result ≡ vec_len seats.entry }
    ensures worked { EachPair (IsWorked L.visits) seats.entry.items result.items }
{
    let seats = crew(rt, alloc, cell, seats, gate);
    cell.lock(rt).stop();
    seats
}

// The wire's worker and the clock's.
fn outside<
    C: Core + Send,
    T: Tx + Send,
    X: Rx + Send,
    K: Clock + Send,
    E: Ledger + Sync,
    B: Ledger + Sync,
    R: Threads + Wait + Sync,
>(
    rt: &R,
    alloc: Global,
    cell: &Mutex<Cell<C, T, E, B>>,
    wire: LineShare<E, B>,
    rx: X,
    time: LineShare<E, B>,
    clock: K,
    course: Course,
) -> (LineShare<E, B>, LineShare<E, B>)
    requires { (wire.seat ≡ 0) × (time.seat ≡ 65) }
    ensures { SamePlace wire result.0 × SamePlace time result.1 }
{
    thread::join(
        rt,
        move ||
            requires { wire.seat ≡ 0 }
        { wire_worker(rt, alloc, cell, wire, rx) },
        move ||
            requires { time.seat ≡ 65 }
        { time_worker(rt, alloc, cell, time, clock, course) },
    )
}

// The same, and the log's worker.
fn beside_log<
    C: Core + Send,
    T: Tx + Send,
    X: Rx + Send,
    K: Clock + Send,
    W: Sink + Send,
    E: Ledger + Sync,
    B: Ledger + Sync,
    R: Threads + Wait + Sync,
>(
    rt: &R,
    alloc: Global,
    cell: &Mutex<Cell<C, T, E, B>>,
    wire: LineShare<E, B>,
    rx: X,
    time: LineShare<E, B>,
    clock: K,
    log_clock: K,
    course: Course,
    writer: &mut LogWriter<'_, W>,
) -> (LineShare<E, B>, LineShare<E, B>)
    requires { (wire.seat ≡ 0) × (time.seat ≡ 65) }
    ensures { SamePlace wire result.0 × SamePlace time result.1 }
{
    let (shares, ()) = thread::join(
        rt,
        move ||
            requires { (wire.seat ≡ 0) × (time.seat ≡ 65) }
        { outside(rt, alloc, cell, wire, rx, time, clock, course) },
        move || log_worker(rt, alloc, cell, log_clock, writer),
    );
    shares
}

/// Runs all workers at once until each has ended, and takes the cell out of its lock.
pub fn run_all<
    'a,
    C: Core + Send,
    T: Tx + Send,
    X: Rx + Send,
    L: Callers + Send,
    K: Clock + Send,
    G: Gate + Sync,
    W: Sink + Send,
    E: Ledger + Sync,
    B: Ledger + Sync,
    R: Threads + Wait + Sync,
>(
    rt: &R,
    alloc: Global,
    cell: Cell<C, T, E, B>,
    rx: X,
    seated: Seated<'a, L, K, E, B>,
    clock: K,
    log_clock: K,
    gate: &G,
    course: Course,
    writer: &mut LogWriter<'_, W>,
) -> (Cell<C, T, E, B>, Seated<'a, L, K, E, B>)
    requires some { 0 < vec_len seated.lines }
    requires may { Each MayWork seated.lines.items }
    requires seats { (seated.wire.seat ≡ 0) × (seated.clock.seat ≡ 65) }
    ensures around { SamePlace seated.entry.wire result.1.wire
        × SamePlace seated.entry.clock result.1.clock }
    ensures lines { EachPair (IsWorked L.visits) seated.entry.lines.items result.1.lines.items }
    ensures count { vec_len result.1.lines ≡ vec_len seated.entry.lines }
{
    let Seated {
        wire,
        lines,
        clock: time,
    } = seated;
    let cell = Mutex::new(cell);
    let shared = &cell;
    let ((wire, time), lines) = thread::join(
        rt,
        move ||
            requires { (wire.seat ≡ 0) × (time.seat ≡ 65) }
        {
            beside_log(
                rt, alloc, shared, wire, rx, time, clock, log_clock, course, writer,
            )
        },
        move ||
            requires some { 0 < vec_len lines }
            requires may { Each MayWork lines.items }
        { crew_then_stop(rt, alloc, shared, lines, gate) },
    );
    let seated = Seated {
        wire,
        lines,
        clock: time,
    };
    (cell.into_inner(), seated)
}
