//! The call that does all that a daemon does once its words are read and its core is made.

ghost use Rattle.std.specs.Prelude.{◌≡◌, ◌≢◌, ◌⊎◌, ◌≤◌, length, IfOk, IfErr, OnOk, None, vec_len};
ghost use Rattle.lat_history.specs.Ledgers.{AreBlanks};
ghost use Rattle.lat_live.specs.Asked.{IsRefused, PlanRefused, asked_by};
ghost use Rattle.lat_history.specs.CellView.{IsEmpty};
ghost use Rattle.lat_live.specs.Opened.{IsNew, RoseIfRefused};
ghost use Rattle.lat_mind.specs.Good.{Each};
ghost use Rattle.lat_live.specs.Plans.{IsPlan};
ghost use Rattle.lat_live.specs.Printed.{IsOwn, RoseIn};
ghost use Rattle.lat_live.specs.Seating.{AreFresh, IsNothing};
ghost use Rattle.lat_live.specs.Served.{CoreHasPrinted, CoreIsBack};

use crate::logging::{Log, close, journal_of};
use crate::opening::{Refused, StartFault, open_carrier, open_lines};
use crate::plan::Plan;
use crate::running::run_all;
use crate::seats::{Given, Seated, take_seats};
use lat_base::{Core, Memory};
use lat_cell::{Blanks, Cell, LogWriter, print_end};
use lat_outside::{Callers, Clock, Gate, PortOpener, Rx, Sink, Tx};
use std::alloc::Global;
use std::sync::Wait;
use std::sync::ledger::Ledger;
use std::thread::Threads;

/// What came of it: the status, the cell, and what the seats gave back; and the port that couldn't be opened, if one couldn't.
#[derive(Drop)]
pub struct CoreServed<C: Core, T: Tx, L: Callers, E: Ledger, B: Ledger> {
    pub status: u8,
    pub refused: Option<Refused>,
    pub ran: Option<Cell<C, T, E, B>>,
    pub given: Given<L, E, B>,
}

// All that the workers need, and the memory for what they give back.
#[derive(Drop)]
struct Start<'a, 'l, C: Core, T: Tx, X: Rx, L: Callers, K: Clock, W: Sink, E: Ledger, B: Ledger> {
    cell: Cell<C, T, E, B>,
    rx: X,
    writer: LogWriter<'l, W>,
    seated: Seated<'a, L, K, E, B>,
    given: Given<L, E, B>,
}

// The carrier's two halves, and the lines by rising number.
#[derive(Drop)]
struct Outside<T: Tx, X: Rx, L: Callers> {
    tx: T,
    rx: X,
    lines: Vec<L>,
}

// Opens the carrier and the lines.
fn open_outside<O: PortOpener>(
    alloc: Global,
    plan: &Plan<'_>,
    opener: &mut O,
) -> Result<Outside<O::T, O::R, O::C>, StartFault>
    requires { IsPlan plan.now }
    ensures count { IfOk result (λ o. vec_len o.lines ≡ length plan.now.lines.now) }
    ensures new { IfOk result (λ o. Each (λ callers. IsNew (O.C.visits callers)) o.lines.items) }
    ensures asked { OnOk result (O.asked opener.new ≡ asked_by plan.now (O.asked opener.old)) }
    ensures refused { IfErr result (PlanRefused plan.now (O.asked opener.old) (O.asked opener.new)) }
    ensures later { O.faults opener.old ≤ O.faults opener.new }
    ensures cause { IfErr result (RoseIfRefused (O.faults opener.old) (O.faults opener.new)) }
{
    let (tx, rx) = open_carrier(opener, plan.own, plan.port, plan.peers)?;
    let lines = open_lines(alloc, opener, plan.lines)?;
    Ok(Outside { tx, rx, lines })
}

// Takes all memory for a core and what was opened for it.
fn started<
    'a,
    'l,
    C: Core,
    T: Tx,
    X: Rx,
    L: Callers,
    K: Clock + Copy,
    W: Sink,
    E: Ledger,
    B: Ledger,
>(
    alloc: Global,
    plan: &'a Plan<'a>,
    core: C,
    blanks: Blanks,
    outside: Outside<T, X, L>,
    clock: K,
    log: Log<'l, W>,
) -> Result<Start<'a, 'l, C, T, X, L, K, W, E, B>, Memory>
    requires made { C.made (C.opening core) }
    requires stands { C.stands core (C.opening core) }
    requires valid { C.valid core }
    requires plan { IsPlan plan.now }
    requires count { vec_len outside.lines ≡ length plan.now.lines.now }
    requires new { Each (λ callers. IsNew (L.visits callers)) outside.lines.items }
    requires blanks { AreBlanks blanks E.name E.parts B.name B.parts }
    ensures fresh { IfOk result (λ s. AreFresh L.visits plan.now s.seated s.given) }
    ensures cell { IfOk result (λ s.
        (s.cell.core ≡ core) × (s.cell.most ≡ plan.now.kept) × IsEmpty s.cell) }
{
    let Outside { tx, rx, lines } = outside;
    let given = Given::reserved(alloc, lines.len())?;
    let count = plan.lines.len() as u8;
    let (mut cell, shares) = Cell::make(alloc, core, tx, count, plan.kept, blanks)?;
    cell.keep_log(journal_of(alloc, plan)?);
    let seated = take_seats(alloc, plan, shares, lines, clock)?;
    let writer = log.writer(alloc, plan.name)?;
    Ok(Start {
        cell,
        rx,
        writer,
        seated,
        given,
    })
}

// Opens all, and takes all memory, where it was found for the core.
fn opened<'a, 'l, O: PortOpener, C: Core, K: Clock + Copy, W: Sink, E: Ledger, B: Ledger>(
    alloc: Global,
    plan: &'a Plan<'a>,
    core: Result<C, Memory>,
    blanks: Blanks,
    opener: &mut O,
    clock: K,
    log: Log<'l, W>,
) -> Result<Start<'a, 'l, C, O::T, O::R, O::C, K, W, E, B>, StartFault>
    requires made { IfOk core (λ c. C.made (C.opening c)) }
    requires stands { IfOk core (λ c. C.stands c (C.opening c)) }
    requires valid { IfOk core C.valid }
    requires plan { IsPlan plan.now }
    requires blanks { AreBlanks blanks E.name E.parts B.name B.parts }
    ensures fresh { IfOk result (λ s. AreFresh O.C.visits plan.now s.seated s.given) }
    ensures asked { OnOk result (O.asked opener.new ≡ asked_by plan.now (O.asked opener.old)) }
    ensures refused { IfErr result (PlanRefused plan.now (O.asked opener.old) (O.asked opener.new)) }
    ensures cause { IfErr result (RoseIfRefused (O.faults opener.old) (O.faults opener.new)) }
{
    let core = core?;
    let outside = open_outside(alloc, plan, opener)?;
    Ok(started(alloc, plan, core, blanks, outside, clock, log)?)
}

// Nothing ran.
fn not_run<C: Core, T: Tx, L: Callers, E: Ledger, B: Ledger>(
    alloc: Global,
    status: u8,
    refused: Option<Refused>,
) -> CoreServed<C, T, L, E, B>
    ensures ran { (result.status ≡ status) × (result.ran ≡ None) }
    ensures refused { result.refused ≡ refused }
    ensures given { IsNothing result.given }
{
    CoreServed {
        status,
        refused,
        ran: None,
        given: Given::none(alloc),
    }
}

// Runs all workers until each has ended, and prints what came of it.
fn run_started<
    'a,
    C: Core + Send,
    T: Tx + Send,
    X: Rx + Send,
    L: Callers + Send,
    K: Clock + Copy + Send,
    G: Gate + Sync,
    W: Sink + Send,
    S: Sink,
    E: Ledger + Sync,
    B: Ledger + Sync,
    R: Threads + Wait + Sync,
>(
    rt: &R,
    alloc: Global,
    plan: &'a Plan<'a>,
    start: Start<'a, '_, C, T, X, L, K, W, E, B>,
    clock: K,
    gate: &G,
    out: &mut S,
) -> CoreServed<C, T, L, E, B>
    requires plan { IsPlan plan.now }
    requires fresh { AreFresh L.visits plan.now start.seated start.given }
    ensures ended { CoreHasPrinted S.written S.faults out.old out.new result }
    ensures back { CoreIsBack L.visits (length plan.now.lines.now) result }
    ensures own { IsOwn result.status ⊎ (result.status ≡ 5) }
    ensures other { result.status ≢ 4 }
    ensures sink { result.status ≡ 5 → RoseIn S.faults out.old out.new }
    ensures memory { result.status ≡ 9 → S.written out.new ≡ S.written out.old }
    ensures ran { result.ran ≢ None }
    ensures refused { result.refused ≡ None }
{
    let Start {
        cell,
        rx,
        mut writer,
        seated,
        given,
    } = start;
    let course = plan.course;
    let (mut cell, seated) = run_all(
        rt,
        alloc,
        cell,
        rx,
        seated,
        clock,
        clock,
        gate,
        course,
        &mut writer,
    );
    close(alloc, &mut cell, &mut writer);
    let given = given.filled(seated);
    let (shares, ends) = (given.shares.as_slice(), given.ends.as_slice());
    let status = print_end(alloc, &cell, shares, ends, out);
    CoreServed {
        status,
        refused: None,
        ran: Some(cell),
        given,
    }
}

/// Opens the carrier and then the lines by rising number, runs all workers of a cell round the core at once until each has ended,
/// and prints what came of it. Beside them a worker writes the log. It may wait, and its return isn't promised. The core is as it
/// was made; where no memory was found for it, nothing is opened.
///
/// The status is 4 exactly where the opener refused a port, which is told then, with nothing written, and its count of faults rose;
/// 9 for want of memory; else that of the text, which is printed of the cell, the shares and the ends that are handed back. No cell
/// is handed back only at 4 and 9.
pub fn serve_core<
    'a,
    O: PortOpener,
    C: Core + Send,
    K: Clock + Copy + Send,
    G: Gate + Sync,
    W: Sink + Send,
    S: Sink,
    E: Ledger + Sync,
    B: Ledger + Sync,
    R: Threads + Wait + Sync,
>(
    rt: &R,
    alloc: Global,
    plan: &'a Plan<'a>,
    core: Result<C, Memory>,
    blanks: Blanks,
    opener: &mut O,
    clock: K,
    gate: &G,
    log: Log<'_, W>,
    out: &mut S,
) -> CoreServed<C, O::T, O::C, E, B>
    requires made { IfOk core (λ c. C.made (C.opening c)) }
    requires stands { IfOk core (λ c. C.stands c (C.opening c)) }
    requires valid { IfOk core C.valid }
    requires plan { IsPlan plan.now }
    requires blanks { AreBlanks blanks E.name E.parts B.name B.parts }
    ensures ended { CoreHasPrinted S.written S.faults out.old out.new result }
    ensures back { CoreIsBack O.C.visits (length plan.now.lines.now) result }
    ensures own { IsOwn result.status ⊎ ((result.status ≡ 4) ⊎ (result.status ≡ 5)) }
    ensures opener { result.status ≡ 4 → RoseIn O.faults opener.old opener.new }
    ensures refused { IsRefused plan.now (O.asked opener.old) (O.asked opener.new) result.status result.refused }
    ensures asked { result.ran ≢ None → O.asked opener.new ≡ asked_by plan.now (O.asked opener.old) }
    ensures sink { result.status ≡ 5 → RoseIn S.faults out.old out.new }
    ensures silent { result.status ≡ 4 → S.written out.new ≡ S.written out.old }
    ensures memory { result.status ≡ 9 → S.written out.new ≡ S.written out.old }
    ensures none { result.ran ≡ None → (result.status ≡ 4) ⊎ (result.status ≡ 9) }
    ensures empty { result.ran ≡ None → IsNothing result.given }
{
    match opened::<O, C, K, W, E, B>(alloc, plan, core, blanks, opener, clock, log) {
        Ok(start) => run_started(rt, alloc, plan, start, clock, gate, out),
        Err(StartFault::Refused(refused)) => not_run(alloc, 4, Some(refused)),
        Err(StartFault::Memory) => not_run(alloc, 9, None),
    }
}
