//! The last text.

ghost use Rattle.std.specs.Prelude.{◌≡◌, ◌≤◌, ◌++◌, length, OnOk, IfOk, string_bytes};
ghost use Rattle.lat_history.specs.Audits.{audit_of};
ghost use Rattle.lat_cell.specs.EndText.{word_of, line_text, lines_text, end_text, fault_text, shown_of, status_of, Ended};

use lat_base::Core;
use lat_history::{Cell, LineShare, SeatFault};
use lat_outside::{Sink, Tx, write_all};
use lat_past::SeatTotals;
use lat_turns::LineDone;
use std::alloc::{AllocError, Global};
use std::sync::ledger::Ledger;

fn word_of(done: LineDone) -> &'static str
    ensures { result.now ≡ word_of done }
{
    match done {
        LineDone::End => "end",
        LineDone::CountsOut(_) => "counts-out",
    }
}

// Adds the text of one line, of which this was done.
fn line_onto(text: &mut String, k: u8, totals: SeatTotals, done: LineDone) -> Result<(), AllocError>
    ensures { OnOk result (string_bytes text.new
        ≡ string_bytes text.old ++ line_text k totals.bytes totals.items done) }
{
    let put = totals.bytes;
    let took = totals.items;
    let word = word_of(done);
    write!(text, "line {k} put {put} took {took} end {word}\n")
}

fn end_text<C: Core, T: Tx, E: Ledger, B: Ledger>(
    alloc: Global,
    cell: &Cell<C, T, E, B>,
    ends: &[LineDone],
) -> Result<String, AllocError>
    requires { length ends.now ≤ 64 }
    ensures { IfOk result (λ t. string_bytes t ≡ end_text cell.now.history ends.now) }
{
    let n = cell.len();
    let mut text = format!(in alloc; "events {n}\n")?;
    let mut k = 1;
    for done in ends {
        line_onto(&mut text, k, cell.of_seat(k), *done)?;
        k += 1;
    }
    Ok(text)
}

fn fault_text(alloc: Global, fault: SeatFault) -> Result<String, AllocError>
    ensures { IfOk result (λ t. string_bytes t ≡ fault_text fault) }
{
    let SeatFault { seat, kept, share } = fault;
    format!(in alloc; "seat {seat} kept {kept} share {share}\n")
}

/// Prints what the cell's history tells, from its first event on: how many events it has, and for each of the lines, from 1 on,
/// how many bytes it put, how many items it took, and how its worker ended. Where the audit with these shares is refused, it prints
/// the first seat that differs instead. There are at most 64 ends. It goes by the counts, and walks over no history.
///
/// It answers 7 where the audit is refused, else 0; 5 only where the sink's count of faults rose, with a prefix written; 9 for want
/// of memory, with nothing written. It makes its whole text before it writes.
pub fn print_end<C: Core, T: Tx, K: Sink, E: Ledger, B: Ledger>(
    alloc: Global,
    cell: &Cell<C, T, E, B>,
    shares: &[LineShare<E, B>],
    ends: &[LineDone],
    out: &mut K,
) -> u8
    requires { length ends.now ≤ 64 }
    ensures { Ended (K.written out.old) (K.written out.new) (K.faults out.old)
        (K.faults out.new) cell.now.history shares.now ends.now result }
{
    let (made, status) = match cell.audit(shares) {
        Err(fault) => (fault_text(alloc, fault), 7),
        Ok(()) => (end_text(alloc, cell, ends), 0),
    };
    let Ok(text) = made else {
        return 9;
    };
    match write_all(out, text.as_bytes()) {
        Ok(()) => status,
        Err(_) => 5,
    }
}
