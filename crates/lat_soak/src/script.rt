//! The blocks of a script, in order.

ghost use Rattle.std.specs.Prelude.{◌≤◌};
ghost use Rattle.lat_history.specs.Ledgers.{AreBlanks};

use crate::order::Order;
use crate::sponge::Sponge;
use crate::told::{Kind, MOST_BYTES, Told};
use lat_base::Memory;
use lat_history::{Blanks, Cell};
use lat_outside::MemTx;
use lat_past::CLOCK;
use lat_script::{Part, ScriptFault, line_behind, no_command, number_within, refused_onto, word};
use std::alloc::Global;
use std::marker::Brand;
use std::sync::ledger::Ledger;

/// The most events that one line tells.
const MOST_EVENTS: u64 = 100_000_000;

// How long the payloads of a line are.
fn length_at(line: &str) -> Result<usize, ScriptFault> {
    Ok(number_within(0, MOST_BYTES as u64, line, 2)? as usize)
}

// What a line tells the cell.
fn act<E: Ledger, B: Ledger>(
    alloc: Global,
    told: &mut Told<'_, E, B>,
    line: &str,
) -> Result<(), ScriptFault> {
    let kind = match word(line, 0) {
        "time" => Kind::Time,
        "heard" => Kind::Heard(length_at(line)?),
        "put" => Kind::Put(length_at(line)?),
        "take" => Kind::Take,
        _ => return Err(no_command(0)),
    };
    let count = number_within(0, MOST_EVENTS, line, 1)?;
    Ok(told.tell_all(alloc, kind, count)?)
}

// The entries that are kept.
fn kept_onto<E: Ledger, B: Ledger>(text: &mut String, told: &Told<'_, E, B>) -> Result<(), Memory> {
    let mut order = Order::new();
    let (front, back) = told.cell.entries();
    order.look(front);
    order.look(back);
    let kept = order.kept;
    write!(text, "kept {kept}")?;
    if let (Some(first), Some(last)) = (order.first, order.last) {
        write!(text, " from {first} to {last}")?;
    }
    if let Some(number) = order.astray {
        write!(text, " astray {number}")?;
    }
    Ok(text.push_str("\n")?)
}

// What is counted of the history, and what is kept of it.
fn counts_onto<E: Ledger, B: Ledger>(
    text: &mut String,
    told: &Told<'_, E, B>,
) -> Result<(), Memory> {
    let events = told.cell.len();
    write!(text, "events {events}\n")?;
    kept_onto(text, told)?;
    for seat in [0, 1, 2, CLOCK] {
        let totals = told.cell.of_seat(seat);
        let (events, bytes, items) = (totals.events, totals.bytes, totals.items);
        write!(
            text,
            "seat {seat} events {events} bytes {bytes} items {items}\n"
        )?;
    }
    let agrees = told.cell.audit(told.shares.as_slice()).is_ok();
    Ok(text.push_str(if agrees {
        "the shares agree\n"
    } else {
        "the shares differ\n"
    })?)
}

// A cell that keeps so many entries, what the lines behind the first tell it, and what it has then.
fn played_kept<E: Ledger, B: Ledger>(
    alloc: Global,
    kept: usize,
    blanks: Blanks,
    block: Part,
    text: &mut String,
) -> Result<(), Memory>
    requires kept { kept ≤ 1000000 }
    requires blanks { AreBlanks blanks E.name E.parts B.name B.parts }
{
    let tx = MemTx::new(alloc, &[]);
    let (cell, shares) = Cell::<Sponge, MemTx, E, B>::make(
        alloc,
        Sponge::new(),
        tx,
        2,
        kept,
        blanks,
    )?;
    let mut told = Told {
        cell,
        shares: shares.into_vec(),
    };
    for (at, line) in block.text.lines().enumerate() {
        write!(text, "> {line}\n")?;
        if at > 0 {
            let done = act(alloc, &mut told, line);
            refused_onto(text, block.first.saturating_add(at as u64), done)?;
        }
    }
    counts_onto(text, &told)
}

// What a block does, printed.
fn play(alloc: Global, block: Part, text: &mut String) -> Result<(), ScriptFault> {
    let first = block.text.lines().next().unwrap_or("");
    if word(first, 0) != "kept" {
        return Err(no_command(0));
    }
    let kept = number_within(0, 1_000_000, first, 1)? as usize;
    Ok(played_kept::<Brand, Brand>(alloc, kept, Blanks::new(), block, text)?)
}

/// What a script does, printed.
pub fn played(alloc: Global, script: &str) -> Result<String, Memory> {
    let mut text = String::new(alloc);
    let mut first = 1;
    for block in script.split("---\n") {
        let done = play(alloc, Part { first, text: block }, &mut text);
        refused_onto(&mut text, first, done)?;
        text.push_str("\n")?;
        first = line_behind(first, block, "---\n");
    }
    Ok(text)
}
