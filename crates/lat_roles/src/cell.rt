//! Blocks over a server's cell.

mod events;
mod told;

ghost use Rattle.lat_history.specs.Ledgers.{AreBlanks};
ghost use Rattle.lat_server.specs.Config.{IsConfig};

use crate::cell::told::{Told, Wrong};
use crate::names::USUAL;
use lat_base::{Addr, Memory};
use lat_history::{Blanks, Cell, LineShare};
use lat_outside::MemTx;
use lat_past::{Entry, Told as Kept, seat};
use lat_script::{Part, ScriptFault, answer_onto, byte, known_name};
use lat_server::{Offers, ServerConfig, ServerCore};
use std::alloc::Global;
use std::marker::Brand;
use std::sync::ledger::Ledger;

/// How many entries of its history the cell keeps.
const MOST_KEPT: usize = 1000;

fn config(alloc: Global) -> ServerConfig
    ensures { IsConfig result }
{
    ServerConfig {
        own: Addr([0xaa, 0x00, 0x04, 0x00, 0x01, 0x04]),
        name: known_name(b"TS1"),
        lines: 2,
        offers: Offers::new(alloc),
        groups: [0xff; 32],
        timing: USUAL,
        prompt: false,
        first: 1,
    }
}

// The seat of each event, and what is kept of its answer.
fn entries_onto(alloc: Global, text: &mut String, entries: &[Entry]) -> Result<(), Memory> {
    for entry in entries {
        let at = seat(&entry.event);
        write!(text, "seat {at} ")?;
        match &entry.told {
            Kept::Took(count) => write!(text, "took {count}\n")?,
            Kept::Other(answer) => answer_onto(alloc, text, answer)?,
        }
    }
    Ok(())
}

// What each share says.
fn shares_onto<E: Ledger, B: Ledger>(
    text: &mut String,
    shares: &[LineShare<E, B>],
) -> Result<(), Memory> {
    for share in shares {
        let (at, events, bytes) = (share.seat(), share.events(), share.bytes());
        write!(text, "seat {at} events {events} bytes {bytes}\n")?;
    }
    Ok(())
}

// Tells a cell so many events, and prints what it keeps of them.
fn played<E: Ledger, B: Ledger>(
    alloc: Global,
    events: u8,
    blanks: Blanks,
    text: &mut String,
) -> Result<(), Wrong>
    requires blanks { AreBlanks blanks E.name E.parts B.name B.parts }
{
    let core = ServerCore::make(alloc, &config(alloc))?;
    let tx = MemTx::new(alloc, &[]);
    let (cell, shares) = Cell::<ServerCore, MemTx, E, B>::make(
        alloc, core, tx, 2, MOST_KEPT, blanks,
    )?;
    let mut told = Told {
        cell,
        shares: shares.into_vec(),
    };
    for number in 0..events {
        told.tell(alloc, number as u64)?;
    }
    let (front, back) = told.cell.entries();
    entries_onto(alloc, text, front)?;
    entries_onto(alloc, text, back)?;
    shares_onto(text, told.shares.as_slice())?;
    Ok(())
}

// What a block of so many events does, printed.
fn play(alloc: Global, events: u8, text: &mut String) -> Result<(), Memory> {
    match played::<Brand, Brand>(alloc, events, Blanks::new(), text) {
        Ok(()) => Ok(()),
        Err(Wrong::Memory) => Err(Memory),
        Err(Wrong::Changed) => Ok(text.push_str("the cell isn't right\n")?),
    }
}

/// What a block does, printed.
pub fn play_block(alloc: Global, block: Part, text: &mut String) -> Result<(), ScriptFault> {
    let first = block.text.lines().next().unwrap_or("");
    let events = byte(first, 1)?;
    Ok(play(alloc, events, text)?)
}
