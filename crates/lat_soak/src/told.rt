//! A cell that is told one event after another.

use crate::sponge::Sponge;
use lat_base::{Addr, Bytes, Event, Memory};
use lat_history::{Cell, LineShare};
use lat_outside::MemTx;
use lat_past::seat;
use std::alloc::Global;
use std::sync::ledger::Ledger;

/// The longest payload.
pub const MOST_BYTES: usize = 1500;

/// Where each frame comes from.
const STATION: Addr = Addr([0xaa, 0x00, 0x04, 0x00, 0x02, 0x04]);

/// What each payload is the beginning of.
const FILLING: [u8; MOST_BYTES] = [7; MOST_BYTES];

/// Events of one kind. Those of the first two have their number as their moment.
#[derive(Clone, Copy)]
pub enum Kind {
    /// The time.
    Time,
    /// A frame of so many bytes.
    Heard(usize),
    /// A put of so many bytes on line 1.
    Put(usize),
    /// A take on line 2.
    Take,
}

/// A cell of two lines, and the shares of its seats: the wire, the lines, the clock.
#[derive(Drop)]
pub struct Told<'a, E: Ledger, B: Ledger> {
    pub cell: Cell<Sponge, MemTx<'a>, E, B>,
    pub shares: Vec<LineShare<E, B>>,
}

// So many bytes, at most `MOST_BYTES`.
fn filled(alloc: Global, len: usize) -> Result<Bytes, Memory> {
    let filling: &[u8] = &FILLING;
    Bytes::copy(alloc, &filling[..len.min(filling.len())])
}

fn event_of(alloc: Global, kind: Kind, number: u64) -> Result<Event, Memory> {
    match kind {
        Kind::Time => Ok(Event::Time { now: number }),
        Kind::Heard(len) => Ok(Event::Heard {
            from: STATION,
            payload: filled(alloc, len)?,
            now: number,
        }),
        Kind::Put(len) => Ok(Event::Put {
            line: 1,
            bytes: filled(alloc, len)?,
        }),
        Kind::Take => Ok(Event::Take { line: 2, n: 4096 }),
    }
}

// Tells an event of this kind, by the share of its seat.
fn tell<E: Ledger, B: Ledger>(
    alloc: Global,
    cell: &mut Cell<Sponge, MemTx<'_>, E, B>,
    shares: &mut [LineShare<E, B>],
    kind: Kind,
) -> Result<(), Memory> {
    let event = event_of(alloc, kind, cell.len())?;
    let at = seat(&event);
    let Some(share) = shares.get_mut(at.min(3) as usize) else {
        return Err(Memory);
    };
    if share.seat() != at {
        return Err(Memory);
    }
    match cell.apply(alloc, event, share) {
        Ok(_) => Ok(()),
        Err(_) => Err(Memory),
    }
}

impl<E: Ledger, B: Ledger> Told<'_, E, B> {
    /// Tells so many events of this kind.
    pub fn tell_all(&mut self, alloc: Global, kind: Kind, count: u64) -> Result<(), Memory> {
        for _ in 0..count {
            tell(alloc, &mut self.cell, self.shares.as_mut_slice(), kind)?;
        }
        Ok(())
    }
}
