//! A cell that is told one event after another.

use crate::cell::events::event_of;
use lat_base::{Core, Memory};
use lat_history::{Cell, CellFault, LineShare};
use lat_outside::Tx;
use lat_past::seat;
use std::alloc::Global;
use std::sync::ledger::Ledger;

/// Why there is nothing to print.
#[derive(Clone, Copy)]
pub enum Wrong {
    /// No memory was found.
    Memory,
    /// An event for which no memory was found changed something, or a share isn't that of the history.
    Changed,
}

impl From<Memory> for Wrong {
    ghost use Rattle.std.specs.Prelude.{◌≡◌};
    ghost use Rattle.lat_roles.specs.declared.cell.told.Wrong.TheVariants as wrongs;

    ghost from_gives = { λ _ e. e ≡ wrongs.Memory };

    fn from(_e: Memory) -> Wrong {
        Wrong::Memory
    }
}

/// A cell of two lines, and the shares of its seats: the wire, the lines, the clock.
#[derive(Drop)]
pub struct Told<C: Core, T: Tx, E: Ledger, B: Ledger> {
    pub cell: Cell<C, T, E, B>,
    pub shares: Vec<LineShare<E, B>>,
}

// Applies an event by the share of its seat.
fn act<C: Core, T: Tx, E: Ledger, B: Ledger>(
    alloc: Global,
    cell: &mut Cell<C, T, E, B>,
    shares: &mut [LineShare<E, B>],
    number: u64,
) -> Result<(), Wrong> {
    let event = event_of(alloc, number)?;
    let at = seat(&event);
    let Some(share) = shares.get_mut(at.min(3) as usize) else {
        return Err(Wrong::Changed);
    };
    if share.seat() != at {
        return Err(Wrong::Changed);
    }
    match cell.apply(alloc, event, share) {
        Ok(_) => Ok(()),
        Err(CellFault::Memory) => Err(Wrong::Memory),
        Err(CellFault::CountsOut) => Err(Wrong::Changed),
    }
}

impl<C: Core, T: Tx, E: Ledger, B: Ledger> Told<C, T, E, B> {
    // The history has so many events, and the shares are theirs.
    fn is_right(&self, events: u64) -> bool {
        self.cell.len() == events && self.cell.audit(self.shares.as_slice()).is_ok()
    }

    /// Tells the event of this number, once more where no memory is found for it.
    pub fn tell(&mut self, alloc: Global, number: u64) -> Result<(), Wrong> {
        if let Err(Wrong::Memory) = act(alloc, &mut self.cell, self.shares.as_mut_slice(), number) {
            if !self.is_right(number) {
                return Err(Wrong::Changed);
            }
            act(alloc, &mut self.cell, self.shares.as_mut_slice(), number)?;
        }
        if self.is_right(number.saturating_add(1)) {
            Ok(())
        } else {
            Err(Wrong::Changed)
        }
    }
}
