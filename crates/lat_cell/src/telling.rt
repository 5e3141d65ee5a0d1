//! A single event that is told to a cell that is lent.

ghost use Rattle.std.specs.Prelude.{◌≡◌, Some, Err, IfOk, OnErr};
ghost use Rattle.lat_base.specs.declared.event.Event.{Event};
ghost use Rattle.lat_history.specs.Asked.{AddedAt};
ghost use Rattle.lat_history.specs.Numbers.{MayCount};

use lat_base::{Core, Event};
use lat_history::{Cell, CellFault, LineShare};
use lat_outside::Tx;
use std::alloc::Global;
use std::sync::ledger::Ledger;

/// Halts the core, by the clock's share. It tells the event's place.
pub fn halt<C: Core, T: Tx, E: Ledger, B: Ledger>(
    alloc: Global,
    cell: &mut Cell<C, T, E, B>,
    share: &mut LineShare<E, B>,
) -> Result<u64, CellFault>
    requires { share.old.seat ≡ 65 }
    ensures halted { IfOk result (λ place. AddedAt C.opening C.next C.answer cell.old cell.new
        (Some Event.Halt) (Some place)) }
    ensures bytes { share.new.bytes ≡ share.old.bytes }
    ensures refused { OnErr result ((cell.new ≡ cell.old) × (share.new ≡ share.old)) }
    ensures limit { result ≡ Err CellFault.CountsOut → MayCount cell.old Event.Halt → ⊥ }
    ensures seat { (share.new.seat ≡ share.old.seat) × (share.new.parts ≡ share.old.parts) }
{
    Ok(cell.apply(alloc, Event::Halt, share)?.place)
}
