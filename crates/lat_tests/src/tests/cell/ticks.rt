//! When the clock's worker announces, and when it ends a daemon, without threads.

ghost use Rattle.std.specs.Prelude.{◌≡◌};
ghost use Rattle.lat_history.specs.Ledgers.{AreBlanks};

use super::hopper::{Hopper, Puts};
use lat_cell::{Announcing, Blanks, Cell, LineShare, TickDone, Winding, tick, wind_up};
use lat_outside::MemTx;
use lat_past::CLOCK;
use std::alloc::{AllocError, Global};
use std::marker::Brand;
use std::sync::ledger::Ledger;

// A cell with one line, and the share of the clock.
#[derive(Drop)]
struct OpenCell<'a, E: Ledger, B: Ledger> {
    cell: Cell<Hopper, MemTx<'a>, E, B>,
    clock: LineShare<E, B>,
}

fn open<'a, E: Ledger, B: Ledger>(
    alloc: Global,
    core: Hopper,
    blanks: Blanks,
) -> Option<OpenCell<'a, E, B>>
    requires core { core.waiting ≡ core.given }
    requires start { core.moment ≡ 0 }
    requires blanks { AreBlanks blanks E.name E.parts B.name B.parts }
{
    let tx = MemTx::new(alloc, &[]);
    let (cell, shares) = Cell::<Hopper, MemTx, E, B>::make(alloc, core, tx, 1, 9, blanks).ok()?;
    let mut shares = shares.into_vec();
    let clock = shares.pop()?;
    Some(OpenCell { cell, clock })
}

// Whether an announcement goes out at each of these moments, each ten seconds at most.
fn announced<E: Ledger, B: Ledger>(
    alloc: Global,
    moments: &[u64],
    blanks: Blanks,
) -> Option<Vec<bool>>
    requires { AreBlanks blanks E.name E.parts B.name B.parts }
{
    let OpenCell {
        mut cell,
        mut clock,
    } = open::<E, B>(alloc, Hopper::new(0, Puts::Starved), blanks)?;
    let mut announcing = Announcing::each(Some(10));
    let mut all = Vec::new(alloc);
    for now in moments {
        if clock.seat() != CLOCK {
            return None;
        }
        let TickDone { announced, .. } = tick(
            alloc,
            &mut cell,
            &mut clock,
            *now,
            &mut announcing,
            None,
        );
        all.push(matches!(announced, Ok(Some(_)))).ok()?;
    }
    Some(all)
}

// Whether a daemon is over at each of these moments, whose core is drained, and which is told to end before the first.
fn wound<E: Ledger, B: Ledger>(alloc: Global, moments: &[u64], blanks: Blanks) -> Option<Vec<bool>>
    requires { AreBlanks blanks E.name E.parts B.name B.parts }
{
    let OpenCell {
        mut cell,
        mut clock,
    } = open::<E, B>(alloc, Hopper::new(0, Puts::Starved), blanks)?;
    let mut winding = Winding::up(1);
    let mut all = Vec::new(alloc);
    cell.stop();
    for now in moments {
        if clock.seat() != CLOCK {
            return None;
        }
        let _ = wind_up(alloc, &mut cell, &mut clock, *now, &mut winding);
        all.push(cell.is_over()).ok()?;
    }
    Some(all)
}

#[test]
fn ticks(rt: HostRuntime) -> Result<(), AllocError> {
    let alloc = rt.alloc();
    let moments = [0, 9_999, 10_000, 10_001, 19_999, 20_000];
    let came = announced::<Brand, Brand>(alloc, &moments, Blanks::new());
    let due = vec![in alloc; true, false, true, false, false, true]?;
    assert!(rt; came == Some(due));
    let came = wound::<Brand, Brand>(alloc, &[500, 1_500], Blanks::new());
    let due = vec![in alloc; true, true]?;
    assert!(rt; came == Some(due));
    Ok(())
}
