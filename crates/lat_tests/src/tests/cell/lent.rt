//! What the wire's worker does with a cell that is lent to it, without threads: a long frame.

ghost use Rattle.lat_history.specs.Ledgers.{AreBlanks};

use super::echo::Echo;
use lat_base::{Addr, Event};
use lat_cell::{Blanks, Cell, hear};
use lat_outside::{Got, MemTx};
use lat_past::WIRE;
use std::alloc::Global;
use std::marker::Brand;
use std::sync::ledger::Ledger;

const FAR: Addr = Addr([0xaa, 0x00, 0x04, 0x00, 0x02, 0x04]);

// How many bytes of a frame of 1,500 the history keeps, and what stands last of them.
fn heard<E: Ledger, B: Ledger>(alloc: Global, blanks: Blanks) -> Option<(usize, Option<u8>)>
    requires { AreBlanks blanks E.name E.parts B.name B.parts }
{
    let tx = MemTx::new(alloc, &[]);
    let (cell, shares) = Cell::<Echo, MemTx, E, B>::make(
        alloc,
        Echo::new(),
        tx,
        1,
        5,
        blanks,
    ).ok()?;
    let mut cell = cell;
    let mut shares = shares.into_vec();
    let (_clock, _line, mut wire) = (shares.pop()?, shares.pop()?, shares.pop()?);
    if wire.seat() != WIRE {
        return None;
    }
    let mut buf = [7; 1500];
    buf[1499] = 9;
    let got = Ok(Got::Frame {
        from: FAR,
        len: 1500,
    });
    hear(alloc, &mut cell, &mut wire, got, &buf).ok()?;
    match &cell.entries().0.first()?.event {
        Event::Heard { payload, .. } => {
            let bytes = payload.as_slice();
            Some((bytes.len(), bytes.last().copied()))
        }
        _ => None,
    }
}

#[test]
fn long_ones(rt: HostRuntime) {
    let came = heard::<Brand, Brand>(rt.alloc(), Blanks::new());
    assert_eq!(rt; came, Some((1500, Some(9))));
}
