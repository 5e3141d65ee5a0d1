//! How much became of a world.

ghost use Rattle.std.specs.Prelude.{◌≡◌};
ghost use Rattle.std.specs.List.{sum_by};
ghost use Rattle.lat_machines.specs.world.Machines.{Machines};
ghost use Rattle.lat_machines.specs.world.Reports.{report};
ghost use Rattle.lat_laws.specs.tales.Rows.{RowsAfter, KeepsRows};
ghost use Rattle.lat_replay.specs.roster.Roster.{HasRows};
ghost use Rattle.lat_stream.specs.Kept.{saturated};
ghost use Rattle.lat_wire.specs.Kept.{setups_of};
ghost use Rattle.lat_wire.specs.Stands.{Stands};
ghost use Rattle.lat_replay.specs.Counts.{counts_in, put_in_row, taken_in_row};

use crate::roster::{Roster, Row};
use lat_wire::{RatingRule, Wire};

/// How much is told of a world. The sums stop at the greatest number of 64 bits.
#[derive(Clone, Copy)]
pub struct Counts {
    /// The frames that were sent.
    pub frames: u64,
    /// The sessions that the server connected.
    pub sessions: u64,
    /// The items that were put in all of them, both ways.
    pub put: u64,
    /// The items that were taken in all of them, both ways.
    pub taken: u64,
}

// The items that were put in these rows.
fn put_in(rows: &[Row]) -> u64
    ensures { result ≡ saturated (sum_by put_in_row rows.now) }
{
    let mut sum: u64 = 0;
    for row in rows {
        sum = sum
            .saturating_add(row.up.put.len() as u64)
            .saturating_add(row.down.put.len() as u64);
    }
    sum
}

// The items that were taken in these rows.
fn taken_in(rows: &[Row]) -> u64
    ensures { result ≡ saturated (sum_by taken_in_row rows.now) }
{
    let mut sum: u64 = 0;
    for row in rows {
        sum = sum
            .saturating_add(row.up.taken.len() as u64)
            .saturating_add(row.down.taken.len() as u64);
    }
    sum
}

/// How much the report of a world tells. It takes no memory.
pub fn counts_of<H: RatingRule>(wire: &Wire<H>, roster: &Roster) -> Counts
    ensures { (w : Machines) (k : RowsAfter) →
        Stands wire.now w →
        KeepsRows (setups_of wire.now) w k →
        HasRows roster.now k →
        result ≡ counts_in (report (setups_of wire.now) w) }
{
    let rows = roster.rows();
    Counts {
        frames: wire.frames(),
        sessions: rows.len() as u64,
        put: put_in(rows),
        taken: taken_in(rows),
    }
}
