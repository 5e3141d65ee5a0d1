//! The laws of the rows of a report.

ghost use Rattle.std.specs.Prelude.{◌≡◌, Bool, List};
ghost use Rattle.lat_machines.specs.world.Machines.{Setups, core_of, Move, happens, run, open_machines};
ghost use Rattle.lat_machines.specs.world.Safe.{Fit};
ghost use Rattle.lat_machines.specs.world.Reports.{report};
ghost use Rattle.lat_laws.specs.tales.Rows.{RowsAfter, KeepsRows};
ghost use Rattle.lat_laws.specs.tales.Keeping.{no_rows, rows_after, rows_after_all};
ghost use Rattle.lat_laws.specs.tales.Reported.{report_rows};
ghost use Rattle.lat_laws.specs.tales.Books.{CoreGrows, lines_at};

/// In every run of the two machines what is kept by the answers and by the newest sessions of the lines are the rows of the
/// report: the items that were put and taken, the line of the node's session, found by its ids when the node accepts it, and
/// the figures of each session that is no longer the newest of its line (`all`). So each move goes on from what was kept
/// before it (`next`).
pub fn rows_are_kept()
    ensures all { (u : Setups) (moves : List Move) → Fit u →
        KeepsRows u (run u moves (open_machines u)) (rows_after_all u moves (open_machines u) no_rows) }
    ensures next { (u : Setups) (moves : List Move) (m : Move) (k : RowsAfter) →
        Fit u →
        KeepsRows u (run u moves (open_machines u)) k →
        KeepsRows u (happens u (run u moves (open_machines u)) m)
        (rows_after u (run u moves (open_machines u)) m k) }
{}

/// What is kept, with the figures of the newest session of each line, are the rows of the report.
pub fn kept_rows_are_the_report()
    ensures { (u : Setups) (moves : List Move) (k : RowsAfter) →
        Fit u →
        KeepsRows u (run u moves (open_machines u)) k →
        report_rows (run u moves (open_machines u)) k
        ≡ (report u (run u moves (open_machines u))).sessions }
{}

/// A move makes at each end at most as many sessions as it has lines, behind those that were there. The book of the line of
/// each of them tells it as the present one, with its number, and the newest session of the line before it as the last.
pub fn new_sessions_are_in_the_books()
    ensures { (u : Setups) (moves : List Move) (m : Move) (server : Bool) →
        Fit u →
        CoreGrows (lines_at server u) (core_of (run u moves (open_machines u)) server)
        (core_of (happens u (run u moves (open_machines u)) m) server) }
{}
