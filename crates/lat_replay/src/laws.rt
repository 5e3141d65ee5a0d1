//! What holds of every world, as contracts of functions that take nothing.

ghost use Rattle.std.specs.Prelude.{◌≡◌, ℕ, Bool, List};
ghost use Rattle.lat_base.specs.declared.addr.Addr.{Addr};
ghost use Rattle.lat_model.specs.Lists.{Each};
ghost use Rattle.lat_model.specs.sessions.Slots.{Item};
ghost use Rattle.lat_machines.specs.world.Histories.{HistoriesAreAWorld};
ghost use Rattle.lat_machines.specs.world.Machines.{Setups, Machines};
ghost use Rattle.lat_laws.specs.tales.Mates.{last_named};
ghost use Rattle.lat_laws.specs.tales.Rows.{Figures, RowsAfter, KeepsRows};
ghost use Rattle.lat_laws.specs.tales.Keeping.{adds, accepts};
ghost use Rattle.lat_schedule.specs.declared.event.WorldEvent.{WorldEvent};
ghost use Rattle.lat_schedule.specs.Events.{IsEvent};
ghost use Rattle.lat_replay.specs.Moves.{IsPlayable};
ghost use Rattle.lat_replay.specs.roster.Roster.{last_row};
ghost use Rattle.lat_replay.specs.Promises.{WorldsKeepPromises, WorldsAreSafe};

use lat_node::RatingRule;

/// A history of a server and one of a node, in any order in which each frame that one heard from the other's address is a
/// young one that the other had made, are a run of the two machines, and it is safe.
pub fn histories_are_a_world()
    ensures { HistoriesAreAWorld }
{}

/// Of every world of the two machines that a world stands for all their laws hold: both ends agree, have one span, frames are
/// true, none breaks a circuit, the queue is legal, and no grant is left open.
pub fn worlds_are_safe<H: RatingRule>()
    ensures { WorldsAreSafe H }
{}

/// What is promised to both ends of every world: each circuit that runs is shared by both; each of its sessions takes a prefix
/// of what the other end put, and in the report each row of a session between the two has taken, both ways, a prefix of what was
/// put, on credits that were given; each credited slot had its credit; each request was granted at most once and as the first
/// that waited; and a frame of no layout changes nothing but the moment of the end that hears it, and is noted by its first bad
/// field.
pub fn worlds_keep_promises<H: RatingRule>()
    ensures { WorldsKeepPromises H }
{}

/// The events of a schedule can be played.
pub fn events_of_schedules_play()
    ensures { (to : Addr) (es : List WorldEvent) → Each (IsEvent to) es → Each IsPlayable es }
{}

/// The last row with these ids is that of the server's last session with them (`last`), which is the one that a new session of
/// the node belongs to. What is put and taken, and what the node accepts, changes nothing of it (`adds`, `accepts`).
pub fn rows_are_found_by_ids()
    ensures last { (u : Setups) (w : Machines) (k : RowsAfter) (circuit id : ℕ) →
        KeepsRows u w k →
        last_row circuit id 0 0 k.rows ≡ last_named circuit id 0 0 w.server.core.seats }
    ensures adds { (b : Bool) (line : ℕ) (put took : List Item) (k : RowsAfter) (circuit id : ℕ) →
        last_row circuit id 0 0 (adds b line put took k).rows ≡ last_row circuit id 0 0 k.rows }
    ensures accepts { (line place : ℕ) (f : Figures) (k : RowsAfter) (circuit id : ℕ) →
        last_row circuit id 0 0 (accepts line place f k).rows ≡ last_row circuit id 0 0 k.rows }
{}
