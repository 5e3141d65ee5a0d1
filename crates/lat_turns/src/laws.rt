//! What holds of every worker's life. Nothing here runs: each law is a function that takes nothing, and whose contract is the
//! statement.

ghost use Rattle.std.specs.Prelude.{◌≡◌, [], ℕ, false, Option};
ghost use Rattle.lat_mind.specs.declared.kind.Kind.{Kind};
ghost use Rattle.lat_mind.specs.declared.look.Look.{Look};
ghost use Rattle.lat_mind.specs.declared.mind.LineMind.{LineMind};
ghost use Rattle.lat_mind.specs.declared.phase.Guest.{Guest};
ghost use Rattle.lat_mind.specs.Laws.{LawOfRuns};
ghost use Rattle.lat_mind.specs.Minds.{spent};
ghost use Rattle.lat_outside.specs.Visits.{no_visits};
ghost use Rattle.lat_turns.specs.Kept.{IsKept, kept_look};
ghost use Rattle.lat_turns.specs.Lives.{DeskView, IsLife, life_of};
ghost use Rattle.lat_turns.specs.Served.{AllGotAll};
ghost use Rattle.lat_turns.specs.Tied.{Tied};
ghost use Rattle.lat_turns.specs.declared.kept.Sessions.TheVariants as sessions;

/// The callers of a line that nobody has come to are those of a worker without a turn.
pub fn begins_tied()
    ensures { (kind : Kind) (port : Option ℕ) → Tied (life_of kind []) (no_visits port) }
{}

/// What is put was read of the same caller, and what is written was taken for it, each in order and once; and no session has
/// bytes or items of two callers.
pub fn lives_are_right()
    ensures { (d : DeskView) → IsLife d → LawOfRuns d.tale }
{}

/// Whoever was hung up got all that was taken for it, unless its connection failed, or it had left before it had a session.
pub fn the_served_got_all()
    ensures { (d : DeskView) → IsLife d → AllGotAll d }
{}

/// Whatever session a switch's line shows, the caller's own one isn't spent while the line isn't free.
pub fn switches_keep_callers()
    ensures { (m : LineMind) (g : Guest) (see : Look) → IsKept m g see →
        spent m g (kept_look sessions.Several m see) ≡ false }
{}
