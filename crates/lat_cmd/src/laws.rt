//! What holds of the texts that `lat` writes. Each function takes nothing and does nothing: its contract is the law.

ghost use Rattle.lat_cmd.specs.generate.Reread.{GeneratedReread};

/// The text of every generated schedule is a schedule, and `replay` answers 0 to it, with the report of the world that `gen` and
/// `bench` hand back.
pub fn generated_reread()
    ensures { GeneratedReread }
{}
