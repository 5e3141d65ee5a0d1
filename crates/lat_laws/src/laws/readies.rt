//! The law of lines that are ready and of those that aren't.

ghost use Rattle.lat_laws.specs.readies.Alone.{UnreadyGrantsNone, ReadyAlone, ReadyKeepsDirectory, UnreadyAlone};

/// The pass makes no line session on a line that isn't ready (`grants`). To say that a line is ready, or isn't, changes nothing
/// else by itself: what follows is the pass behind every event (`alone`), and the directory stays (`directory`). Where a line
/// is ready no more, nothing follows (`unready`).
pub fn unready_lines_grant_nothing()
    ensures grants { UnreadyGrantsNone }
    ensures alone { ReadyAlone }
    ensures directory { ReadyKeepsDirectory }
    ensures unready { UnreadyAlone }
{}
