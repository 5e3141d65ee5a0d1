//! What a daemon hands back of its lines.

ghost use Rattle.std.specs.Prelude.{◌≡◌, []};

use lat_outside::Callers;
use lat_turns::LineDone;
use std::alloc::Global;
use std::marker::Model;

/// How the workers of the lines ended, by rising number of the line. Contracts see the list.
#[derive(Drop)]
pub struct Ends {
    ends: Vec<LineDone>,
}

impl Model for Ends {
    ghost use Rattle.std.specs.Prelude.{List};
    ghost use Rattle.lat_turns.specs.declared.worker.LineDone.{LineDone};

    ghost Value = { List LineDone };

    ghost view = { λ a. a.ends.items };
}

impl Ends {
    /// These ends.
    pub fn of(ends: Vec<LineDone>) -> Ends
        ensures { result ≡ ends.items }
    {
        Ends { ends }
    }

    /// No end. It takes no memory.
    pub fn none(alloc: Global) -> Ends
        ensures { result ≡ [] }
    {
        Ends {
            ends: Vec::new(alloc),
        }
    }

    /// The ends, first to last.
    pub fn as_slice(&self) -> &[LineDone]
        ensures { result.now ≡ self.now }
    {
        self.ends.as_slice()
    }
}

/// The lines' callers, by rising number of the line. Contracts see the list.
#[derive(Drop)]
pub struct Lines<K: Callers> {
    lines: Vec<K>,
}

impl<K: Callers> Model for Lines<K> {
    ghost use Rattle.std.specs.Prelude.{List};

    ghost Value = { List K };

    ghost view = { λ a. a.lines.items };
}

impl<K: Callers> Lines<K> {
    /// These lines.
    pub fn of(lines: Vec<K>) -> Lines<K>
        ensures { result ≡ lines.items }
    {
        Lines { lines }
    }

    /// No line. It takes no memory.
    pub fn none(alloc: Global) -> Lines<K>
        ensures { result ≡ [] }
    {
        Lines {
            lines: Vec::new(alloc),
        }
    }

    /// The lines, first to last.
    pub fn as_slice(&self) -> &[K]
        ensures { result.now ≡ self.now }
    {
        self.lines.as_slice()
    }
}
