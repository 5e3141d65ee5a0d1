//! A mind with all its turns.

ghost use Rattle.std.specs.Prelude.{◌≡◌, []};
ghost use Rattle.lat_mind.specs.Minds.{mind_next, patience_of};
ghost use Rattle.lat_mind.specs.Phases.{has_caller};
ghost use Rattle.lat_mind.specs.Runs.{Answers, Counts, left_in, owed_in};
ghost use Rattle.lat_turns.specs.Kept.{kept_look, lived};
ghost use Rattle.lat_turns.specs.Lives.{IsLife, drawn_behind, larger, life_of, turn_of, with_turn};

use crate::kept::{Sessions, kept_look, lived};
use crate::told::Told;
use lat_base::Item;
use lat_mind::{Fact, Kind, LineMind, Look, Move};
use lat_tale::Tale;
use std::marker::Model;

/// The mind of a line, and the highest number of a session that its looks have shown or its connects have made. Contracts see all
/// its turns, which exist in the proofs alone, and their tale.
#[derive(Drop)]
pub struct Life {
    mind: LineMind,
    drawn: u64,
    turns: Tale<Told>,
}

impl Model for Life {
    ghost use Rattle.std.specs.Prelude.{◌≡◌};
    ghost use Rattle.lat_mind.specs.Runs.{RunOf, fresh_tale, tale_of};
    ghost use Rattle.lat_turns.specs.Lives.{DeskView, life_of};

    ghost Value = { DeskView };

    ghost view = { λ a. life_of a.mind.kind a.turns.items };

    ghost invariant = { λ a. RunOf (fresh_tale a.mind.kind) a.turns.items
        × (a.mind ≡ (tale_of (fresh_tale a.mind.kind) a.turns.items).mind)
        × (a.drawn ≡ (tale_of (fresh_tale a.mind.kind) a.turns.items).drawn) };
}

fn larger(m: u64, n: u64) -> u64
    ensures { result ≡ larger m n }
{
    if m < n { n } else { m }
}

fn drawn_behind(drawn: u64, fact: Fact) -> u64
    ensures { result ≡ drawn_behind drawn fact }
{
    match fact {
        Fact::Connected(number) => number,
        _ => drawn,
    }
}

impl Life {
    /// The mind of such a line, without a turn.
    pub fn new(kind: Kind) -> Life
        ensures { result ≡ life_of kind [] }
    {
        Life {
            mind: LineMind::make(kind),
            drawn: 0,
            turns: Tale::new(),
        }
    }

    /// Its turns are those of a worker, and its tale is theirs.
    pub fn lives(&self)
        ensures { IsLife self.now }
    {
        let _ = &self.mind;
    }

    /// The next move at this look.
    pub fn next(&self, see: &Look) -> Move
        ensures { result ≡ mind_next self.now.tale.mind see.now }
    {
        self.mind.next(see)
    }

    /// How many bytes its mind counts that were read and not yet put.
    pub fn left(&self) -> u16
        ensures { result ≡ left_in self.now.tale.mind.phase }
    {
        self.mind.left()
    }

    /// How many items its mind counts that were taken and not yet written.
    pub fn owed(&self) -> u16
        ensures { result ≡ owed_in self.now.tale.mind.phase }
    {
        self.mind.owed()
    }

    /// What its mind is shown and told where a line with such sessions looks so.
    pub fn kept(&self, sessions: Sessions, see: Look) -> Look
        ensures { result ≡ kept_look sessions self.now.tale.mind see }
    {
        kept_look(sessions, self.mind, see)
    }

    /// Whether its caller's session is or was live, by the looks so far and this one.
    pub fn lived(&self, see: &Look) -> bool
        ensures { result ≡ lived self.now.tale.mind.phase see.now.line }
    {
        lived(self.mind.phase(), see.line)
    }

    /// Whether the line has a caller.
    pub fn has_caller(&self) -> bool
        ensures { result ≡ has_caller self.now.tale.mind.phase }
    {
        self.mind.has_caller()
    }

    /// How long to wait for something to happen, in milliseconds.
    pub fn patience(&self) -> u64
        ensures { result ≡ patience_of self.now.tale.mind }
    {
        self.mind.patience()
    }

    /// The highest number of a session that is known behind a look.
    pub fn drawn(&self, see: &Look) -> u64
        ensures { result ≡ larger self.now.tale.drawn see.now.line.newest }
    {
        larger(self.drawn, see.line.newest)
    }

    /// One turn more: at this look its move was made, and this came of it.
    pub fn told(&mut self, see: &Look, fact: Fact, bytes: &[u8], items: &[Item])
        requires answers { Answers (mind_next self.old.tale.mind see.now) fact }
        requires counts { Counts self.old.tale.mind.phase (turn_of self.old see.now fact bytes.now items.now) fact }
        ensures { self.new ≡ with_turn self.old (turn_of self.old see.now fact bytes.now items.now) }
    {
        let drawn = larger(self.drawn, see.line.newest);
        self.turns = self.turns.and(&Told::new(see, fact, bytes, items, drawn));
        self.mind.told(see, fact);
        self.drawn = drawn_behind(drawn, fact);
    }
}
