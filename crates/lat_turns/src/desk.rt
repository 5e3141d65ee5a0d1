//! What a line's worker has before it.

ghost use Rattle.std.specs.Prelude.{◌≡◌, ◌≤◌, [], length, IfOk};
ghost use Rattle.lat_outside.specs.Visits.{GaveWithin};
ghost use Rattle.lat_mind.specs.Minds.{mind_next, patience_of};
ghost use Rattle.lat_mind.specs.Phases.{has_caller};
ghost use Rattle.lat_mind.specs.Runs.{Answers, Counts};
ghost use Rattle.lat_turns.specs.Acts.{Reads, bytes_got, got_of, wrote_fact};
ghost use Rattle.lat_turns.specs.Kept.{kept_look, lived};
ghost use Rattle.lat_turns.specs.Lives.{IsLife, IsPlain, behind, due_of, larger, life_of, offer_of, turn_of, with_turn};

use crate::hand::Hand;
use crate::kept::Sessions;
use crate::life::Life;
use crate::tray::Tray;
use lat_base::{Item, Items};
use lat_mind::{Fact, Kind, Look, Move};
use lat_outside::{CallerGot, Callers, Failed};
use std::alloc::Global;
use std::marker::Model;

/// A mind, and the bytes and items that it counts. Contracts see all turns so far and their tale: what is at hand, and what is on
/// the desk, is what the tale says.
#[derive(Drop)]
pub struct Desk {
    life: Life,
    hand: Hand,
    tray: Tray,
}

impl Model for Desk {
    ghost use Rattle.std.specs.Prelude.{◌≡◌};
    ghost use Rattle.lat_turns.specs.Lives.{DeskView};

    ghost Value = { DeskView };

    ghost view = { λ a. a.life };

    ghost invariant = { λ a. (a.hand ≡ a.life.tale.hand) × (a.tray ≡ a.life.tale.desk) };
}

// What is told of a read.
fn fact_of(got: Result<CallerGot, Failed>) -> Fact
    requires { IfOk got (λ g. GaveWithin g 1024) }
    ensures { result ≡ got_of got }
{
    match got {
        Ok(CallerGot::Bytes(count)) => Fact::Read(count as u16),
        Ok(CallerGot::Quiet) => Fact::Quiet,
        Ok(CallerGot::Ended) => Fact::Ended,
        Err(Failed) => Fact::Failed,
    }
}

// The bytes of a read.
fn bytes_of(got: Result<CallerGot, Failed>, hand: &[u8]) -> &[u8]
    ensures { result.now ≡ bytes_got got hand.now }
{
    match got {
        Ok(CallerGot::Bytes(_)) => hand,
        _ => &[],
    }
}

impl Desk {
    /// The desk of a line of this kind, with nothing on it. It takes no memory.
    pub fn new(alloc: Global, kind: Kind) -> Desk
        ensures { result ≡ life_of kind [] }
    {
        Desk {
            life: Life::new(kind),
            hand: Hand::new(),
            tray: Tray::new(alloc),
        }
    }

    /// Each of its turns is one that a worker can have, and its tale is theirs: so what `lat_mind` says of runs holds of it.
    pub fn lives(&self)
        ensures { IsLife self.now }
    {
        self.life.lives();
    }

    /// The next move at this look.
    pub fn next(&self, see: &Look) -> Move
        ensures { result ≡ mind_next self.now.tale.mind see.now }
    {
        self.life.next(see)
    }

    /// What its mind is shown and told where a line with such sessions looks so.
    pub fn kept(&self, sessions: Sessions, see: Look) -> Look
        ensures { result ≡ kept_look sessions self.now.tale.mind see }
    {
        self.life.kept(sessions, see)
    }

    /// Whether its caller's session is or was live, by the looks so far and this one.
    pub fn lived(&self, see: &Look) -> bool
        ensures { result ≡ lived self.now.tale.mind.phase see.now.line }
    {
        self.life.lived(see)
    }

    /// Whether the line has a caller.
    pub fn has_caller(&self) -> bool
        ensures { result ≡ has_caller self.now.tale.mind.phase }
    {
        self.life.has_caller()
    }

    /// How long to wait for something to happen, in milliseconds.
    pub fn patience(&self) -> u64
        ensures { result ≡ patience_of self.now.tale.mind }
    {
        self.life.patience()
    }

    /// The highest number of a session that is known behind a look.
    pub(crate) fn drawn(&self, see: &Look) -> u64
        ensures { result ≡ larger self.now.tale.drawn see.now.line.newest }
    {
        self.life.drawn(see)
    }

    /// What a put offers: all that was read of the caller and not yet put.
    pub fn offer(&self) -> &[u8]
        ensures { result.now ≡ offer_of self.now }
    {
        self.hand.front(self.life.left())
    }

    /// What is owed to the caller: all that was taken for it and not yet written.
    pub fn due(&self) -> &[Item]
        ensures { result.now ≡ due_of self.now }
    {
        self.tray.front(self.life.owed())
    }

    /// A turn of which neither bytes nor items came.
    pub(crate) fn told(&mut self, see: &Look, fact: Fact)
        requires answers { Answers (mind_next self.old.tale.mind see.now) fact }
        requires counts { Counts self.old.tale.mind.phase (turn_of self.old see.now fact [] []) fact }
        requires plain { IsPlain fact }
        ensures { self.new ≡ behind self.old see.now fact }
    {
        self.life.told(see, fact, &[], &[]);
    }

    /// A put took so many of the bytes that were offered, the first ones.
    pub(crate) fn put(&mut self, see: &Look, count: u16)
        requires go { mind_next self.old.tale.mind see.now ≡ Move.Put }
        requires within { count ≤ length (offer_of self.old) }
        ensures { self.new ≡ behind self.old see.now (Fact.Put count) }
    {
        self.hand.took(count);
        self.life.told(see, Fact::Put(count), &[], &[]);
    }

    /// A take gave these items.
    pub(crate) fn took(&mut self, see: &Look, items: Items)
        requires go { mind_next self.old.tale.mind see.now ≡ Move.Take }
        requires within { length items ≤ 65535 }
        ensures { self.new ≡ with_turn self.old (turn_of self.old see.now (Fact.Took (length items)) [] items) }
    {
        let given = items.as_slice();
        let count = given.len() as u16;
        self.life.told(see, Fact::Took(count), &[], given);
        self.tray.take(items);
    }

    /// Reads who has the line.
    pub(crate) fn read<K: Callers>(&mut self, callers: &mut K, see: &Look)
        requires { mind_next self.old.tale.mind see.now ≡ Move.Read }
        ensures { Reads see.now self.old self.new (K.visits callers.old) (K.visits callers.new) }
    {
        let got = self.hand.read(callers);
        let bytes = bytes_of(got, self.hand.all());
        self.life.told(see, fact_of(got), bytes, &[]);
    }

    /// So many of the items that are owed are written, the first ones, or the write failed.
    pub(crate) fn wrote(&mut self, see: &Look, wrote: Result<usize, Failed>)
        requires go { mind_next self.old.tale.mind see.now ≡ Move.Write }
        requires within { IfOk wrote (λ n. (n ≤ length (due_of self.old)) × (n ≤ 1024)) }
        ensures { self.new ≡ behind self.old see.now (wrote_fact wrote) }
    {
        match wrote {
            Ok(count) => {
                self.tray.wrote(count as u16);
                self.life.told(see, Fact::Written(count as u16), &[], &[]);
            }
            Err(Failed) => self.life.told(see, Fact::Failed, &[], &[]),
        }
    }
}
