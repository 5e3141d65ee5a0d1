//! A line's worker.

ghost use Rattle.std.specs.Prelude.{◌≡◌, ℕ, true, IsSome, IfSome};
ghost use Rattle.lat_mind.specs.Kinds.{is_calling};
ghost use Rattle.lat_turns.specs.Holds.{MayAct};
ghost use Rattle.lat_turns.specs.Lives.{IsLife};
ghost use Rattle.lat_turns.specs.Tied.{Tied};
ghost use Rattle.lat_turns.specs.Work.{IsDone, RoseAs, SettledAs, TurnedAs, WentOn, end_of, ended_by, was_served};

use crate::acting::act;
use crate::desk::Desk;
use crate::door::Door;
use crate::holding::{Held, NoCount, hold};
use crate::kept::Stay;
use lat_base::Core;
use lat_history::{Cell, LineShare};
use lat_log::CallerNews;
use lat_mind::Move;
use lat_outside::{Callers, Clock, Gate, Tx};
use std::alloc::Global;
use std::sync::ledger::Ledger;
use std::sync::{Mutex, Wait};

/// How a line's worker ended.
#[derive(Clone, Copy)]
pub enum LineDone {
    /// Its mind has finished.
    End,
    /// A count of the cell would have passed the greatest number of its type.
    CountsOut(NoCount),
}

/// The worker of a line: its share of the cell, the way to its callers, what the line is for, how long it takes callers, the clock
/// by which it waits, its desk, and how it ended.
#[derive(Drop)]
pub struct LineWorker<'a, K: Callers, P: Clock, E: Ledger, B: Ledger> {
    pub share: LineShare<E, B>,
    pub callers: K,
    pub door: Door<'a>,
    pub stay: Stay,
    pub clock: P,
    pub desk: Desk,
    pub done: LineDone,
}

// The gate is passed behind an event that was applied.
fn pass<G: Gate>(gate: &G, line: u8, held: &Held) {
    if let Held::Told { place } = held {
        gate.pass(line, *place);
    }
}

// How a worker ends behind a move without an event, if it does.
fn end_of(go: Move) -> Option<LineDone>
    ensures { result ≡ end_of go }
{
    if matches!(go, Move::Finish) {
        Some(LineDone::End)
    } else {
        None
    }
}

// What is done behind a hold, outside the lock; it tells how the worker ends.
fn settle<K: Callers>(desk: &mut Desk, callers: &mut K, held: Held) -> Option<LineDone>
    requires { MayAct desk.old held }
    ensures acted { SettledAs held desk.old desk.new (K.visits callers.old) (K.visits callers.new) }
    ensures went { (n : ℕ) → WentOn desk.old desk.new n n }
    ensures rose { (n : ℕ) → RoseAs desk.old desk.new n n }
    ensures tied { Tied desk.old (K.visits callers.old) → Tied desk.new (K.visits callers.new) }
    ensures done { IfSome result (λ done. IsDone done desk.new) }
    ensures ended { result ≡ ended_by held }
{
    match held {
        Held::Told { .. } | Held::Lacking => None,
        Held::CountsOut(refusal) => Some(LineDone::CountsOut(refusal)),
        Held::Outside { go, look, port } => {
            act(desk, callers, go, &look, port);
            end_of(go)
        }
    }
}

// Whether a caller who was served is hung up behind this hold: its session was live, by the look of the hang-up at the latest.
fn was_served(desk: &Desk, held: &Held) -> bool
    ensures { result ≡ was_served desk.now.tale.mind.phase held.now }
{
    match held {
        Held::Outside { go, look, .. } => match go {
            Move::HangUp => desk.lived(look),
            _ => false,
        },
        _ => false,
    }
}

// What is new of the caller of a line which had one, or hadn't, and now has one, or hasn't.
fn news_of(had: bool, has: bool) -> Option<CallerNews> {
    match (had, has) {
        (false, true) => Some(CallerNews::Came),
        (true, false) => Some(CallerNews::Left),
        _ => None,
    }
}

// Waits as long as the mind has patience.
fn pause<P: Clock>(clock: &mut P, ms: u64) {
    if ms > 0 {
        clock.pause(ms);
    }
}

impl<'a, K: Callers, P: Clock, E: Ledger, B: Ledger> LineWorker<'a, K, P, E, B> {
    // One turn: a hold of the lock, what is done outside it, and a pause where nothing happened. It tells how the worker ends.
    fn turn<C: Core, T: Tx, G: Gate, R: Wait>(
        &mut self,
        rt: &R,
        alloc: Global,
        cell: &Mutex<Cell<C, T, E, B>>,
        gate: &G,
    ) -> Option<LineDone>
        requires { is_calling self.old.desk.kind ≡ true → IsSome self.old.door.service }
        ensures seat { (self.new.share.seat ≡ self.old.share.seat)
            × (self.new.share.parts ≡ self.old.share.parts) }
        ensures door { self.new.door ≡ self.old.door }
        ensures stays { self.old.stay ≡ Stay.Always → self.new.stay ≡ Stay.Always }
        ensures turned { TurnedAs self.old.desk self.new.desk (K.visits self.old.callers) (K.visits self.new.callers)
            self.old.share.events self.new.share.events result }
        ensures went { WentOn self.old.desk self.new.desk self.old.share.bytes self.new.share.bytes }
        ensures rose { RoseAs self.old.desk self.new.desk self.old.share.events self.new.share.events }
        ensures tied { Tied self.old.desk (K.visits self.old.callers) →
            Tied self.new.desk (K.visits self.new.callers) }
        ensures done { IfSome result (λ done. IsDone done self.new.desk) }
    {
        let held = hold(
            &mut self.desk,
            alloc,
            &mut cell.lock(rt),
            &mut self.share,
            &self.door,
            self.stay,
        );
        pass(gate, self.share.seat(), &held);
        let served = was_served(&self.desk, &held);
        let had = self.desk.has_caller();
        let done = settle(&mut self.desk, &mut self.callers, held);
        self.stay = self.stay.after(served);
        if served {
            cell.lock(rt).count_served();
        }
        if let Some(news) = news_of(had, self.desk.has_caller()) {
            cell.lock(rt).note_caller(self.share.seat(), news);
        }
        pause(&mut self.clock, self.desk.patience());
        done
    }

    /// Works the line, turn after turn, until its mind has finished or a count is out, which `done` then tells: `End` or
    /// `CountsOut`. One that takes one caller ends so behind it. The events that it applied, and what it put, are exactly what its
    /// turns since then say, and its callers stay those of its whole life, those too who were hung up. It may wait, and its return
    /// isn't promised.
    pub fn work<C: Core, T: Tx, G: Gate, R: Wait>(
        &mut self,
        rt: &R,
        alloc: Global,
        cell: &Mutex<Cell<C, T, E, B>>,
        gate: &G,
    )
        requires { is_calling self.old.desk.kind ≡ true → IsSome self.old.door.service }
        ensures seat { (self.new.share.seat ≡ self.old.share.seat)
            × (self.new.share.parts ≡ self.old.share.parts) }
        ensures door { self.new.door ≡ self.old.door }
        ensures stays { self.old.stay ≡ Stay.Always → self.new.stay ≡ Stay.Always }
        ensures life { IsLife self.new.desk }
        ensures went { WentOn self.old.desk self.new.desk self.old.share.bytes self.new.share.bytes }
        ensures rose { RoseAs self.old.desk self.new.desk self.old.share.events self.new.share.events }
        ensures tied { Tied self.old.desk (K.visits self.old.callers) →
            Tied self.new.desk (K.visits self.new.callers) }
        ensures done { IsDone self.new.done self.new.desk }
    {
        for _ in rt.forever() {
            if let Some(done) = self.turn(rt, alloc, cell, gate) {
                self.done = done;
                self.desk.lives();
                return;
            }
        }
        unreachable!()
    }
}
