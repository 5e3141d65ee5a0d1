//! Who sits where.

ghost use Rattle.std.specs.Prelude.{◌≡◌, ◌+◌, ◌-◌, ◌<◌, ◌≤◌, [], ◌∷◌, ◌++◌, length, map, IfOk, vec_len, vec_capacity};
ghost use Rattle.lat_history.specs.Seats.{all_seats, seats_from};
ghost use Rattle.lat_live.specs.Posts.{IsPosted};
ghost use Rattle.lat_live.specs.Seating.{EachPair, HasRoom, IsFreshAround, IsNothing, share_of, done_of, callers_of};

use crate::plan::{LinePlan, Plan};
use lat_cell::{LineShare, Shares};
use lat_outside::{Callers, Clock};
use lat_turns::{Desk, LineDone, LineWorker};
use std::alloc::{AllocError, Global};
use std::sync::ledger::Ledger;

/// The shares of the wire and of the clock, and the lines' workers with theirs, by rising number.
#[derive(Drop)]
pub struct Seated<'a, K: Callers, P: Clock, E: Ledger, B: Ledger> {
    pub wire: LineShare<E, B>,
    pub lines: Vec<LineWorker<'a, K, P, E, B>>,
    pub clock: LineShare<E, B>,
}

// The worker of a line of the plan, who has done nothing yet.
fn worker<'a, K: Callers, P: Clock, E: Ledger, B: Ledger>(
    alloc: Global,
    plan: &'a Plan<'a>,
    line: &'a LinePlan,
    share: LineShare<E, B>,
    callers: K,
    clock: P,
) -> LineWorker<'a, K, P, E, B>
    ensures share { result.share ≡ share }
    ensures callers { result.callers ≡ callers }
    ensures posted { IsPosted plan.now line.now result }
{
    LineWorker {
        share,
        callers,
        door: line.post.door(plan.devices),
        stay: plan.stay,
        clock,
        desk: Desk::new(alloc, line.post.kind()),
        done: LineDone::End,
    }
}

/// Gives each line of the plan its share, its post and a clock.
pub fn take_seats<'a, K: Callers, P: Clock + Copy, E: Ledger, B: Ledger>(
    alloc: Global,
    plan: &'a Plan<'a>,
    shares: Shares<E, B>,
    lines: Vec<K>,
    clock: P,
) -> Result<Seated<'a, K, P, E, B>, AllocError>
    requires lines { vec_len lines ≡ length plan.now.lines.now }
    requires shares { shares ≡ all_seats (vec_len lines) }
    ensures around { IfOk result (IsFreshAround (vec_len lines)) }
    ensures shares { IfOk result (λ s. map share_of s.lines.items ≡ seats_from (vec_len lines) 1) }
    ensures lines { IfOk result (λ s. map callers_of s.lines.items ≡ lines.items) }
    ensures posted { IfOk result (λ s. EachPair (IsPosted plan.now) plan.now.lines.now s.lines.items) }
    ensures count { IfOk result (λ s. vec_len s.lines ≡ vec_len lines) }
{
    let mut seats = Vec::with_capacity(alloc, lines.len())?;
    let mut shares = shares.into_vec();
    let time = shares.take_last();
    let wire = shares.remove(0);
    let mut lines = lines;
    lines.reverse();
    shares.reverse();
    while let Some(callers) = lines.pop() {
        let line = &plan.lines[seats.len()];
        let share = shares.take_last();
        seats.push_reserved(worker(alloc, plan, line, share, callers, clock));
    }
    Ok(Seated {
        wire,
        lines: seats,
        clock: time,
    })
}

/// What the seats give back: all shares in the order of the seats, and of each line how its worker ended, and its callers.
#[derive(Drop)]
pub struct Given<K: Callers, E: Ledger, B: Ledger> {
    pub shares: Vec<LineShare<E, B>>,
    pub ends: Vec<LineDone>,
    pub lines: Vec<K>,
}

impl<K: Callers, E: Ledger, B: Ledger> Given<K, E, B> {
    /// Nothing. It takes no memory.
    pub fn none(alloc: Global) -> Given<K, E, B>
        ensures { IsNothing result }
    {
        Given {
            shares: Vec::new(alloc),
            ends: Vec::new(alloc),
            lines: Vec::new(alloc),
        }
    }

    /// Memory for so many lines.
    pub fn reserved(alloc: Global, lines: usize) -> Result<Given<K, E, B>, AllocError>
        requires { lines ≤ 64 }
        ensures empty { IfOk result IsNothing }
        ensures room { IfOk result (λ g. lines + 2 ≤ vec_capacity g.shares) }
        ensures lines { IfOk result (HasRoom lines) }
    {
        Ok(Given {
            shares: Vec::with_capacity(alloc, lines + 2)?,
            ends: Vec::with_capacity(alloc, lines)?,
            lines: Vec::with_capacity(alloc, lines)?,
        })
    }

    /// What the seats have, in the memory that was taken before.
    pub fn filled<P: Clock>(self, seated: Seated<'_, K, P, E, B>) -> Given<K, E, B>
        requires empty { IsNothing self }
        requires room { vec_len seated.lines + 2 ≤ vec_capacity self.shares }
        requires lines { HasRoom (vec_len seated.lines) self }
        ensures shares { result.shares.items
            ≡ seated.entry.wire ∷ map share_of seated.entry.lines.items ++ seated.entry.clock ∷ [] }
        ensures ends { result.ends.items ≡ map done_of seated.entry.lines.items }
        ensures lines { result.lines.items ≡ map callers_of seated.entry.lines.items }
        ensures count { (vec_len result.ends ≡ vec_len seated.entry.lines)
            × (vec_len result.lines ≡ vec_len seated.entry.lines) }
    {
        let Given {
            mut shares,
            mut ends,
            mut lines,
        } = self;
        let Seated {
            wire,
            lines: mut seats,
            clock,
        } = seated;
        shares.push_reserved(wire);
        seats.reverse();
        while let Some(seat) = seats.pop() {
            let LineWorker {
                share,
                callers,
                done,
                ..
            } = seat;
            shares.push_reserved(share);
            ends.push_reserved(done);
            lines.push_reserved(callers);
        }
        shares.push_reserved(clock);
        Given {
            shares,
            ends,
            lines,
        }
    }
}
