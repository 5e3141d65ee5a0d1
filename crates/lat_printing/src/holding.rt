//! What a worker of jobs does under the lock.

ghost use Rattle.std.specs.Prelude.{◌≡◌, ◌≤◌, length, true};
ghost use Rattle.lat_base.specs.Answers.{items_asked, items_given};
ghost use Rattle.lat_history.specs.History.{state_of};
ghost use Rattle.lat_jobs.specs.Minds.{mind_next};
ghost use Rattle.lat_jobs.specs.Runs.{has_event, number_in};
ghost use Rattle.lat_past.specs.Counts.{put_by, put_of, seat_of};
ghost use Rattle.lat_printing.specs.Desks.{desk_told, offer_of};
ghost use Rattle.lat_printing.specs.Events.{put_by_move};
ghost use Rattle.lat_printing.specs.Holds.{AppliedAs, HeldAs, MadeAs, MovesAt, told_of};
ghost use Rattle.lat_printing.specs.Posts.{job_look, line_of};

use crate::desk::JobDesk;
use crate::events::{event_of, items_of, move_seat, number_for};
use crate::post::{JobPost, News};
use lat_base::{Answer, Core, Event, Memory};
use lat_history::{Cell, CellFault, LineShare, Receipt};
use lat_jobs::{Fact, Look, Move, Numbers};
use lat_outside::Tx;
use lat_past::put;
use std::alloc::Global;
use std::sync::ledger::Ledger;

/// What came of one hold of the lock for a job.
#[derive(Drop)]
pub enum Held {
    /// The event of the move was applied, stands at this place of the history, and was told.
    Told { place: u64 },
    /// The move has no event: it is to be done outside the lock, and told with this look.
    Outside { go: Move, look: Look },
    /// The event of the move is of this seat, whose share wasn't lent: nothing was done.
    Elsewhere { seat: u8 },
    /// No number is left for a request, and only that was told.
    NumbersOut,
    /// No memory was found for the event, and only that was told.
    Lacking,
    /// A count would pass the greatest number of its type.
    CountsOut,
}

// The mind is told what came of its event.
fn heard(desk: &mut JobDesk, alloc: Global, see: &Look, go: Move, answer: Answer, number: u16)
    requires event { has_event go ≡ true }
    requires put { go ≡ Move.Put → put_of answer ≤ length (offer_of desk.old) }
    requires took { items_given answer ≤ 65535 }
    ensures { desk.new ≡ told_of desk.old see.now go answer number }
{
    match go {
        Move::Ask => desk.told(see, Fact::Asked(number)),
        Move::Repeat => desk.told(see, Fact::Repeated),
        Move::Cancel => desk.told(see, Fact::Cancelled),
        Move::Close => desk.told(see, Fact::Closed),
        Move::Take => desk.took(see, items_of(alloc, answer)),
        Move::Put => desk.put(see, put(&answer)),
        _ => unreachable!(),
    }
}

// Applies the event of a move.
fn applied<C: Core, T: Tx, E: Ledger, B: Ledger>(
    desk: &mut JobDesk,
    alloc: Global,
    cell: &mut Cell<C, T, E, B>,
    share: &mut LineShare<E, B>,
    event: Event,
    go: Move,
    see: &Look,
    number: u16,
) -> Held
    requires seat { seat_of event ≡ share.old.seat }
    requires event { has_event go ≡ true }
    requires put { put_by event ≤ put_by_move go (length (offer_of desk.old)) }
    requires took { items_asked event ≤ 4096 }
    ensures { AppliedAs C.opening C.next C.answer cell.old cell.new share.old share.new see.now go number desk.old desk.new event result }
{
    match cell.apply(alloc, event, share) {
        Ok(Receipt { place, answer }) => {
            heard(desk, alloc, see, go, answer, number);
            Held::Told { place }
        }
        Err(CellFault::CountsOut) => Held::CountsOut,
        Err(CellFault::Memory) => {
            desk.told(see, Fact::Lacking);
            Held::Lacking
        }
    }
}

// Makes the event of a move of the share's seat, and applies it.
fn made<C: Core, T: Tx, E: Ledger, B: Ledger>(
    desk: &mut JobDesk,
    alloc: Global,
    cell: &mut Cell<C, T, E, B>,
    share: &mut LineShare<E, B>,
    post: &JobPost,
    go: Move,
    see: &Look,
    number: u16,
) -> Held
    requires seat { MovesAt go share.old.seat }
    ensures { MadeAs C.opening C.next C.answer cell.old cell.new share.old share.new post.now see.now go number desk.old desk.new result }
{
    match event_of(alloc, go, share.seat(), post, number, desk.offer()) {
        Ok(Some(event)) => applied(desk, alloc, cell, share, event, go, see, number),
        Ok(None) => unreachable!(),
        Err(Memory) => {
            desk.told(see, Fact::Lacking);
            Held::Lacking
        }
    }
}

/// What is done under one hold of the lock for a job: a look, the move that the mind makes at it, and the event of that move, whose
/// answer is told, where the event is of the lent share's seat. An ask draws a number. `turn` says whether the job may ask.
pub fn hold<C: Core, T: Tx, E: Ledger, B: Ledger>(
    desk: &mut JobDesk,
    alloc: Global,
    cell: &mut Cell<C, T, E, B>,
    share: &mut LineShare<E, B>,
    post: &JobPost,
    numbers: &mut Numbers,
    news: News,
    turn: bool,
) -> Held
    ensures { let s = state_of C.opening C.next cell.old in
        let own = number_in desk.old.mind.phase in
        let line = line_of (C.correspondent_of s) post.now own in
        let see = job_look (C.look_of s) line own news cell.old.stopping (C.moment_of s) in
        HeldAs C.opening C.next C.answer cell.old cell.new share.old share.new post.now line see (mind_next desk.old.mind see turn)
        numbers.old.drawn numbers.new.drawn desk.old desk.new result }
{
    let own = desk.number();
    let line = post.line(cell, own);
    let see = post.look(cell, own, line, news);
    let go = desk.next(&see, turn);
    let Some(seat) = move_seat(go, line) else {
        return Held::Outside { go, look: see };
    };
    if seat != share.seat() {
        return Held::Elsewhere { seat };
    }
    match number_for(go, own, numbers) {
        Some(number) => made(desk, alloc, cell, share, post, go, &see, number),
        None => {
            desk.told(&see, Fact::Unasked);
            Held::NumbersOut
        }
    }
}
