//! What a line's worker does under the lock.

ghost use Rattle.std.specs.Prelude.{◌≡◌, ◌≤◌, ◌≢◌, length, true, IsSome};
ghost use Rattle.lat_base.specs.Answers.{items_asked, items_given};
ghost use Rattle.lat_history.specs.History.{state_of};
ghost use Rattle.lat_mind.specs.Kinds.{is_calling};
ghost use Rattle.lat_mind.specs.Minds.{mind_next};
ghost use Rattle.lat_mind.specs.Runs.{has_event};
ghost use Rattle.lat_outside.specs.Visits.{VisitsView};
ghost use Rattle.lat_past.specs.Counts.{put_by, put_of, seat_of};
ghost use Rattle.lat_turns.specs.Doors.{look_in};
ghost use Rattle.lat_turns.specs.Events.{put_by_move};
ghost use Rattle.lat_turns.specs.Holds.{AppliedAs, HeldAs, MayAct, event_turn};
ghost use Rattle.lat_turns.specs.Kept.{kept_look, stay_look};
ghost use Rattle.lat_turns.specs.Lives.{behind, offer_of, with_turn};
ghost use Rattle.lat_turns.specs.Tied.{Tied};
ghost use Rattle.lat_turns.specs.Work.{HeldTurns, WentOn};

use crate::desk::Desk;
use crate::door::Door;
use crate::events::{connected_as, event_of, items_of};
use crate::kept::Stay;
use lat_base::{Answer, Core, Event, Memory};
use lat_history::{Cell, CellFault, LineShare, Receipt};
use lat_mind::{Fact, Look, Move};
use lat_outside::Tx;
use lat_past::put;
use std::alloc::Global;
use std::sync::ledger::Ledger;

/// A count of the cell would pass the greatest number of its type. It is made where the cell refuses a line's event for this, and
/// nowhere else.
#[derive(Clone, Copy)]
pub struct NoCount {
    seat: u8,
}

/// What came of one hold of the lock.
#[derive(Drop)]
pub enum Held {
    /// The event of the move was applied, stands at this place of the history, and was told.
    Told {
        place: u64,
    },
    /// The move has no event: it is to be done outside the lock, and told with this look. A dial has its port.
    Outside {
        go: Move,
        look: Look,
        port: Option<u16>,
    },
    /// No memory was found for the event, and only that was told.
    Lacking,
    /// A count would pass the greatest number of its type.
    CountsOut(NoCount),
}

// The mind is told what came of its event.
fn heard(desk: &mut Desk, alloc: Global, see: &Look, go: Move, answer: Answer, number: u64)
    requires go { go ≡ mind_next desk.old.tale.mind see.now }
    requires event { has_event go ≡ true }
    requires put { go ≡ Move.Put → put_of answer ≤ length (offer_of desk.old) }
    requires took { items_given answer ≤ 65535 }
    ensures { desk.new ≡ with_turn desk.old (event_turn desk.old see.now go answer number) }
{
    match go {
        Move::Ready => desk.told(see, Fact::Readied),
        Move::Unready => desk.told(see, Fact::Unreadied),
        Move::Connect => desk.told(see, connected_as(&answer, desk.drawn(see), number)),
        Move::Avoid => desk.told(see, Fact::Avoided),
        Move::Attend => desk.told(see, Fact::Attended),
        Move::Close => desk.told(see, Fact::Closed),
        Move::Take => desk.took(see, items_of(alloc, answer)),
        Move::Put => desk.put(see, put(&answer)),
        _ => unreachable!(),
    }
}

// No memory was found for the event of a move.
fn lacking(desk: &mut Desk, see: &Look) -> Held
    requires { has_event (mind_next desk.old.tale.mind see.now) ≡ true }
    ensures held { result ≡ Held.Lacking }
    ensures told { desk.new ≡ behind desk.old see.now Fact.Lacking }
{
    desk.told(see, Fact::Lacking);
    Held::Lacking
}

// Applies the event of a move.
fn applied<C: Core, T: Tx, E: Ledger, B: Ledger>(
    desk: &mut Desk,
    alloc: Global,
    cell: &mut Cell<C, T, E, B>,
    share: &mut LineShare<E, B>,
    event: Event,
    go: Move,
    see: &Look,
) -> Held
    requires seat { seat_of event ≡ share.old.seat }
    requires go { go ≡ mind_next desk.old.tale.mind see.now }
    requires event { has_event go ≡ true }
    requires put { put_by event ≤ put_by_move go (length (offer_of desk.old)) }
    requires took { items_asked event ≤ 4096 }
    ensures applied { AppliedAs C.opening C.next C.answer C.look_of cell.old cell.new share.old share.new see.now go
        desk.old desk.new event result }
    ensures went { WentOn desk.old desk.new share.old.bytes share.new.bytes }
    ensures turns { HeldTurns result desk.old desk.new share.old.events share.new.events }
    ensures seat { (share.new.seat ≡ share.old.seat) × (share.new.parts ≡ share.old.parts) }
{
    match cell.apply(alloc, event, share) {
        Ok(Receipt { place, answer }) => {
            let number = cell.line_look(share.seat()).newest;
            heard(desk, alloc, see, go, answer, number);
            Held::Told { place }
        }
        Err(CellFault::CountsOut) => Held::CountsOut(NoCount { seat: share.seat() }),
        Err(CellFault::Memory) => lacking(desk, see),
    }
}

/// What is done under one hold of the lock: a look at the line, the move that the mind makes at it, and the event of that move,
/// whose answer is told. At a line of several sessions the mind is shown, and told with, its caller's first one until all are
/// over; and at one that takes no caller any more, that the daemon is ending. A calling line has a service.
pub fn hold<C: Core, T: Tx, E: Ledger, B: Ledger>(
    desk: &mut Desk,
    alloc: Global,
    cell: &mut Cell<C, T, E, B>,
    share: &mut LineShare<E, B>,
    door: &Door<'_>,
    stay: Stay,
) -> Held
    requires { is_calling desk.old.kind ≡ true → IsSome door.now.service }
    ensures held { let s = state_of C.opening C.next cell.old in
        let see = kept_look door.now.sessions desk.old.tale.mind (stay_look stay (look_in C.look_of
        C.correspondent_of C.waiter_of C.moment_of door.now s cell.old.stopping share.old.seat)) in
        HeldAs C.opening C.next C.answer C.look_of cell.old cell.new share.old share.new door.now
        (C.correspondent_of s share.old.seat) see (mind_next desk.old.tale.mind see) desk.old desk.new result }
    ensures act { MayAct desk.new result }
    ensures went { WentOn desk.old desk.new share.old.bytes share.new.bytes }
    ensures turns { HeldTurns result desk.old desk.new share.old.events share.new.events }
    ensures tied { (vs : VisitsView) → Tied desk.old vs → Tied desk.new vs }
    ensures seat { (share.new.seat ≡ share.old.seat) × (share.new.parts ≡ share.old.parts) }
{
    let line = share.seat();
    let see = desk.kept(door.sessions(), stay.shown(door.look(cell, line)));
    let go = desk.next(&see);
    desk.lives();
    match event_of(alloc, go, line, door.service(), desk.offer()) {
        Ok(Some(event)) => applied(desk, alloc, cell, share, event, go, &see),
        Ok(None) => Held::Outside {
            go,
            look: see,
            port: door.port_at(go, cell.correspondent(line)),
        },
        Err(Memory) => lacking(desk, &see),
    }
}
