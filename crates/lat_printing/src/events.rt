//! The events of moves.

ghost use Rattle.std.specs.Prelude.{◌≡◌, IfOk};
ghost use Rattle.lat_printing.specs.Events.{items_of, move_event, move_seat, number_for, numbers_behind};

use crate::post::JobPost;
use lat_base::{Answer, Bytes, Event, Items, Memory};
use lat_jobs::{Move, Numbers};
use lat_past::CLOCK;
use std::alloc::Global;

/// How many items a take asks for.
const TAKE_ITEMS: u16 = 4096;

/// The seat whose event the move is, where its session has this line. `None` of a move without an event.
pub(crate) fn move_seat(go: Move, line: Option<u8>) -> Option<u8>
    ensures { result ≡ move_seat go line }
{
    match go {
        Move::Ask | Move::Repeat | Move::Cancel => Some(CLOCK),
        Move::Put | Move::Take | Move::Close => line,
        _ => None,
    }
}

/// The number of the move's request: a new one for an ask, `None` where none is left, and else the job's.
pub(crate) fn number_for(go: Move, own: u16, numbers: &mut Numbers) -> Option<u16>
    ensures number { result ≡ number_for go own numbers.old.drawn }
    ensures after { numbers.new.drawn ≡ numbers_behind go numbers.old.drawn }
{
    match go {
        Move::Ask => numbers.draw(),
        _ => Some(own),
    }
}

// The event of a put of these bytes.
fn put_event(alloc: Global, line: u8, bytes: &[u8]) -> Result<Event, Memory>
    ensures { IfOk result (λ e. e ≡ Event.Put line bytes.now) }
{
    let bytes = Bytes::copy(alloc, bytes)?;
    Ok(Event::Put { line, bytes })
}

/// The event of a move of this seat, if it has one: a request is made under this number, and a put has these bytes.
pub(crate) fn event_of(
    alloc: Global,
    go: Move,
    seat: u8,
    post: &JobPost,
    number: u16,
    offer: &[u8],
) -> Result<Option<Event>, Memory>
    ensures { IfOk result (λ e. e ≡ move_event go seat post.now number offer.now) }
{
    Ok(match go {
        Move::Ask | Move::Repeat => Some(Event::Request {
            to: post.server,
            id: number,
            service: post.service,
        }),
        Move::Cancel => Some(Event::Cancel { id: number }),
        Move::Put => Some(put_event(alloc, seat, offer)?),
        Move::Take => Some(Event::Take {
            line: seat,
            n: TAKE_ITEMS,
        }),
        Move::Close => Some(Event::Close { line: seat }),
        _ => None,
    })
}

/// The items that an answer gives.
pub(crate) fn items_of(alloc: Global, answer: Answer) -> Items
    ensures { result ≡ items_of answer }
{
    match answer {
        Answer::Took(items) => items,
        _ => Items::new(alloc),
    }
}
