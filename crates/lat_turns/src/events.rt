//! The events of moves.

ghost use Rattle.std.specs.Prelude.{◌≡◌, true, option_map, IfOk, OnErr};
ghost use Rattle.lat_mind.specs.Runs.{has_event};
ghost use Rattle.lat_turns.specs.Events.{connected_as, items_of, move_event};

use lat_base::{Answer, Bytes, Event, Items, Memory, Name};
use lat_mind::{Fact, Move};
use std::alloc::Global;

/// The attention by which a peer is told that the device has gone.
const GONE_FLAG: u8 = 1;

/// How many items a take asks for.
const TAKE_ITEMS: u16 = 4096;

// The event of a put of these bytes.
fn put_event(alloc: Global, line: u8, bytes: &[u8]) -> Result<Event, Memory>
    ensures { IfOk result (λ e. e ≡ Event.Put line bytes.now) }
{
    let bytes = Bytes::copy(alloc, bytes)?;
    Ok(Event::Put { line, bytes })
}

fn connect_event(line: u8, service: Option<Name>) -> Option<Event>
    ensures { result ≡ option_map (λ s. Event.Connect line s) service }
{
    match service {
        Some(service) => Some(Event::Connect { line, service }),
        None => None,
    }
}

/// The event of a move on this line, if it has one: a connect has the service, and a put these bytes.
pub(crate) fn event_of(
    alloc: Global,
    go: Move,
    line: u8,
    service: Option<Name>,
    offer: &[u8],
) -> Result<Option<Event>, Memory>
    ensures event { IfOk result (λ e. e ≡ move_event go line service offer.now) }
    ensures memory { OnErr result (has_event go ≡ true) }
{
    Ok(match go {
        Move::Ready => Some(Event::Ready { line, ready: true }),
        Move::Unready => Some(Event::Ready { line, ready: false }),
        Move::Connect => connect_event(line, service),
        Move::Avoid => Some(Event::Avoid { line }),
        Move::Attend => Some(Event::Attend {
            line,
            flag: GONE_FLAG,
        }),
        Move::Close => Some(Event::Close { line }),
        Move::Take => Some(Event::Take {
            line,
            n: TAKE_ITEMS,
        }),
        Move::Put => Some(put_event(alloc, line, offer)?),
        _ => None,
    })
}

/// What is told of a connect, the line's newest session then having this number.
pub(crate) fn connected_as(answer: &Answer, drawn: u64, number: u64) -> Fact
    ensures { result ≡ connected_as answer.now drawn number }
{
    match answer {
        Answer::Connected { .. } => {
            if drawn < number {
                Fact::Connected(number)
            } else {
                Fact::Unconnected
            }
        }
        _ => Fact::Unconnected,
    }
}

/// The items that an answer gives.
pub(crate) fn items_of(alloc: Global, answer: Answer) -> Items
    ensures { result ≡ items_of answer }
{
    match answer {
        Answer::Took(items) => items,
        _ => Items::new(alloc),
    }
}
