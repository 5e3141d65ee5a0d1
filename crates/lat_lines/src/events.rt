//! The call on a line's session that an event is.

ghost use Rattle.std.specs.Prelude.{◌≡◌, MatchOption};
ghost use Rattle.lat_lines.specs.Calls.{event_of, IsNoCall};

use lat_base::Event;
use lat_circuit::SessionCall;

/// The line and the call, where the event is one on a line's session: `Put`, `Set`, `Attend` or `Close`.
pub fn line_call(event: &Event) -> Option<(u8, SessionCall<'_>)>
    ensures { MatchOption result (IsNoCall event.now) (λ c. event.now ≡ event_of c.0 c.1) }
{
    match event {
        Event::Put { line, bytes } => Some((*line, SessionCall::Put(bytes.as_slice()))),
        Event::Set { line, setting } => Some((*line, SessionCall::Set(*setting))),
        Event::Attend { line, flag } => Some((*line, SessionCall::Attend(*flag))),
        Event::Close { line } => Some((*line, SessionCall::Close)),
        Event::Heard { .. }
        | Event::Time { .. }
        | Event::Connect { .. }
        | Event::Take { .. }
        | Event::Request { .. }
        | Event::Cancel { .. }
        | Event::Announce
        | Event::Avoid { .. }
        | Event::Ready { .. }
        | Event::Halt => None,
    }
}
