//! Events with their answers.

ghost use Rattle.std.specs.Prelude.{◌≡◌, ◌≤◌};
ghost use Rattle.lat_base.specs.Answers.{items_given};
ghost use Rattle.lat_past.specs.Counts.{seat_of, bytes_in, put_of};

use lat_base::{Answer, Event};

/// The seat of the wire. The lines have the seats behind it, by their numbers.
pub const WIRE: u8 = 0;

/// The seat of the clock.
pub const CLOCK: u8 = 65;

/// How many seats there are: the wire, 64 lines and the clock.
pub const SEATS: u8 = 66;

/// An event and what it was answered.
pub struct Past {
    pub event: Event,
    pub answer: Answer,
}

impl Drop for Past {
    fn drop(self) {
        let Self { event, answer } = self;
    }
}

impl Past {
    /// The event, and its answer.
    pub fn into_parts(self) -> (Event, Answer)
        ensures { (result.0 ≡ self.event) × (result.1 ≡ self.answer) }
    {
        let Self { event, answer } = self;
        (event, answer)
    }
}

/// Whose event it is: its line for an event with a line, `WIRE` for what was heard, `CLOCK` for the others.
pub fn seat(event: &Event) -> u8
    ensures { result ≡ seat_of event.now }
{
    match event {
        Event::Heard { .. } => WIRE,
        Event::Connect { line, .. }
        | Event::Put { line, .. }
        | Event::Set { line, .. }
        | Event::Take { line, .. }
        | Event::Attend { line, .. }
        | Event::Close { line }
        | Event::Avoid { line }
        | Event::Ready { line, .. } => *line,
        Event::Time { .. }
        | Event::Request { .. }
        | Event::Cancel { .. }
        | Event::Announce
        | Event::Halt => CLOCK,
    }
}

/// How many bytes a history keeps of it: those of a payload or of a put.
pub fn bytes(event: &Event) -> u64
    ensures { result ≡ bytes_in event.now }
{
    match event {
        Event::Heard { payload, .. } => payload.as_slice().len() as u64,
        Event::Put { bytes, .. } => bytes.as_slice().len() as u64,
        _ => 0,
    }
}

/// How many items an answer gives.
pub fn took(answer: &Answer) -> u16
    requires { items_given answer.now ≤ 65535 }
    ensures { result ≡ items_given answer.now }
{
    match answer {
        Answer::Took(items) => items.as_slice().len() as u16,
        _ => 0,
    }
}

/// How many bytes an answer says were put.
pub fn put(answer: &Answer) -> u16
    ensures { result ≡ put_of answer.now }
{
    match answer {
        Answer::Put(count) => *count,
        _ => 0,
    }
}
