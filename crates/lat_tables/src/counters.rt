//! What a daemon counts.

ghost use Rattle.std.specs.Prelude.{◌≡◌};
ghost use Rattle.lat_tables.specs.Counts.{answered, counted, framed, none, rejected, session, told, with_news};

use crate::field_count::{FIELD_COUNT, field_place};
use lat_base::{Answer, Event, Heard, Mark, OutFrame};
use lat_log::{Entry, Over, SessionNews};

/// What a daemon has counted since its start. Each count stops at 2^64 - 1.
#[derive(Clone, Copy)]
pub struct Counters {
    /// Events that the core was told.
    pub events: u64,
    /// Frames that were heard, of whatever kind.
    pub heard: u64,
    /// Frames that were sent, and how many of them were messages that went out again.
    pub sent: u64,
    pub sent_again: u64,
    /// Datagrams that came from nobody's port. The carrier knows it.
    pub stray: u64,
    /// Messages that belong to no living circuit.
    pub foreign: u64,
    /// Frames of no layout, by the place of their first bad field in the order of fields.
    pub bad: [u64; FIELD_COUNT],
    /// STARTs for which there was no room.
    pub starts_refused: u64,
    /// Bytes that puts took, and items that takes gave.
    pub put: u64,
    pub taken: u64,
    /// Sessions that ended after both stops, with their circuit, or unseen.
    pub closed: u64,
    pub by_circuit: u64,
    pub unseen: u64,
    /// Sessions that were rejected: no such service, no such request, no room, or another reason.
    pub no_service: u64,
    pub no_request: u64,
    pub no_room: u64,
    pub rejected: u64,
}

impl Counters {
    /// Nothing was counted.
    pub fn new() -> Counters
        ensures { result ≡ none }
    {
        Counters {
            events: 0,
            heard: 0,
            sent: 0,
            sent_again: 0,
            stray: 0,
            foreign: 0,
            bad: [0; FIELD_COUNT],
            starts_refused: 0,
            put: 0,
            taken: 0,
            closed: 0,
            by_circuit: 0,
            unseen: 0,
            no_service: 0,
            no_request: 0,
            no_room: 0,
            rejected: 0,
        }
    }

    // Counts what a circuit answered.
    fn heard_of(&mut self, heard: Heard)
        ensures { self.new ≡ told heard self.old }
    {
        if let Heard::Foreign = heard {
            self.foreign = self.foreign.saturating_add(1);
        }
    }

    // Counts what an answer says.
    fn answered(&mut self, answer: &Answer)
        ensures { self.new ≡ answered answer.now self.old }
    {
        match answer {
            Answer::Circuit(heard) => self.heard_of(*heard),
            Answer::StartRefused => self.starts_refused = self.starts_refused.saturating_add(1),
            Answer::Bad(bad) => {
                let place = field_place(bad.field);
                self.bad[place] = self.bad[place].saturating_add(1);
            }
            Answer::Put(count) => self.put = self.put.saturating_add(u64::from(*count)),
            Answer::Took(items) => {
                self.taken = self.taken.saturating_add(items.as_slice().len() as u64);
            }
            _ => {}
        }
    }

    /// Counts an event, with its answer.
    pub fn count(&mut self, event: &Event, answer: &Answer)
        ensures { self.new ≡ counted event.now answer.now self.old }
    {
        self.events = self.events.saturating_add(1);
        if let Event::Heard { .. } = event {
            self.heard = self.heard.saturating_add(1);
        }
        self.answered(answer);
    }

    /// Counts a frame that was sent.
    pub fn count_sent(&mut self, frame: &OutFrame)
        ensures { self.new ≡ framed frame.now self.old }
    {
        self.sent = self.sent.saturating_add(1);
        if let Mark::Again(_) = frame.mark {
            self.sent_again = self.sent_again.saturating_add(1);
        }
    }

    // Counts a session that was rejected for this reason.
    fn reject(&mut self, reason: u8)
        ensures { self.new ≡ rejected reason self.old }
    {
        match reason {
            4 => self.no_service = self.no_service.saturating_add(1),
            5 => self.no_request = self.no_request.saturating_add(1),
            7 => self.no_room = self.no_room.saturating_add(1),
            _ => self.rejected = self.rejected.saturating_add(1),
        }
    }

    // Counts what is new of a session.
    fn session(&mut self, news: SessionNews)
        ensures { self.new ≡ session news self.old }
    {
        match news {
            SessionNews::Rejected(reason) => self.reject(reason),
            SessionNews::Ended {
                over: Over::Closed,
                ..
            } => {
                self.closed = self.closed.saturating_add(1);
            }
            SessionNews::Ended {
                over: Over::Circuit(_),
                ..
            } => {
                self.by_circuit = self.by_circuit.saturating_add(1);
            }
            SessionNews::Ended {
                over: Over::Unseen,
                ..
            } => {
                self.unseen = self.unseen.saturating_add(1);
            }
            SessionNews::Live | SessionNews::Hidden => {}
        }
    }

    /// Counts what an entry of the log says of sessions.
    pub fn count_news(&mut self, entry: &Entry)
        ensures { self.new ≡ with_news entry.now self.old }
    {
        if let Entry::Session { news, .. } = entry {
            self.session(*news);
        }
    }
}
