//! What the program asks of a core beyond the calls that all cores have.

ghost use Rattle.std.specs.Prelude.{◌≡◌, ℕ, []};
ghost use Rattle.lat_lines.specs.Kept.{IsLine};

use lat_base::{Addr, Answer, Core, Event, LineBook, Memory, OutBox};
use lat_node::{NodeCore, RatingRule};
use lat_queue::Record;
use lat_seq::Span;
use lat_server::ServerCore;
use std::alloc::Global;

/// A core that tells of its lines and circuits.
pub trait Station: Core {
    // How many lines it has.
    ghost count: { Self → ℕ };

    /// Tells it an event, as `step` does.
    fn told(&mut self, alloc: Global, event: &Event, out: &mut OutBox) -> Result<Answer, Memory>
        requires valid { Self.valid self.old }
        requires empty { out.old ≡ [] }
        ensures valid { Self.valid self.new }
        ensures count { count self.new ≡ count self.old };

    /// The last two sessions of a line.
    fn book(&self, line: u8) -> LineBook
        requires line { IsLine (count self.now) line };

    /// Whether a RUN from this address, with this destination and this source, names a living circuit.
    fn names(&self, from: Addr, to: u16, source: u16) -> bool;

    /// How far the message numbers of a living circuit count.
    fn span(&self, circuit: u16) -> Option<Span>;

    /// The record of a request at this place, where the core keeps records.
    fn record_at(&self, place: usize) -> Option<Record>;

    /// How many lines have a session, where the core tells it.
    fn used(&self) -> Option<u16>;
}

impl Station for ServerCore {
    ghost use Rattle.lat_server.specs.Stands.{opening};

    ghost count = { λ k. (opening k).config.lines };

    fn told(&mut self, alloc: Global, event: &Event, out: &mut OutBox) -> Result<Answer, Memory> {
        self.step(alloc, event, out)
    }

    fn book(&self, line: u8) -> LineBook {
        self.book(line)
    }

    fn names(&self, from: Addr, to: u16, source: u16) -> bool {
        self.names(from, to, source)
    }

    fn span(&self, circuit: u16) -> Option<Span> {
        self.span(circuit)
    }

    fn record_at(&self, place: usize) -> Option<Record> {
        self.record_at(place)
    }

    fn used(&self) -> Option<u16> {
        None
    }
}

impl<H: RatingRule> Station for NodeCore<H> {
    ghost use Rattle.lat_node.specs.Stands.{opening};

    ghost count = { λ k. (opening k).config.lines };

    fn told(&mut self, alloc: Global, event: &Event, out: &mut OutBox) -> Result<Answer, Memory> {
        self.step(alloc, event, out)
    }

    fn book(&self, line: u8) -> LineBook {
        self.book(line)
    }

    fn names(&self, from: Addr, to: u16, source: u16) -> bool {
        self.names(from, to, source)
    }

    fn span(&self, circuit: u16) -> Option<Span> {
        self.span(circuit)
    }

    fn record_at(&self, _place: usize) -> Option<Record> {
        None
    }

    fn used(&self) -> Option<u16> {
        Some(self.used())
    }
}
