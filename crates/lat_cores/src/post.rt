//! A core at its address.

ghost use Rattle.std.specs.Prelude.{◌≡◌, []};

use crate::station::Station;
use lat_base::{Addr, Answer, Event, LineBook, Memory, OutBox, SessionState};
use lat_queue::Record;
use lat_seq::Span;
use std::alloc::Global;
use std::marker::Model;

/// A core that may be called at any time, with its address and its number of lines.
#[derive(Drop)]
pub struct Post<C: Station> {
    core: C,
    own: Addr,
    lines: u8,
}

impl<C: Station> Model for Post<C> {
    ghost use Rattle.std.specs.Prelude.{◌≡◌};

    ghost Value = { C };

    ghost view = { λ a. a.core };

    ghost invariant = { λ a. C.valid a.core × (C.count a.core ≡ a.lines) };
}

impl<C: Station> Post<C> {
    /// A core of so many lines.
    pub fn new(core: C, own: Addr, lines: u8) -> Post<C>
        requires valid { C.valid core }
        requires lines { C.count core ≡ lines }
    {
        Post { core, own, lines }
    }

    /// Its address.
    pub fn own(&self) -> Addr {
        self.own
    }

    /// One event, with an empty box for its frames.
    pub fn step(&mut self, alloc: Global, event: &Event, out: &mut OutBox) -> Result<Answer, Memory>
        requires { out.old ≡ [] }
    {
        self.core.told(alloc, event, out)
    }

    /// The state of a line's session; free where there is no such line.
    pub fn state(&self, line: u8) -> SessionState {
        self.core.look(line).state
    }

    /// How many items wait at a line; 0 where there is no such line.
    pub fn waiting(&self, line: u8) -> u16 {
        self.core.look(line).waiting
    }

    /// The core's moment, in milliseconds.
    pub fn moment(&self) -> u64 {
        self.core.moment()
    }

    /// How many of its sessions have become free.
    pub fn finished(&self) -> u32 {
        self.core.finished()
    }

    /// The last two sessions of a line; `None` where there is no such line.
    pub fn book(&self, line: u8) -> Option<LineBook> {
        if line == 0 || line > self.lines {
            return None;
        }
        Some(self.core.book(line))
    }

    /// Whether a RUN from this address, with this destination and this source, names a living circuit.
    pub fn names(&self, from: Addr, to: u16, source: u16) -> bool {
        self.core.names(from, to, source)
    }

    /// How far the message numbers of a living circuit count.
    pub fn span(&self, circuit: u16) -> Option<Span> {
        self.core.span(circuit)
    }

    /// The record of a request at this place, where the core keeps records.
    pub fn record_at(&self, place: usize) -> Option<Record> {
        self.core.record_at(place)
    }

    /// How many lines have a session, where the core tells it.
    pub fn used(&self) -> Option<u16> {
        self.core.used()
    }
}
