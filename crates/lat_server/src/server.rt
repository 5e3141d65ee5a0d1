//! The server core.

ghost use Rattle.std.specs.Prelude.{◌≡◌, ℕ, ◌<◌, ◌≤◌, map, length, IfOk, OnOk, OnErr, OnSome};
ghost use Rattle.lat_machines.specs.cores.Books.{book};
ghost use Rattle.lat_machines.specs.cores.Cores.{span};
ghost use Rattle.lat_machines.specs.cores.Hearing.{names};
ghost use Rattle.lat_machines.specs.server.Records.{record_at};
ghost use Rattle.lat_machines.specs.server.Server.{Server};
ghost use Rattle.lat_machines.specs.values.Addresses.{address};
ghost use Rattle.lat_stream.specs.Kept.{saturated};
ghost use Rattle.lat_lines.specs.circuits.Info.{some_span};
ghost use Rattle.lat_lines.specs.Kept.{IsLine};
ghost use Rattle.lat_lines.specs.Stands.{book_shown, book_info};
ghost use Rattle.lat_queue.specs.Histories.{some_record};
ghost use Rattle.lat_server.specs.Config.{config_shown, IsConfig};
ghost use Rattle.lat_lines.specs.Answers.{ready};
ghost use Rattle.lat_server.specs.Kept.{config_of, AtRest, SameConfig, HasSpare};
ghost use Rattle.lat_server.specs.Stands.{Stands, opening, IsMachine};

use crate::config::{Offer, Offers, ServerConfig};
use crate::gate::Gate;
use lat_base::{Addr, LineBook, Memory};
use lat_dir::Directory;
use lat_lines::Lines;
use lat_queue::{Queue, Record, Services16};
use lat_seq::Span;
use std::alloc::Global;
use std::marker::Model;

/// A terminal server: its lines with their sessions and circuits, the services that it knows of, and the requests of nodes.
/// Contracts say for every state of the server machine that it stands for what it stands for afterwards. See "Cores" in
/// docs/PROTOCOL.md.
pub struct ServerCore {
    pub(crate) lines: Lines,
    pub(crate) offers: Offers,
    pub(crate) directory: Directory,
    pub(crate) queue: Queue,
    /// The last Solicit id drawn.
    pub(crate) solicits: u16,
    pub(crate) gate: Gate,
    pub(crate) prompt: bool,
}

impl Drop for ServerCore {
    fn drop(self) {
        let Self {
            lines,
            offers,
            directory,
            queue,
            solicits,
            gate,
            prompt,
        } = self;
    }
}

impl Model for ServerCore {
    ghost use Rattle.lat_server.specs.Kept.{Kept, Holds};
    ghost use Rattle.lat_server.specs.Shown.{shown};

    ghost Value = { Kept };

    ghost view = { shown };

    ghost invariant = { λ a. Holds (shown a) };
}

// The services of these offers, in their order.
fn services(alloc: Global, offers: &[Offer]) -> Result<Services16, Memory>
    requires { length offers.now ≤ 32 }
    ensures { IfOk result (λ services. services ≡ map (λ (o : Offer). o.service) offers.now) }
{
    let mut services = Services16::make(alloc);
    for offer in offers {
        services.push(&offer.service)?;
    }
    Ok(services)
}

// A list of its own of these offers.
fn copy(alloc: Global, offers: &[Offer]) -> Result<Offers, Memory>
    ensures { IfOk result (λ copied. copied ≡ offers.now) }
{
    let mut copied = Offers::new(alloc);
    for offer in offers {
        copied.push(*offer)?;
    }
    Ok(copied)
}

impl ServerCore {
    /// The server of a valid configuration at moment 0, as it is opened: no circuit, no session, no service known, no request.
    /// Takes the memory of its lines, its directory and its queue, and none for circuits; `Memory` where none is found.
    pub fn make(alloc: Global, config: &ServerConfig) -> Result<ServerCore, Memory>
        requires { IsConfig config.now }
        ensures stands { IfOk result (λ k. IsMachine k (opening k)) }
        ensures config { IfOk result (λ k. config_of k ≡ config_shown config.now) }
        ensures rest { IfOk result AtRest }
    {
        let offers = config.offers.as_slice();
        let services = services(alloc, offers)?;
        Ok(ServerCore {
            lines: Lines::make(
                alloc,
                config.own,
                config.name,
                config.timing,
                true,
                config.first,
                config.lines,
            )?,
            offers: copy(alloc, offers)?,
            directory: Directory::make(alloc, &config.groups)?,
            queue: Queue::make(alloc, services)?,
            solicits: 0,
            gate: Gate::open(),
            prompt: config.prompt,
        })
    }

    /// Takes memory, so that there is some for a circuit to each request that waits and for `more` circuits, at most 8, or for
    /// as many as may live. Nothing else changes, and after `Memory` nothing at all.
    pub fn reserve(&mut self, alloc: Global, more: usize) -> Result<(), Memory>
        requires { more ≤ 8 }
        ensures state { (s : Server) → Stands self.old s → Stands self.new s }
        ensures same { SameConfig self.old self.new }
        ensures lines { (line : ℕ) → ready self.new.lines line ≡ ready self.old.lines line }
        ensures rest { AtRest self.old → AtRest self.new }
        ensures spare { OnOk result (HasSpare more self.new) }
        ensures err { OnErr result (self.new ≡ self.old) }
    {
        let count = self.queue.count_waiting() + more;
        self.lines.reserve(alloc, count)
    }

    /// How many lines it has, numbered from 1.
    pub fn lines(&self) -> u8
        ensures { result ≡ self.now.lines.lines }
    {
        self.lines.count()
    }

    /// The record of a request, by the order of first commands from 0 on; `None` exactly past the last, and so at 65,536 and
    /// behind it. It takes no memory.
    pub fn record_at(&self, place: usize) -> Option<Record>
        ensures value { (s : Server) → Stands self.now s →
            some_record result ≡ record_at place s.queue }
        ensures few { OnSome result (place < 65536) }
    {
        self.queue.record_at(place)
    }

    /// The last two sessions of a line, which must exist. It takes no memory.
    pub fn book(&self, line: u8) -> LineBook
        requires { IsLine self.now.lines.lines line }
        ensures { (s : Server) → Stands self.now s →
            book_shown result ≡ book_info (book s.core line) }
    {
        self.lines.book(line)
    }

    /// How many sessions its lines have had. It stops at the greatest number of 64 bits.
    pub fn made(&self) -> u64
        ensures { (s : Server) → Stands self.now s → result ≡ saturated (length s.core.seats) }
    {
        self.lines.made()
    }

    /// Whether a RUN from this address, with this destination and this source, names a living circuit whose reply was heard.
    pub fn names(&self, from: Addr, to: u16, source: u16) -> bool
        ensures { (s : Server) → Stands self.now s →
            result ≡ names s.core.circuits (address from.0) to source }
    {
        self.lines.names(from, to, source)
    }

    /// How far the message numbers of a circuit count, `None` exactly where no circuit of this id lives.
    pub fn span(&self, circuit: u16) -> Option<Span>
        ensures { (s : Server) → Stands self.now s → result ≡ some_span (span s.core circuit) }
    {
        self.lines.span(circuit)
    }
}
