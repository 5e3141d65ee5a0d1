//! The node core.

ghost use Rattle.std.specs.Prelude.{◌≡◌, ◌≤◌, length, IfOk};
ghost use Rattle.lat_machines.specs.cores.Books.{book};
ghost use Rattle.lat_machines.specs.cores.Cores.{span};
ghost use Rattle.lat_machines.specs.cores.Hearing.{names};
ghost use Rattle.lat_machines.specs.cores.Lines.{used};
ghost use Rattle.lat_machines.specs.node.Node.{Node};
ghost use Rattle.lat_machines.specs.values.Addresses.{address};
ghost use Rattle.lat_stream.specs.Kept.{saturated};
ghost use Rattle.lat_lines.specs.circuits.Info.{some_span};
ghost use Rattle.lat_lines.specs.Kept.{IsLine};
ghost use Rattle.lat_lines.specs.Stands.{book_shown, book_info};
ghost use Rattle.lat_node.specs.Config.{config_shown, IsConfig};
ghost use Rattle.lat_node.specs.Kept.{config_of, AtRest};
ghost use Rattle.lat_node.specs.Stands.{Stands, opening, IsMachine};

use crate::config::NodeConfig;
use crate::hook::RatingRule;
use crate::requests::Request;
use indexmap::IndexMap;
use lat_base::{Addr, Bytes, LineBook, Memory, Name};
use lat_lines::Lines;
use lat_queue::Services16;
use lat_seq::Span;
use std::alloc::Global;
use std::marker::Model;

/// A service node: its lines with their sessions and circuits, the services that it offers with the rule of their ratings, and
/// its requests. Contracts say for every state of the node machine that it stands for what it stands for afterwards. See
/// "Cores" in docs/PROTOCOL.md.
pub struct NodeCore<H> {
    pub(crate) lines: Lines,
    pub(crate) services: Services16,
    pub(crate) incarnation: u16,
    /// In seconds.
    pub(crate) timer: u8,
    pub(crate) groups: Bytes,
    pub(crate) prompt: bool,
    /// By their ids, in the order in which they were first made.
    pub(crate) requests: IndexMap<u16, Request>,
    /// How many asked sessions became free without a line.
    pub(crate) turned_away: u32,
    /// Whether it makes no circuit any more.
    pub(crate) halted: bool,
    pub(crate) rule: H,
}

impl<H: Drop> Drop for NodeCore<H> {
    fn drop(self) {
        let Self {
            lines,
            services,
            incarnation,
            timer,
            groups,
            prompt,
            requests,
            turned_away,
            halted,
            rule,
        } = self;
    }
}

impl<H> Model for NodeCore<H> {
    ghost use Rattle.lat_node.specs.Kept.{Kept, Holds};
    ghost use Rattle.lat_node.specs.Shown.{shown};

    ghost Value = { Kept H };

    ghost view = { shown };

    ghost invariant = { λ a. Holds (shown a) };
}

// Services of their own with these names.
fn copy(alloc: Global, names: &[Name]) -> Result<Services16, Memory>
    requires { length names.now ≤ 32 }
    ensures { IfOk result (λ copied. copied ≡ names.now) }
{
    let mut copied = Services16::make(alloc);
    for name in names {
        copied.push(name)?;
    }
    Ok(copied)
}

impl<H: RatingRule> NodeCore<H> {
    /// The node of a valid configuration at moment 0, as it is opened: no circuit, no session, no request. Its ratings are the
    /// rule's. Takes the memory of its lines, and none for circuits; `Memory` where none is found.
    pub fn make(alloc: Global, config: &NodeConfig, rule: H) -> Result<NodeCore<H>, Memory>
        requires config { IsConfig config.now }
        requires fact { H.fact rule }
        ensures stands { IfOk result (λ k. IsMachine k (opening k)) }
        ensures config { IfOk result (λ k.
            (config_of k ≡ config_shown config.now) × (k.rule ≡ rule)) }
        ensures rest { IfOk result (λ k. AtRest k × H.fact k.rule) }
    {
        Ok(NodeCore {
            lines: Lines::make(
                alloc,
                config.own,
                config.name,
                config.timing,
                false,
                config.first,
                config.lines,
            )?,
            services: copy(alloc, config.services.as_slice())?,
            incarnation: config.incarnation,
            timer: config.timer,
            groups: Bytes::copy(alloc, config.groups.as_slice())?,
            prompt: config.prompt,
            requests: IndexMap::new(alloc),
            turned_away: 0,
            halted: false,
            rule,
        })
    }

    /// How many lines it has, numbered from 1.
    pub fn lines(&self) -> u8
        ensures { result ≡ self.now.lines.lines }
    {
        self.lines.count()
    }

    /// The last two sessions of a line, which must exist. It takes no memory.
    pub fn book(&self, line: u8) -> LineBook
        requires { IsLine self.now.lines.lines line }
        ensures { (s : Node) → Stands self.now s →
            book_shown result ≡ book_info (book s.core line) }
    {
        self.lines.book(line)
    }

    /// How many sessions its lines have had. It stops at the greatest number of 64 bits.
    pub fn made(&self) -> u64
        ensures { (s : Node) → Stands self.now s → result ≡ saturated (length s.core.seats) }
    {
        self.lines.made()
    }

    /// Whether a RUN from this address, with this destination and this source, names a living circuit.
    pub fn names(&self, from: Addr, to: u16, source: u16) -> bool
        ensures { (s : Node) → Stands self.now s →
            result ≡ names s.core.circuits (address from.0) to source }
    {
        self.lines.names(from, to, source)
    }

    /// How far the message numbers of a circuit count, `None` exactly where no circuit of this id lives.
    pub fn span(&self, circuit: u16) -> Option<Span>
        ensures { (s : Node) → Stands self.now s → result ≡ some_span (span s.core circuit) }
    {
        self.lines.span(circuit)
    }

    /// Whether it was halted: it makes no circuit any more, and announces nothing.
    pub fn is_halted(&self) -> bool
        ensures { result ≡ self.now.halted }
    {
        self.halted
    }

    /// How many lines have a session.
    pub fn used(&self) -> u16
        ensures model { (s : Node) → Stands self.now s → result ≡ used s.core }
        ensures most { result ≤ self.now.lines.lines }
    {
        self.lines.used()
    }
}
