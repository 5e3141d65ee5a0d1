//! What a core was made of.

ghost use Rattle.std.specs.Prelude.{◌≡◌, [], ◌∷◌, ◌++◌, OnOk, OnErr};

use lat_base::Memory;
use lat_node::NodeConfig;
use lat_server::ServerConfig;
use lat_switch::SwitchConfig;
use std::alloc::Global;
use std::marker::Model;

/// How a node rates a service: a rule that answers 0 exactly where all lines are held.
#[derive(Clone, Copy)]
pub enum Rate {
    /// By the lines that are free, 255 at most.
    Free,
    /// So much for each line that is free, 255 at most in all. At least 1.
    Each(u8),
    /// So much while a line is free, else 0. At least 1.
    WhileFree(u8),
}

/// The rates of services, in their order. Contracts see the list.
pub struct Rates {
    rates: Vec<Rate>,
}

impl Drop for Rates {
    fn drop(self) {
        let Self { rates } = self;
    }
}

impl Model for Rates {
    ghost use Rattle.std.specs.Prelude.{List};
    ghost use Rattle.lat_record.specs.declared.opening.Rate.{Rate};

    ghost Value = { List Rate };

    ghost view = { λ a. a.rates.items };
}

impl Rates {
    /// No rate. It takes no memory.
    pub fn new(alloc: Global) -> Rates
        ensures { result ≡ [] }
    {
        Rates {
            rates: Vec::new(alloc),
        }
    }

    /// Adds a rate at the end, for which it may take memory. `Memory` where none is found; then nothing has changed.
    pub fn push(&mut self, rate: Rate) -> Result<(), Memory>
        ensures ok { OnOk result (self.new ≡ self.old ++ rate ∷ []) }
        ensures err { OnErr result (self.new ≡ self.old) }
    {
        match self.rates.push(rate) {
            Ok(()) => Ok(()),
            Err(_) => Err(Memory),
        }
    }

    /// The rates, first to last.
    pub fn as_slice(&self) -> &[Rate]
        ensures { result.now ≡ self.now }
    {
        self.rates.as_slice()
    }
}

/// What a node was made of, and the rates of its services in their order. A core whose rates are no such rules has none of them.
pub struct NodeOpening {
    pub config: NodeConfig,
    pub rates: Rates,
}

impl Drop for NodeOpening {
    fn drop(self) {
        let Self { config, rates } = self;
    }
}

/// What a core was made of, by its role.
pub enum Opening {
    Server(ServerConfig),
    Switch(SwitchConfig),
    Node(NodeOpening),
}

impl Drop for Opening {
    fn drop(self) {
        match self {
            Opening::Server(_config) => {}
            Opening::Switch(_config) => {}
            Opening::Node(_opening) => {}
        }
    }
}
