//! What is kept of a node.

ghost use Rattle.std.specs.Prelude.{◌≡◌, nat_lt, nat_eq, IfOk};
ghost use Rattle.lat_base.specs.Addresses.{addr_of};
ghost use Rattle.lat_machines.specs.values.Addresses.{address};
ghost use Rattle.lat_dir.specs.Words.{node_of, better_in};
ghost use Rattle.lat_dir.specs.Looks.{moment_told, node_shown};

use crate::best::Best;
use crate::offers::Offers;
use lat_base::{Addr, Memory, Name, NodeLook};
use lat_notices::Announcement;
use std::alloc::Global;

/// The last announcement of a node, as far as a choice needs it.
pub struct Node {
    pub from: Addr,
    pub name: Name,
    /// The moment from which on it isn't live any more.
    pub until: u128,
    pub offers: Offers,
}

impl Drop for Node {
    fn drop(self) {
        let Self {
            from,
            name,
            until,
            offers,
        } = self;
    }
}

// How many milliseconds a node is live for each second of its timer: three times the timer.
const LIVES: u128 = 3000;

fn are_one(a: Addr, b: Addr) -> bool
    ensures { result ≡ nat_eq (address a.0) (address b.0) }
{
    a == b
}

impl Node {
    /// What is kept of an announcement that is heard at the moment. Takes memory for the services.
    pub fn heard(alloc: Global, from: Addr, a: &Announcement, now: u64) -> Result<Node, Memory>
        ensures { IfOk result (λ node. node ≡ node_of from a.now now) }
    {
        Ok(Node {
            from,
            name: a.node,
            until: now as u128 + LIVES * a.timer as u128,
            offers: Offers::of(alloc, a.services.as_slice())?,
        })
    }

    /// Whether it is live at the moment.
    pub fn lives(&self, now: u64) -> bool
        ensures { result ≡ nat_lt now self.now.until }
    {
        (now as u128) < self.until
    }

    /// Whether its announcement came from this address.
    pub fn is_from(&self, from: Addr) -> bool
        ensures { result ≡ nat_eq (address self.now.from.0) (address from.0) }
    {
        are_one(self.from, from)
    }

    /// The best of this node and those before it, for a service whose name is given in upper case.
    pub fn better(&self, found: Option<Best>, service: &Name, now: u64) -> Option<Best>
        ensures { result ≡ better_in service.now now found self.now }
    {
        let rating = self.offers.rating(service);
        if rating == 0 || !self.lives(now) {
            return found;
        }
        let own = Best {
            from: self.from,
            node: self.name,
            rating,
        };
        Some(own.or(found))
    }

    /// What is told of it.
    pub fn look(&self) -> NodeLook
        ensures { result ≡ node_shown self.now }
    {
        look_of(self.name, self.from, self.offers.len(), self.until)
    }
}

// What is told of a node of this name that announced so many services from there, and lives until then.
fn look_of(name: Name, from: Addr, services: usize, until: u128) -> NodeLook
    ensures { result ≡ record {
      name = name;
      from = addr_of (address from.0);
      services = services;
      until = moment_told until;
    } }
{
    NodeLook {
        name,
        from,
        services,
        until: told(until),
    }
}

// A moment as it is told.
fn told(moment: u128) -> u64
    ensures { result ≡ moment_told moment }
{
    moment.min(u64::MAX as u128) as u64
}
