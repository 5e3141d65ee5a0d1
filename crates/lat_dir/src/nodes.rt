//! The nodes that a server knows of, under their names.

ghost use Rattle.std.specs.Prelude.{◌≡◌, ◌≤◌, ◌-◌, ◌^◌, [], length, nat_le, not, false, Ok, None, reverse, map, fold, option_map, IfOk, OnOk, OnErr};
ghost use Rattle.std.specs.Option.{option_copied};
ghost use Rattle.indexmap.specs.IndexMap.{spare};
ghost use Rattle.lat_machines.specs.values.Addresses.{address};
ghost use Rattle.lat_dir.specs.Words.{living, others, elsewhere, better_in};
ghost use Rattle.lat_dir.specs.Steps.{is_full, trimmed, with_node};
ghost use Rattle.lat_dir.specs.Expiry.{LiveUntil, soonest_of};
ghost use Rattle.lat_dir.specs.Looks.{live_at, node_shown, service_at};

use crate::best::Best;
use crate::node::Node;
use indexmap::IndexMap;
use lat_base::{Addr, Memory, Name, NodeLook, ServiceLook};
use std::alloc::Global;
use std::marker::Model;

/// So many nodes are kept at most.
const NODES: usize = 256;

fn retain_living(nodes: &mut IndexMap<Name, Node>, now: u64)
    ensures kept { nodes.new.entries ≡ living now nodes.old.entries }
    ensures room { spare nodes.old ≤ spare nodes.new }
{
    nodes.retain(|_, node| node.lives(now));
}

fn forget(nodes: &mut IndexMap<Name, Node>, name: &Name)
    ensures kept { nodes.new.entries ≡ others name.now nodes.old.entries }
    ensures room { spare nodes.old ≤ spare nodes.new }
{
    let _ = nodes.shift_remove(name);
}

fn avoid(nodes: &mut IndexMap<Name, Node>, from: Addr)
    ensures kept { nodes.new.entries ≡ elsewhere (address from.0) nodes.old.entries }
    ensures room { spare nodes.old ≤ spare nodes.new }
{
    nodes.retain(|_, node| !node.is_from(from));
}

// The moment at which the first of them expires.
fn soonest(nodes: &IndexMap<Name, Node>) -> u128
    ensures { result ≡ fold soonest_of (2 ^ 128 - 1) (map (λ e. e.1) nodes.now.entries) }
{
    nodes
        .values()
        .fold(u128::MAX, |soonest, node| soonest.min(node.until))
}

// Forgets what isn't live any more. The nodes are looked at only where one can have expired.
fn expire(nodes: &mut IndexMap<Name, Node>, until: &mut u128, now: u64)
    requires { LiveUntil until.old nodes.old.entries }
    ensures kept { nodes.new.entries ≡ living now nodes.old.entries }
    ensures until { LiveUntil until.new nodes.new.entries }
    ensures room { spare nodes.old ≤ spare nodes.new }
{
    if (now as u128) < *until {
        return;
    }
    retain_living(nodes, now);
    *until = soonest(nodes);
}

// Makes a place where 256 are kept, if some of them aren't live any more, and answers whether there is one.
fn make_room(nodes: &mut IndexMap<Name, Node>, until: &mut u128, now: u64) -> bool
    requires { LiveUntil until.old nodes.old.entries }
    ensures answer { result ≡ not (nat_le 256 (length nodes.new.entries)) }
    ensures kept { nodes.new.entries ≡ trimmed now nodes.old.entries }
    ensures until { LiveUntil until.new nodes.new.entries }
    ensures room { spare nodes.old ≤ spare nodes.new }
{
    if nodes.len() >= NODES {
        expire(nodes, until, now);
    }
    nodes.len() < NODES
}

// The best node, looked at from the last heard to the first; any order would choose the same.
fn chosen(nodes: &IndexMap<Name, Node>, service: &Name, now: u64) -> Option<Best>
    ensures { result ≡ fold (better_in service.now now) None (reverse (map (λ e.
        e.1) nodes.now.entries)) }
{
    nodes
        .values()
        .rev()
        .fold(None, |found, node| node.better(found, service, now))
}

/// What is kept of each node, under its name in upper case, in the order in which they were last heard. Contracts see the
/// list. What isn't live any more may stay until its place is needed. At most 256 are kept.
pub struct Nodes {
    nodes: IndexMap<Name, Node>,
    // Below this moment none of them expires.
    until: u128,
}

impl Drop for Nodes {
    fn drop(self) {
        let Self { nodes, until } = self;
    }
}

impl Model for Nodes {
    ghost use Rattle.std.specs.Prelude.{◌≤◌, length};
    ghost use Rattle.lat_dir.specs.Words as words;
    ghost use Rattle.lat_dir.specs.Expiry.{LiveUntil};

    ghost Value = { words.Nodes };

    ghost view = { λ a. a.nodes.entries };

    ghost invariant = { λ a. (length a.nodes.entries ≤ 256) × LiveUntil a.until a.nodes.entries };
}

impl Nodes {
    /// None. Takes memory for 256.
    pub fn make(alloc: Global) -> Result<Nodes, Memory>
        ensures { IfOk result (λ nodes. nodes ≡ []) }
    {
        Ok(Nodes {
            nodes: IndexMap::with_capacity(alloc, NODES)?,
            until: u128::MAX,
        })
    }

    /// Forgets what isn't live any more.
    pub fn expire(&mut self, now: u64)
        ensures { self.new ≡ living now self.old }
    {
        expire(&mut self.nodes, &mut self.until, now);
    }

    /// Forgets the node of this name.
    pub fn forget(&mut self, name: &Name)
        ensures { self.new ≡ others name.now self.old }
    {
        forget(&mut self.nodes, name);
    }

    /// Forgets the nodes of this address, under whatever name.
    pub fn avoid(&mut self, from: Addr)
        ensures { self.new ≡ elsewhere (address from.0) self.old }
    {
        avoid(&mut self.nodes, from);
    }

    /// Keeps the node behind those of other names, and answers true. Where 256 of those are live it isn't kept, what isn't live
    /// is forgotten, and false is answered. Takes memory first; without it nothing has changed.
    pub fn put(&mut self, name: Name, node: Node, now: u64) -> Result<bool, Memory>
        ensures answer { IfOk result (λ is_kept. is_kept ≡ not (is_full now name self.old)) }
        ensures kept { OnOk result (self.new ≡ with_node now name node self.old) }
        ensures full { result ≡ Ok false → self.new ≡ living now self.old }
        ensures memory { OnErr result (self.new ≡ self.old) }
    {
        let Self { nodes, until } = self;
        nodes.reserve(1)?;
        forget(nodes, &name);
        // There is none only where none of this name was there.
        if !make_room(nodes, until, now) {
            return Ok(false);
        }
        *until = (*until).min(node.until);
        nodes.insert(name, node)?;
        Ok(true)
    }

    /// The best node for a service whose name is given in upper case.
    pub fn best(&self, service: &Name, now: u64) -> Option<Best>
        ensures { result ≡ fold (better_in service.now now) None (reverse (map (λ e.
            e.1) self.now)) }
    {
        chosen(&self.nodes, service, now)
    }

    /// What is told of the node that is live at this place, counted from 0.
    pub fn look(&self, at: usize, now: u64) -> Option<NodeLook>
        ensures { result ≡ option_map (λ e. node_shown e.1) (live_at now self.now at) }
    {
        let node = self.live_at(at, now)?;
        Some(node.look())
    }

    /// What is told of the service at a place of what the node that is live at a place announced, both counted from 0.
    pub fn service(&self, node: usize, at: usize, now: u64) -> Option<ServiceLook>
        ensures { result ≡ service_at (live_at now self.now node) at }
    {
        let node = self.live_at(node, now)?;
        node.offers.look(at)
    }

    fn live_at(&self, at: usize, now: u64) -> Option<&Node>
        ensures { option_copied result ≡ option_map (λ e. e.1) (live_at now self.now at) }
    {
        let mut living = self.nodes.values().filter(|node| node.lives(now));
        living.nth(at)
    }
}
