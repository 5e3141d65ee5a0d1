//! The directory of services.

ghost use Rattle.std.specs.Prelude.{◌≡◌, ◌≤◌, ◌<◌, List, [], Err, option_map, slice_get, IfOk, IfSome};
ghost use Rattle.lat_machines.specs.values.Addresses.{address};
ghost use Rattle.lat_machines.specs.server.Directory.{HeardAnnouncement, live, best, avoid};
ghost use Rattle.lat_machines.specs.server.Lists.{service_in};
ghost use Rattle.lat_dir.specs.Words.{best_shown};
ghost use Rattle.lat_dir.specs.Stands.{Stands, heard, answer_to, at_moment, UnlessMemory};
ghost use Rattle.lat_dir.specs.Steps.{forgotten, answer_met, taken_in, avoided};
ghost use Rattle.lat_dir.specs.Looks.{node_look_of, service_look_of};

use crate::best::Best;
use crate::groups::are_met;
use crate::node::Node;
use crate::nodes::Nodes;
use lat_base::{Addr, Memory, Name, NodeLook, ServiceLook};
use lat_notices::Announcement;
use std::alloc::Global;
use std::marker::Model;

/// Why an announcement isn't kept.
#[derive(Clone, Copy)]
pub enum DirFault {
    /// 256 other nodes are live.
    Full,
    /// No memory was found.
    Memory,
}

impl From<Memory> for DirFault {
    ghost use Rattle.std.specs.Prelude.{◌≡◌};
    ghost use Rattle.lat_dir.specs.declared.directory.DirFault.TheVariants as faults;

    ghost from_gives = { λ _ fault. fault ≡ faults.Memory };

    fn from(_e: Memory) -> DirFault {
        DirFault::Memory
    }
}

/// The nodes that a server knows of, each with its last announcement. At most 256 are live.
pub struct Directory {
    groups: [u8; 32],
    nodes: Nodes,
    // The last moment that it was told.
    moment: u64,
}

impl Drop for Directory {
    fn drop(self) {
        let Self {
            groups,
            nodes,
            moment,
        } = self;
    }
}

impl Model for Directory {
    ghost use Rattle.lat_dir.specs.Stands.{Kept};

    ghost Value = { Kept };

    ghost view = { λ a. record { groups = a.groups; nodes = a.nodes; moment = a.moment } };
}

impl Directory {
    /// A directory at moment 0 that knows no node and listens to the groups of the mask. Takes memory for its table.
    pub fn make(alloc: Global, groups: &[u8; 32]) -> Result<Directory, Memory>
        ensures made { IfOk result (λ d. (d.groups ≡ groups.now) × (d.moment ≡ 0)) }
        ensures stands { IfOk result (λ d. Stands d []) }
    {
        Ok(Directory {
            groups: *groups,
            nodes: Nodes::make(alloc)?,
            moment: 0,
        })
    }

    /// Forgets what isn't live any more. `now` isn't below any moment that the directory was told before.
    pub fn expire(&mut self, now: u64)
        requires { self.old.moment ≤ now }
        ensures stands { (h : List HeardAnnouncement) → Stands self.old h → Stands self.new h }
        ensures kept { self.new ≡ at_moment now self.old }
    {
        self.nodes.expire(now);
        self.moment = now;
    }

    // Forgets the node.
    fn forget_node(&mut self, name: &Name, now: u64)
        ensures { self.new ≡ forgotten now name.now self.old }
    {
        self.nodes.forget(name);
        self.moment = now;
    }

    // Keeps what was last heard of the node, and answers as `hear` does. Takes memory first.
    fn take_in(&mut self, name: Name, node: Node, now: u64) -> Result<bool, DirFault>
        ensures answer { UnlessMemory result (result ≡ answer_met now name self.old.nodes) }
        ensures kept { UnlessMemory result (self.new ≡ taken_in now name node self.old) }
        ensures full { result ≡ Err DirFault.Full → self.new ≡ at_moment now self.old }
        ensures memory { result ≡ Err DirFault.Memory → self.new ≡ self.old }
    {
        let is_kept = self.nodes.put(name, node, now)?;
        self.moment = now;
        if is_kept {
            Ok(true)
        } else {
            Err(DirFault::Full)
        }
    }

    /// Hears an announcement from an address. Where its groups are met, it is kept as the last one of its node, a node being
    /// a name in upper case, and true is answered. Where they aren't, what was kept of this node is dropped, and false is
    /// answered. `Full` where the groups are met and 256 other nodes are live: then nothing changes but that what has
    /// expired is dropped. Takes memory; without it nothing has changed. `now` isn't below any moment that the directory was
    /// told before.
    pub fn hear(
        &mut self,
        alloc: Global,
        from: Addr,
        a: &Announcement,
        now: u64,
    ) -> Result<bool, DirFault>
        requires { self.old.moment ≤ now }
        ensures stands { (h : List HeardAnnouncement) → Stands self.old h →
            UnlessMemory result (Stands self.new (heard self.old.groups now from a.now h)) }
        ensures answer { (h : List HeardAnnouncement) → Stands self.old h →
            UnlessMemory result (result ≡ answer_to self.old.groups now a.now h) }
        ensures full { result ≡ Err DirFault.Full → self.new ≡ at_moment now self.old }
        ensures memory { result ≡ Err DirFault.Memory → self.new ≡ self.old }
        ensures groups { self.new.groups ≡ self.old.groups }
        ensures moment { self.new.moment ≤ now }
    {
        let name = a.node.folded();
        if !are_met(a.groups.as_slice(), &self.groups) {
            self.forget_node(&name, now);
            return Ok(false);
        }
        let node = Node::heard(alloc, from, a, now)?;
        self.take_in(name, node, now)
    }

    /// Forgets all that is known from this address, under whatever name, until it is heard again. Takes no memory.
    pub fn avoid(&mut self, from: Addr)
        ensures stands { (h : List HeardAnnouncement) → Stands self.old h →
            Stands self.new (avoid (address from.0) h) }
        ensures kept { self.new ≡ avoided (address from.0) self.old }
    {
        self.nodes.avoid(from);
    }

    /// The best node for a service at the moment: of the live nodes that announced it with a rating above 0 the one with the
    /// highest rating, and of those the one whose name comes first in byte order, in upper case. None where there is no such
    /// node. Where one announcement lists a service twice the first entry counts. `now` isn't below any moment that the
    /// directory was told before by `hear` or `expire`.
    pub fn best(&self, service: &Name, now: u64) -> Option<Best>
        requires { self.now.moment ≤ now }
        ensures best { (h : List HeardAnnouncement) → Stands self.now h →
            option_map best_shown result ≡ best self.now.groups service.now now h }
        ensures above { IfSome result (λ b. 0 < b.rating) }
    {
        self.nodes.best(&service.folded(), now)
    }

    /// The node that is live at the moment, at this place of the order in which they were last heard, counted from 0. None
    /// exactly behind the last. `now` isn't below any moment that the directory was told before by `hear` or `expire`.
    pub fn node(&self, at: usize, now: u64) -> Option<NodeLook>
        requires { self.now.moment ≤ now }
        ensures { (h : List HeardAnnouncement) → Stands self.now h →
            result ≡ option_map node_look_of (slice_get (live self.now.groups now h) at) }
    {
        self.nodes.look(at, now)
    }

    /// The service at a place of what this node announced, both counted from 0. None exactly behind the last. `now` isn't
    /// below any moment that the directory was told before by `hear` or `expire`.
    pub fn service(&self, node: usize, at: usize, now: u64) -> Option<ServiceLook>
        requires { self.now.moment ≤ now }
        ensures { (h : List HeardAnnouncement) →
            Stands self.now h →
            result ≡ option_map service_look_of
            (service_in (slice_get (live self.now.groups now h) node) at) }
    {
        self.nodes.service(node, at, now)
    }
}
