//! What both cores are made of.

ghost use Rattle.std.specs.Prelude.{◌≡◌, ◌≤◌, true, false, nat_eq, length, IfOk};
ghost use Rattle.std.specs.List.{list_any};
ghost use Rattle.lat_lines.specs.Kept.{IsLine};
ghost use Rattle.lat_server.specs.Config.{IsConfig};
ghost use Rattle.lat_server.specs.declared.config.Offer.{Offer};

use lat_base::{Addr, Bytes, Memory};
use lat_node::NodeConfig;
use lat_queue::Services16;
use lat_script::{
    Pair, ScriptFault, Wanted, address, byte_within, bytes, choice, known_name, name, no_command,
    short, short_within, timing, word,
};
use lat_server::{Offer, Offers, ServerConfig, Timing};
use std::alloc::Global;
use std::marker::Model;

/// The configurations of both cores, which are valid.
#[derive(Drop)]
pub struct Setup {
    pub server: ServerConfig,
    pub node: NodeConfig,
}

impl Model for Setup {
    ghost use Rattle.lat_node.specs.Config as nodes;
    ghost use Rattle.lat_server.specs.Config as servers;
    ghost use Rattle.lat_cores.specs.Setups.{Setups};

    ghost Value = { Setups };

    ghost view = { λ a. record { server = a.server; node = a.node } };

    ghost invariant = { λ a. servers.IsConfig a.server × nodes.IsConfig a.node };
}

const USUAL: Timing = Timing {
    timer: 8,
    keepalive: 20,
    sessions: 64,
    extra: 7,
    ceiling: 4,
    wide: false,
};

impl Setup {
    /// What they are made of where nothing is said.
    pub fn usual(alloc: Global) -> Result<Setup, Memory> {
        let (server, node) = (known_name(b"TS1"), known_name(b"VAX1"));
        Ok(Setup {
            server: ServerConfig {
                own: Addr([0xaa, 0x00, 0x04, 0x00, 0x01, 0x04]),
                name: server,
                lines: 1,
                offers: Offers::new(alloc),
                groups: [0xff; 32],
                timing: USUAL,
                prompt: false,
                first: 1,
            },
            node: NodeConfig {
                own: Addr([0xaa, 0x00, 0x04, 0x00, 0x02, 0x04]),
                name: node,
                incarnation: 1,
                lines: 1,
                services: Services16::make(alloc),
                timer: 30,
                groups: Bytes::copy(alloc, &[])?,
                timing: USUAL,
                prompt: false,
                first: 1,
            },
        })
    }

    /// What a line says of them.
    pub fn told(&mut self, alloc: Global, line: &str) -> Result<(), ScriptFault> {
        match word(line, 0) {
            "server" => self.tell_server(alloc, line)?,
            "node" => self.tell_node(line)?,
            "circuit" => {
                let timing = timing(line)?;
                self.server.timing = timing;
                self.node.timing = timing;
            }
            "prompt" => self.tell_prompt(line)?,
            "first" => self.tell_first(line)?,
            "groups" => self.tell_groups(alloc, line)?,
            "service" => self.tell_service(line)?,
            "offer" => self.tell_offer(line)?,
            _ => return Err(no_command(0)),
        }
        Ok(())
    }

    fn tell_server(&mut self, alloc: Global, line: &str) -> Result<(), ScriptFault> {
        let (own, name) = (address(line, 1)?, name(line, 2)?);
        let lines = byte_within(1, 32, line, 3)?;
        self.server.own = own;
        self.server.name = name;
        self.server.offers = Offers::new(alloc);
        self.server.lines = lines;
        Ok(())
    }

    fn tell_node(&mut self, line: &str) -> Result<(), ScriptFault> {
        let (own, name) = (address(line, 1)?, name(line, 2)?);
        let (lines, incarnation) = (byte_within(1, 64, line, 3)?, short(line, 4)?);
        let timer = byte_within(1, 255, line, 5)?;
        self.node.own = own;
        self.node.name = name;
        self.node.lines = lines;
        self.node.incarnation = incarnation;
        self.node.timer = timer;
        Ok(())
    }

    fn tell_prompt(&mut self, line: &str) -> Result<(), ScriptFault> {
        if choice(Pair::Cores, line, 1)? {
            self.server.prompt = true;
        } else {
            self.node.prompt = true;
        }
        Ok(())
    }

    fn tell_first(&mut self, line: &str) -> Result<(), ScriptFault> {
        let server = choice(Pair::Cores, line, 1)?;
        let first = short_within(1, 65_535, line, 2)?;
        if server {
            self.server.first = first;
        } else {
            self.node.first = first;
        }
        Ok(())
    }

    fn tell_groups(&mut self, alloc: Global, line: &str) -> Result<(), ScriptFault> {
        let (heard, mask) = (mask_of(alloc, line, 1)?, mask_of(alloc, line, 2)?);
        self.node.groups = Bytes::copy(alloc, &mask)?;
        self.server.groups = filled(&heard);
        Ok(())
    }

    fn tell_service(&mut self, line: &str) -> Result<(), ScriptFault> {
        let service = name(line, 1)?;
        if self.node.services.len() < 32 {
            self.node.services.push(&service)?;
        }
        Ok(())
    }

    fn tell_offer(&mut self, line: &str) -> Result<(), ScriptFault> {
        let place = byte_within(1, self.server.lines, line, 1)?;
        let service = name(line, 2)?;
        if !self.may_offer(place) {
            return Ok(());
        }
        let offer = Offer {
            line: place,
            service,
        };
        Ok(offer_more(&mut self.server, offer)?)
    }

    // Whether the server has this line, and nothing is offered there.
    fn may_offer(&self, line: u8) -> bool
        ensures line { result ≡ true → IsLine self.now.server.lines line }
        ensures free { result ≡ true →
            list_any (λ (o : Offer). nat_eq o.line line) self.now.server.offers ≡ false }
    {
        1 <= line && line <= self.server.lines && !is_offered(line, self.server.offers.as_slice())
    }
}

// Whether the line is in an offer.
fn is_offered(line: u8, offers: &[Offer]) -> bool
    ensures { result ≡ list_any (λ (o : Offer). nat_eq o.line line) offers.now }
{
    offers.iter().any(|offer| offer.line == line)
}

// A line of the server that is in no offer offers a service.
fn offer_more(server: &mut ServerConfig, offer: Offer) -> Result<(), Memory>
    requires valid { IsConfig server.old }
    requires line { IsLine server.old.lines offer.line }
    requires free { list_any (λ (o : Offer). nat_eq o.line offer.line) server.old.offers ≡ false }
    ensures { IsConfig server.new }
{
    server.offers.push(offer)
}

// The bytes of a mask of groups, 32 at most.
fn mask_of(alloc: Global, line: &str, place: u8) -> Result<Vec<u8>, ScriptFault>
    ensures { IfOk result (λ mask. length mask.items ≤ 32) }
{
    let mask = bytes(alloc, line, place)?;
    if mask.len() > 32 {
        return Err(ScriptFault::Word {
            place,
            wanted: Wanted::Digits,
        });
    }
    Ok(mask)
}

// The mask of these bytes; those that it doesn't have are 0.
fn filled(bytes: &[u8]) -> [u8; 32]
    requires { length bytes.now ≤ 32 }
{
    let mut mask = [0; 32];
    mask[..bytes.len()].copy_from_slice(bytes);
    mask
}
