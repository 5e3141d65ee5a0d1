//! The cores that words tell of, as they are opened.

ghost use Rattle.std.specs.Prelude.{◌≡◌, ◌≤◌, length, map, IfOk};
ghost use Rattle.lat_circuit.specs.Frames.{timing_shown};
ghost use Rattle.lat_frames.specs.Timings.{IsTiming};
ghost use Rattle.lat_server.specs.Kept as server;
ghost use Rattle.lat_server.specs.Stands as servers;
ghost use Rattle.lat_node.specs.Config.{config_shown, IsConfig};
ghost use Rattle.lat_node.specs.Kept as node;
ghost use Rattle.lat_node.specs.Stands as nodes;
ghost use Rattle.lat_switch.specs.Config.{open_switch};
ghost use Rattle.lat_switch.specs.Core as switch;
ghost use Rattle.lat_switch.specs.Kept as switches;
ghost use Rattle.lat_switch.specs.Stands.{Stands};
ghost use Rattle.lat_tariff.specs.Own.{OffersTariff};
ghost use Rattle.lat_tariff.specs.Tariffs.{names, AreKnown};
ghost use Rattle.lat_words.specs.Within.{IsPace, IsSettings};
ghost use Rattle.lat_live.specs.Openings.{first_at, heard_groups, node_config, offer_as, server_config, switch_config, timing_of, told_groups};
ghost use Rattle.lat_live.specs.Rated.{tariff_of};

use crate::rated::{RateRule, tariff_of};
use lat_base::{Bytes, Memory};
use lat_node::{NodeConfig, NodeCore};
use lat_queue::Services16;
use lat_server::{Offer, Offers, ServerConfig, ServerCore, Timing};
use lat_switch::{SwitchConfig, SwitchCore};
use lat_tariff::{SteadyRule, Tariff};
use lat_words::{Pace, Settings};
use std::alloc::Global;

/// The id of the first circuit of a daemon that starts at this time, in tenths of a second; a node has this incarnation too.
pub fn first_at(tenths: u64) -> u16
    ensures value { result ≡ first_at tenths }
    ensures some { 1 ≤ result }
{
    (1 + tenths % 65_535) as u16
}

// The timing of the words, on wide circuits.
fn timing_of(pace: Pace) -> Timing
    requires { IsPace pace }
    ensures shown { timing_shown result ≡ timing_of pace }
    ensures valid { IsTiming result }
{
    Timing {
        timer: pace.timer,
        keepalive: pace.keep_alive,
        sessions: 64,
        extra: 7,
        ceiling: pace.credits,
        wide: true,
    }
}

// The groups that a server listens to: all where the words name none.
fn heard_groups(groups: Option<[u8; 32]>) -> [u8; 32]
    ensures { result ≡ heard_groups groups }
{
    match groups {
        Some(mask) => mask,
        None => [0xff; 32],
    }
}

// The groups that a node is for: every server's where the words name none.
fn told_groups(alloc: Global, groups: Option<[u8; 32]>) -> Result<Bytes, Memory>
    ensures value { IfOk result (λ mask. mask ≡ told_groups groups) }
    ensures most { IfOk result (λ mask. length mask ≤ 32) }
{
    match groups {
        Some(mask) => Bytes::copy(alloc, &mask),
        None => Bytes::copy(alloc, &[]),
    }
}

// What the lines of a server offer.
fn offers_of(alloc: Global, offers: &[lat_words::Offer]) -> Result<Offers, Memory>
    ensures { IfOk result (λ all. all ≡ map offer_as offers.now) }
{
    let mut all = Offers::new(alloc);
    for offer in offers {
        all.push(Offer {
            line: offer.line,
            service: offer.name,
        })?;
    }
    Ok(all)
}

/// The server that the words tell of, with the id of its first circuit; it is prompt. `Memory` where none is found.
pub fn server_core(alloc: Global, settings: &Settings, first: u16) -> Result<ServerCore, Memory>
    requires settings { IsSettings settings.now }
    requires lines { settings.now.seats.lines ≤ 32 }
    requires first { 1 ≤ first }
    ensures made { IfOk result (λ k. servers.IsMade (servers.opening k)) }
    ensures stands { IfOk result (λ k. servers.IsMachine k (servers.opening k)) }
    ensures config { IfOk result (λ k. server.config_of k ≡ server_config first settings.now) }
    ensures rest { IfOk result server.AtRest }
{
    let config = ServerConfig {
        own: settings.station.address,
        name: settings.station.name,
        lines: settings.seats.lines,
        offers: offers_of(alloc, settings.seats.offers.as_slice())?,
        groups: heard_groups(settings.seats.groups),
        timing: timing_of(settings.pace),
        prompt: true,
        first,
    };
    ServerCore::make(alloc, &config)
}

/// The switch that the words tell of, with the id of its first circuit; its server is prompt. `Memory` where none is found.
pub fn switch_core(alloc: Global, settings: &Settings, first: u16) -> Result<SwitchCore, Memory>
    requires settings { IsSettings settings.now }
    requires lines { settings.now.seats.lines ≤ 8 }
    requires first { 1 ≤ first }
    ensures made { IfOk result (λ k. switch.IsMade (switch.opening k)) }
    ensures stands { IfOk result (λ k. Stands k (switch.opening k)) }
    ensures opening { IfOk result (λ k. switch.opening k ≡ open_switch (switch_config first settings.now)) }
    ensures valid { IfOk result switches.IsValid }
{
    let config = SwitchConfig {
        own: settings.station.address,
        name: settings.station.name,
        lines: settings.seats.lines,
        groups: heard_groups(settings.seats.groups),
        timing: timing_of(settings.pace),
        prompt: true,
        first,
    };
    SwitchCore::make(alloc, &config)
}

// What a node of the words with these services is made of. The id of its first circuit is its incarnation too.
fn node_config(
    alloc: Global,
    settings: &Settings,
    first: u16,
    services: Services16,
) -> Result<NodeConfig, Memory>
    requires settings { IsSettings settings.now }
    requires services { services ≡ (node_config first settings.now).services }
    requires first { 1 ≤ first }
    ensures valid { IfOk result IsConfig }
    ensures config { IfOk result (λ c. config_shown c ≡ node_config first settings.now) }
{
    Ok(NodeConfig {
        own: settings.station.address,
        name: settings.station.name,
        incarnation: first,
        lines: settings.seats.lines,
        services,
        timer: settings.pace.announce,
        groups: told_groups(alloc, settings.seats.groups)?,
        timing: timing_of(settings.pace),
        prompt: true,
        first,
    })
}

/// The node that the words tell of, with their services, each rated by its own rule, its incarnation and the id of its first
/// circuit; it is prompt. `Memory` where none is found.
pub fn node_core(
    alloc: Global,
    settings: &Settings,
    first: u16,
) -> Result<NodeCore<Tariff<RateRule>>, Memory>
    requires settings { IsSettings settings.now }
    requires some { 1 ≤ length settings.now.seats.services.items }
    requires first { 1 ≤ first }
    ensures made { IfOk result (λ k. nodes.IsMade (nodes.opening k)) }
    ensures stands { IfOk result (λ k. nodes.IsMachine k (nodes.opening k)) }
    ensures config { IfOk result (λ k. node.config_of k ≡ node_config first settings.now) }
    ensures rules { IfOk result (λ k. k.rule ≡ tariff_of settings.now) }
    ensures offers { IfOk result (λ k. OffersTariff (nodes.opening k)) }
    ensures rest { IfOk result (λ k. node.AtRest k × AreKnown ⟦<RateRule as SteadyRule>⟧.fact k.rule) }
{
    let tariff = tariff_of(alloc, settings)?;
    let services = tariff.names(alloc)?;
    let config = node_config(alloc, settings, first, services)?;
    NodeCore::make(alloc, &config, tariff)
}
