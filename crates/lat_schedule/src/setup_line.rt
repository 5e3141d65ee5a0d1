//! The lines in front of the events: what both cores are made of.

ghost use Rattle.std.specs.Prelude.{◌≡◌, ◌≢◌, ◌*◌, ◌≤◌, ◌<◌, false, IfSome, IfOk, nat_eq, length, option_map};
ghost use Rattle.std.specs.List.{list_any};
ghost use Rattle.lat_base.specs.Names.{IsName};
ghost use Rattle.lat_frames.specs.Timings.{IsTiming};
ghost use Rattle.lat_lines.specs.Kept.{IsLine};
ghost use Rattle.lat_machines.specs.values.Addresses.{address, everyone};
ghost use Rattle.lat_machines.specs.values.Names.{same};
ghost use Rattle.lat_server.specs.declared.config.Offer.{Offer};
ghost use Rattle.lat_text.specs.Reads.{Reads};
ghost use Rattle.lat_text.specs.Words.{first_word};
ghost use Rattle.lat_schedule.specs.SetupLines.{
  version_of,
  station_of,
  server_of,
  node_of,
  numbers_of,
  timing_of,
  span_of,
  circuit_of,
  narrow_of,
  wide_of,
  server_groups_of,
  node_groups_of,
  service_of,
  offer_of,
};
ghost use Rattle.lat_schedule.specs.Setups.{IsServerLine, IsNodeLine, AreNumbers, IsCircuitLine};

use crate::numbers::{byte_within, short_within};
use crate::opening::{Opening, opening_of};
use lat_base::{Addr, Name};
use lat_server::{Offer, Timing};
use lat_text::{LineFault, address_of, behind_word, bytes_of, first_word, mask_of, name_of};
use std::alloc::Global;

/// The version of a schedule's text.
#[derive(Clone, Copy)]
pub enum Version {
    One,
    /// Spans and groups may be told.
    Two,
    /// And silent lines stand anywhere, ends may be prompt and have first ids of their own, and the events of a halt, of an
    /// avoid and of a line that gets or isn't ready may be told.
    Three,
}

/// What the line of the server says.
#[derive(Clone, Copy)]
pub struct ServerLine {
    pub own: Addr,
    pub name: Name,
    pub lines: u8,
    pub opening: Opening,
}

/// What the line of the node says.
#[derive(Clone, Copy)]
pub struct NodeLine {
    pub own: Addr,
    pub name: Name,
    pub lines: u8,
    pub incarnation: u16,
    pub timer: u8,
    pub opening: Opening,
}

/// What the line of the circuits says.
#[derive(Clone, Copy)]
pub struct CircuitLine {
    pub server: Timing,
    pub node: Timing,
}

/// The first four numbers of that line.
#[derive(Clone, Copy)]
pub struct Numbers {
    pub timer: u8,
    pub keepalive: u8,
    pub sessions: u8,
    pub extra: u8,
}

/// `lat 1`, `lat 2` or `lat 3`.
pub fn version_of(line: &[u8]) -> Option<Version>
    ensures { result ≡ version_of line.now }
{
    if line == "lat 1".as_bytes() {
        Some(Version::One)
    } else if line == "lat 2".as_bytes() {
        Some(Version::Two)
    } else if line == "lat 3".as_bytes() {
        Some(Version::Three)
    } else {
        None
    }
}

// The address of a station, which isn't that of everyone.
fn station_of(text: &[u8]) -> Option<Addr>
    ensures value { result ≡ station_of text.now }
    ensures not_everyone { IfSome result (λ own. address own.0 ≢ everyone) }
{
    let own = address_of(text)?;
    if own.is_everyone() { None } else { Some(own) }
}

/// `server ADDR NAME LINES`, and what the words behind say.
pub fn server_of(version: Version, line: &[u8]) -> Option<ServerLine>
    ensures value { result ≡ server_of version line.now }
    ensures fits { IfSome result IsServerLine }
{
    let text = behind_word("server", line)?;
    let (address, text) = first_word(text)?;
    let (name, text) = first_word(text)?;
    let (lines, opening) = opening_of(version, text)?;
    let own = station_of(address)?;
    let name = name_of(name)?;
    let lines = byte_within(1, 32, lines)?;
    Some(ServerLine {
        own,
        name,
        lines,
        opening,
    })
}

/// `node ADDR NAME LINES INCARNATION TIMER`, and what the words behind say, not at the server's address.
pub fn node_of(version: Version, server: Addr, line: &[u8]) -> Option<NodeLine>
    ensures value { result ≡ node_of version server line.now }
    ensures fits { IfSome result (IsNodeLine server) }
{
    let text = behind_word("node", line)?;
    let (address, text) = first_word(text)?;
    let (name, text) = first_word(text)?;
    let (lines, text) = first_word(text)?;
    let (incarnation, text) = first_word(text)?;
    let (timer, opening) = opening_of(version, text)?;
    let own = station_of(address)?;
    let name = name_of(name)?;
    let lines = byte_within(1, 64, lines)?;
    let incarnation = short_within(0, 65535, incarnation)?;
    let timer = byte_within(1, 255, timer)?;
    if own == server {
        return None;
    }
    Some(NodeLine {
        own,
        name,
        lines,
        incarnation,
        timer,
        opening,
    })
}

fn span_of(word: &[u8]) -> Option<bool>
    ensures { result ≡ span_of word.now }
{
    if word == "word".as_bytes() {
        Some(true)
    } else if word == "byte".as_bytes() {
        Some(false)
    } else {
        None
    }
}

// `TIMER KEEPALIVE SESSIONS EXTRA`, and what stands behind.
fn numbers_of(text: &[u8]) -> Option<(Numbers, &[u8])>
    ensures value { option_map (λ r. (r.0, r.1.now)) result ≡ numbers_of text.now }
    ensures fits { IfSome result (λ r. AreNumbers r.0) }
{
    let (timer, text) = first_word(text)?;
    let (keepalive, text) = first_word(text)?;
    let (sessions, text) = first_word(text)?;
    let (extra, text) = first_word(text)?;
    let timer = byte_within(1, 100, timer)?;
    let keepalive = byte_within(1, 255, keepalive)?;
    let sessions = byte_within(1, 64, sessions)?;
    let extra = byte_within(0, 255, extra)?;
    let numbers = Numbers {
        timer,
        keepalive,
        sessions,
        extra,
    };
    Some((numbers, text))
}

fn timing_of(numbers: Numbers, ceiling: u8, wide: bool) -> Timing
    requires numbers { AreNumbers numbers }
    requires ceiling { (1 ≤ ceiling) × (ceiling ≤ 15) }
    ensures value { result ≡ timing_of numbers ceiling wide }
    ensures timing { IsTiming result }
{
    Timing {
        timer: numbers.timer,
        keepalive: numbers.keepalive,
        sessions: numbers.sessions,
        extra: numbers.extra,
        ceiling,
        wide,
    }
}

// Behind `circuit ` in the first version.
fn narrow_of(text: &[u8]) -> Option<CircuitLine>
    ensures value { result ≡ narrow_of text.now }
    ensures fits { IfSome result IsCircuitLine }
{
    let (numbers, ceiling) = numbers_of(text)?;
    let ceiling = byte_within(1, 15, ceiling)?;
    let timing = timing_of(numbers, ceiling, false);
    Some(CircuitLine {
        server: timing,
        node: timing,
    })
}

// In the others.
fn wide_of(text: &[u8]) -> Option<CircuitLine>
    ensures value { result ≡ wide_of text.now }
    ensures fits { IfSome result IsCircuitLine }
{
    let (numbers, text) = numbers_of(text)?;
    let (ceiling, text) = first_word(text)?;
    let (server, node) = first_word(text)?;
    let ceiling = byte_within(1, 15, ceiling)?;
    let server = span_of(server)?;
    let node = span_of(node)?;
    Some(CircuitLine {
        server: timing_of(numbers, ceiling, server),
        node: timing_of(numbers, ceiling, node),
    })
}

/// The timing of both ends.
pub fn circuit_of(version: Version, line: &[u8]) -> Option<CircuitLine>
    ensures value { result ≡ circuit_of version line.now }
    ensures fits { IfSome result IsCircuitLine }
{
    let text = behind_word("circuit", line)?;
    match version {
        Version::One => narrow_of(text),
        Version::Two | Version::Three => wide_of(text),
    }
}

/// `server-groups HEX`
pub fn server_groups_of(line: &[u8]) -> Option<[u8; 32]>
    ensures { result ≡ server_groups_of line.now }
{
    mask_of(behind_word("server-groups", line)?)
}

/// `node-groups HEX`. Takes memory for the mask.
pub fn node_groups_of(alloc: Global, line: &[u8]) -> Result<Vec<u8>, LineFault>
    ensures value { Reads (λ mask. mask.items) result (node_groups_of line.now) }
    ensures fits { IfOk result (λ mask. 2 * length mask.items ≤ 64) }
{
    let digits = behind_word("node-groups", line).ok_or(LineFault::Form)?;
    bytes_of(alloc, 2, 64, digits)
}

// Whether a service is among these.
fn is_among(service: &Name, others: &[Name]) -> bool
    ensures { result ≡ list_any (same service.now) others.now }
{
    others.iter().any(|other| service.same(other))
}

/// `service NAME`, none of these and not a 33rd one.
pub fn service_of(others: &[Name], line: &[u8]) -> Option<Name>
    ensures value { result ≡ service_of others.now line.now }
    ensures room { IfSome result (λ service. length others.now < 32) }
    ensures name { IfSome result IsName }
{
    let text = behind_word("service", line)?;
    let service = name_of(text)?;
    if others.len() >= 32 || is_among(&service, others) {
        return None;
    }
    Some(service)
}

// Whether the line is in one of these offers.
fn is_offered(line: u8, offers: &[Offer]) -> bool
    ensures { result ≡ list_any (λ (o : Offer). nat_eq o.line line) offers.now }
{
    offers.iter().any(|offer| offer.line == line)
}

/// `offer LINE NAME`, of a line of so many that is in none of these offers.
pub fn offer_of(lines: u8, others: &[Offer], line: &[u8]) -> Option<Offer>
    ensures value { result ≡ offer_of lines others.now line.now }
    ensures line { IfSome result (λ offer. IsLine lines offer.line) }
    ensures free { IfSome result (λ offer.
        list_any (λ (o : Offer). nat_eq o.line offer.line) others.now ≡ false) }
    ensures name { IfSome result (λ offer. IsName offer.service) }
{
    let text = behind_word("offer", line)?;
    let (place, service) = first_word(text)?;
    let place = byte_within(1, lines, place)?;
    let service = name_of(service)?;
    if is_offered(place, others) {
        return None;
    }
    Some(Offer {
        line: place,
        service,
    })
}
