//! The whole of a record.

ghost use Rattle.std.specs.Prelude.{◌≡◌, ◌≤◌, ◌<◌, ◌+◌, ◌^◌, length, IfOk};
ghost use Rattle.std.specs.Result.{result_map_both};
ghost use Rattle.lat_frames.specs.Timings.{IsTiming};
ghost use Rattle.lat_server.specs.Config.{AreOffers};
ghost use Rattle.lat_record.specs.Cursors.{place, first_place};
ghost use Rattle.lat_schedule.specs.Places.{must};
ghost use Rattle.lat_schedule.specs.ScheduleText.{word_at};
ghost use Rattle.lat_record.specs.OpeningRead.{Fits, FitsNode, FitsRole, node_groups_of};
ghost use Rattle.lat_record.specs.Openings.{IsOpening};
ghost use Rattle.lat_record.specs.RecordRead.{ReadsAll, ReadsRecord, server_made, switch_made, node_made, server_at, switch_at, rated_at, node_at, core_at, opening_at, events_at, record_at};

use crate::cursor::Cursor;
use crate::entry::Entries;
use crate::fault::RecordFault;
use crate::lists::{entries_of, offers_of, rates_of, services_of};
use crate::opening::{NodeOpening, Opening, Rates};
use crate::opening_line::{circuit_of, node_groups_of, server_groups_of};
use crate::role_line::{CoreLine, NodeLine, RoleLine, role_of};
use lat_base::{Bytes, Memory};
use lat_node::{NodeConfig, Timing};
use lat_queue::Services16;
use lat_server::{Offers, ServerConfig};
use lat_switch::SwitchConfig;
use lat_text::LineFault;
use std::alloc::Global;

/// A record that was read.
pub struct Record {
    pub opening: Opening,
    /// The number of the line of the first event, counted from 1.
    pub first: usize,
    /// The events with the words of their answers, in order.
    pub entries: Entries,
}

impl Drop for Record {
    fn drop(self) {
        let Self {
            opening,
            first,
            entries,
        } = self;
    }
}

// Why no record is read: a wrong line, by its number, or want of memory.
enum Stop {
    Line(usize),
    Memory,
}

impl From<usize> for Stop {
    ghost use Rattle.std.specs.Prelude.{◌≡◌};
    ghost use Rattle.lat_record.specs.declared.read.Stop.TheVariants as stops;

    ghost from_gives = { λ number stop. stop ≡ stops.Line number };

    fn from(number: usize) -> Stop {
        Stop::Line(number)
    }
}

impl From<Memory> for Stop {
    ghost use Rattle.std.specs.Prelude.{◌≡◌};
    ghost use Rattle.lat_record.specs.declared.read.Stop.TheVariants as stops;

    ghost from_gives = { λ _ stop. stop ≡ stops.Memory };

    fn from(_e: Memory) -> Stop {
        Stop::Memory
    }
}

// The lines behind one that must be this word.
fn word_at<'a>(word: &str, at: Cursor<'a>) -> Result<Cursor<'a>, usize>
    ensures { result_map_both place (λ number. number) result ≡ word_at word.now (place at.entry) }
{
    let next = at.line()?;
    if next.line == word.as_bytes() {
        Ok(next.behind)
    } else {
        Err(next.number)
    }
}

fn server_made(core: &CoreLine, timing: Timing, offers: Offers, groups: [u8; 32]) -> Opening
    requires fits { Fits 32 core.now }
    requires timing { IsTiming timing }
    requires offers { AreOffers core.now.station.lines offers }
    ensures value { result ≡ server_made core.now timing offers groups }
    ensures opening { IsOpening result }
{
    Opening::Server(ServerConfig {
        own: core.station.own,
        name: core.station.name,
        lines: core.station.lines,
        offers,
        groups,
        timing,
        prompt: core.start.prompt,
        first: core.start.first,
    })
}

fn switch_made(core: &CoreLine, timing: Timing, groups: [u8; 32]) -> Opening
    requires fits { Fits 8 core.now }
    requires timing { IsTiming timing }
    ensures value { result ≡ switch_made core.now timing groups }
    ensures opening { IsOpening result }
{
    Opening::Switch(SwitchConfig {
        own: core.station.own,
        name: core.station.name,
        lines: core.station.lines,
        groups,
        timing,
        prompt: core.start.prompt,
        first: core.start.first,
    })
}

fn node_made(
    node: &NodeLine,
    timing: Timing,
    groups: Bytes,
    services: Services16,
    rates: Rates,
) -> Opening
    requires fits { FitsNode node.now }
    requires timing { IsTiming timing }
    requires groups { length groups ≤ 32 }
    ensures value { result ≡ node_made node.now timing groups services rates }
    ensures opening { IsOpening result }
{
    let config = NodeConfig {
        own: node.core.station.own,
        name: node.core.station.name,
        incarnation: node.incarnation,
        lines: node.core.station.lines,
        services,
        timer: node.timer,
        groups,
        timing,
        prompt: node.core.start.prompt,
        first: node.core.start.first,
    };
    Opening::Node(NodeOpening { config, rates })
}

// Behind the circuits' line of a server.
fn server_at<'a>(
    alloc: Global,
    core: CoreLine,
    timing: Timing,
    at: Cursor<'a>,
) -> Result<(Opening, Cursor<'a>), Stop>
    requires fits { Fits 32 core }
    requires timing { IsTiming timing }
    ensures value { ReadsAll (λ r. (r.0, place r.1)) result (server_at core timing (place at.entry)) }
    ensures opening { IfOk result (λ r. IsOpening r.0) }
{
    let next = at.line()?;
    let groups = server_groups_of(next.line).ok_or(next.number)?;
    let (offers, behind) = offers_of(alloc, core.station.lines, next.behind)?;
    Ok((server_made(&core, timing, offers, groups), behind))
}

// Behind that of a switch.
fn switch_at<'a>(
    core: CoreLine,
    timing: Timing,
    at: Cursor<'a>,
) -> Result<(Opening, Cursor<'a>), usize>
    requires fits { Fits 8 core }
    requires timing { IsTiming timing }
    ensures value { result_map_both (λ r. (r.0, place r.1)) (λ number. number) result
        ≡ switch_at core timing (place at.entry) }
    ensures opening { IfOk result (λ r. IsOpening r.0) }
{
    let next = at.line()?;
    let groups = server_groups_of(next.line).ok_or(next.number)?;
    Ok((switch_made(&core, timing, groups), next.behind))
}

// The mask of a node's announcements, and the lines behind it.
fn groups_at<'a>(alloc: Global, at: Cursor<'a>) -> Result<(Bytes, Cursor<'a>), Stop>
    ensures value { ReadsAll (λ r. (r.0, place r.1)) result (must node_groups_of (place at.entry)) }
    ensures most { IfOk result (λ r. length r.0 ≤ 32) }
{
    let next = at.line()?;
    match node_groups_of(alloc, next.line) {
        Ok(groups) => Ok((groups, next.behind)),
        Err(LineFault::Form) => Err(Stop::Line(next.number)),
        Err(LineFault::Memory) => Err(Stop::Memory),
    }
}

// The services and their rates, as many of these as of those, and the lines behind them.
fn rated_at<'a>(alloc: Global, at: Cursor<'a>) -> Result<((Services16, Rates), Cursor<'a>), Stop>
    ensures { ReadsAll (λ r. (r.0, place r.1)) result (rated_at (place at.entry)) }
{
    let (services, behind) = services_of(alloc, at)?;
    let (rates, behind) = rates_of(alloc, behind)?;
    if rates.as_slice().len() != services.len() {
        return Err(Stop::Line(behind.number()));
    }
    Ok(((services, rates), behind))
}

// Behind the circuits' line of a node.
fn node_at<'a>(
    alloc: Global,
    node: NodeLine,
    timing: Timing,
    at: Cursor<'a>,
) -> Result<(Opening, Cursor<'a>), Stop>
    requires fits { FitsNode node }
    requires timing { IsTiming timing }
    ensures value { ReadsAll (λ r. (r.0, place r.1)) result (node_at node timing (place at.entry)) }
    ensures opening { IfOk result (λ r. IsOpening r.0) }
{
    let (groups, behind) = groups_at(alloc, at)?;
    let ((services, rates), behind) = rated_at(alloc, behind)?;
    Ok((node_made(&node, timing, groups, services, rates), behind))
}

// Behind the circuits' line.
fn core_at<'a>(
    alloc: Global,
    role: RoleLine,
    timing: Timing,
    at: Cursor<'a>,
) -> Result<(Opening, Cursor<'a>), Stop>
    requires fits { FitsRole role }
    requires timing { IsTiming timing }
    ensures value { ReadsAll (λ r. (r.0, place r.1)) result (core_at role timing (place at.entry)) }
    ensures opening { IfOk result (λ r. IsOpening r.0) }
{
    match role {
        RoleLine::Server(core) => server_at(alloc, core, timing, at),
        RoleLine::Switch(core) => match switch_at(core, timing, at) {
            Ok(found) => Ok(found),
            Err(number) => Err(Stop::Line(number)),
        },
        RoleLine::Node(node) => node_at(alloc, node, timing, at),
    }
}

// What the core was made of, by the lines in front of the first event, and that one and those behind it.
fn opening_at<'a>(alloc: Global, at: Cursor<'a>) -> Result<(Opening, Cursor<'a>), Stop>
    ensures value { ReadsAll (λ r. (r.0, place r.1)) result (opening_at (place at.entry)) }
    ensures opening { IfOk result (λ r. IsOpening r.0) }
{
    let second = word_at("lat record 1", at)?;
    let next = second.line()?;
    let role = role_of(next.line).ok_or(next.number)?;
    let third = next.behind.line()?;
    let timing = circuit_of(third.line).ok_or(third.number)?;
    let (opening, behind) = core_at(alloc, role, timing, third.behind)?;
    let behind = word_at("go", behind)?;
    Ok((opening, behind))
}

// The events of a record, with no line behind them.
fn events_at(alloc: Global, at: Cursor<'_>) -> Result<Entries, Stop>
    ensures value { ReadsAll (λ entries. entries) result (events_at (place at.entry)) }
    ensures counted { IfOk result (λ entries. at.entry.number + length entries < 2 ^ 64) }
{
    let (entries, behind) = entries_of(alloc, at)?;
    behind.over()?;
    Ok(entries)
}

// The record that lines are.
fn record_at(alloc: Global, at: Cursor<'_>) -> Result<Record, Stop>
    ensures value { ReadsAll (λ r. r) result (record_at (place at.entry)) }
    ensures opening { IfOk result (λ r. IsOpening r.opening) }
    ensures counted { IfOk result (λ r. r.first + length r.entries < 2 ^ 64) }
{
    let (opening, began) = opening_at(alloc, at)?;
    let entries = events_at(alloc, began)?;
    Ok(Record {
        opening,
        first: began.number(),
        entries,
    })
}

/// The record that a text is: what the core was made of, and the events with the words of their answers. Bytes that no line feed
/// ends are of a line that was cut, and count for nothing. `Form` exactly where the text is none, with the first line that is wrong
/// or missing. `docs/FORMATS.md`, "Records", has the lines. Takes memory for what it gives.
pub fn read_record(alloc: Global, text: &[u8]) -> Result<Record, RecordFault>
    ensures reads { ReadsRecord result text.now }
    ensures opening { IfOk result (λ r. IsOpening r.opening) }
    ensures counted { IfOk result (λ r. r.first + length r.entries < 2 ^ 64) }
{
    match record_at(alloc, Cursor::new(text)) {
        Ok(record) => Ok(record),
        Err(Stop::Line(line)) => Err(RecordFault::Form { line }),
        Err(Stop::Memory) => Err(RecordFault::Memory),
    }
}
