//! The whole of a schedule.

ghost use Rattle.std.specs.Prelude.{◌≡◌, ◌≤◌, length, IfOk};
ghost use Rattle.std.specs.Result.{result_map_both};
ghost use Rattle.lat_model.specs.Lists.{Each};
ghost use Rattle.lat_node.specs.Config as nodes;
ghost use Rattle.lat_server.specs.Config as servers;
ghost use Rattle.lat_server.specs.Config.{AreOffers};
ghost use Rattle.lat_schedule.specs.Events.{IsEvent};
ghost use Rattle.lat_schedule.specs.Front.{FitsFront};
ghost use Rattle.lat_schedule.specs.Places.{place, opening};
ghost use Rattle.lat_schedule.specs.Setups.{IsSetup};
ghost use Rattle.lat_schedule.specs.ScheduleText.{ReadsSchedule, form_at, word_at, ending_at, server_made, node_made, setup_at, schedule_at, within_limit};
ghost use Rattle.lat_schedule.specs.ReadsAll.{ReadsAll};

use crate::front::{Front, front_of};
use crate::groups::groups_of;
use crate::listed::{Listed, events_of, offers_of, services_of};
use crate::numbers::saturated_number;
use crate::rest::Rest;
use crate::schedule::{Schedule, ScheduleFault};
use crate::setup::Setup;
use lat_base::{Bytes, Memory};
use lat_node::NodeConfig;
use lat_queue::Services16;
use lat_server::{Offers, ServerConfig};
use std::alloc::Global;

/// The greatest number of events.
const EVENTS: usize = 100_000;

// The first wrong line.
fn form_at(number: usize) -> ScheduleFault
    ensures { result ≡ form_at number }
{
    ScheduleFault::Form {
        line: saturated_number(number),
    }
}

// The lines behind one that must be this word.
fn word_at<'a>(word: &str, at: Rest<'a>) -> Result<Rest<'a>, usize>
    ensures { result_map_both place (λ number. number) result ≡ word_at word.now (place at.entry) }
{
    let next = at.line()?;
    if next.line == word.as_bytes() {
        Ok(next.behind)
    } else {
        Err(next.number)
    }
}

// `end`, with nothing behind it.
fn ending_at(at: Rest<'_>) -> Result<(), usize>
    ensures { result_map_both (λ done. tt) (λ number. number) result ≡ ending_at (place at.entry) }
{
    let behind = word_at("end", at)?;
    behind.nothing()
}

fn server_made(front: &Front, groups: [u8; 32], offers: Offers) -> ServerConfig
    requires front { FitsFront front.now }
    requires offers { AreOffers front.now.server.lines offers }
    ensures value { result ≡ server_made front.now groups offers }
    ensures valid { servers.IsConfig result }
{
    ServerConfig {
        own: front.server.own,
        name: front.server.name,
        lines: front.server.lines,
        offers,
        groups,
        timing: front.circuit.server,
        prompt: front.server.opening.prompt,
        first: front.server.opening.first,
    }
}

fn node_made(front: &Front, groups: Bytes, services: Services16) -> NodeConfig
    requires front { FitsFront front.now }
    requires groups { length groups ≤ 32 }
    ensures value { result ≡ node_made front.now groups services }
    ensures valid { nodes.IsConfig result }
{
    NodeConfig {
        own: front.node.own,
        name: front.node.name,
        incarnation: front.node.incarnation,
        lines: front.node.lines,
        services,
        timer: front.node.timer,
        groups,
        timing: front.circuit.node,
        prompt: front.node.opening.prompt,
        first: front.node.opening.first,
    }
}

// What both cores are made of, by the lines behind the first four, and the lines behind it.
fn setup_at<'a>(alloc: Global, front: &Front, at: Rest<'a>) -> Result<(Setup, Rest<'a>), Memory>
    requires { FitsFront front.now }
    ensures value { IfOk result (λ r. (r.0, place r.1) ≡ setup_at front.now (place at.entry)) }
    ensures setup { IfOk result (λ r. IsSetup r.0) }
    ensures own { IfOk result (λ r. r.0.server.own ≡ front.now.server.own) }
{
    let (groups, at) = groups_of(alloc, front.version, at)?;
    let (services, at) = services_of(alloc, at)?;
    let (offers, at) = offers_of(alloc, front.server.lines, at)?;
    let server = server_made(front, groups.server, offers);
    let node = node_made(front, groups.node, services);
    Ok((Setup { server, node }, at))
}

// A schedule has 100,000 events at most.
fn within_limit(schedule: Schedule) -> Result<Schedule, ScheduleFault>
    ensures value { result ≡ within_limit schedule }
    ensures few { IfOk result (λ s. length s.events ≤ 100000) }
{
    if schedule.events.as_slice().len() > EVENTS {
        return Err(ScheduleFault::Events {
            line: schedule.lines.at(EVENTS),
        });
    }
    Ok(schedule)
}

// Why no schedule is read: a wrong line, by its number, or want of memory.
enum Stop {
    Line(usize),
    Memory,
}

impl From<usize> for Stop {
    ghost use Rattle.std.specs.Prelude.{◌≡◌};
    ghost use Rattle.lat_schedule.specs.declared.read.Stop.TheVariants as stops;

    ghost from_gives = { λ number stop. stop ≡ stops.Line number };

    fn from(number: usize) -> Stop {
        Stop::Line(number)
    }
}

impl From<Memory> for Stop {
    ghost use Rattle.std.specs.Prelude.{◌≡◌};
    ghost use Rattle.lat_schedule.specs.declared.read.Stop.TheVariants as stops;

    ghost from_gives = { λ _ stop. stop ≡ stops.Memory };

    fn from(_e: Memory) -> Stop {
        Stop::Memory
    }
}

// The schedule that a text is, whatever the number of its events.
fn schedule_at(alloc: Global, text: &[u8]) -> Result<Schedule, Stop>
    ensures value { ReadsAll result (schedule_at (opening text.now)) }
    ensures setup { IfOk result (λ schedule. IsSetup schedule.setup) }
    ensures events { IfOk result (λ schedule.
        Each (IsEvent schedule.setup.server.own) schedule.events) }
{
    let (front, at) = match front_of(&Rest::new(text)) {
        Ok(found) => found,
        Err(number) => return Err(Stop::Line(number)),
    };
    let (setup, at) = setup_at(alloc, &front, at)?;
    let at = word_at("go", at)?;
    let (listed, at) = events_of(alloc, front.version, front.server.own, at)?;
    ending_at(at)?;
    let Listed { lines, events } = listed;
    Ok(Schedule {
        setup,
        lines,
        events,
    })
}

/// The schedule that a text is: what both cores are made of, and the events. `Form` exactly where the text is none, with
/// the first line that is wrong or missing, and `Events` exactly where it is one with more than 100,000 events, with the
/// line of the first one too many. `docs/FORMATS.md`, "Schedules", has the lines. Takes memory for what it gives.
pub fn read_schedule(alloc: Global, text: &[u8]) -> Result<Schedule, ScheduleFault>
    ensures reads { ReadsSchedule result text.now }
    ensures setup { IfOk result (λ schedule. IsSetup schedule.setup) }
    ensures events { IfOk result (λ schedule.
        Each (IsEvent schedule.setup.server.own) schedule.events) }
    ensures few { IfOk result (λ schedule. length schedule.events ≤ 100000) }
{
    match schedule_at(alloc, text) {
        Ok(schedule) => within_limit(schedule),
        Err(Stop::Line(number)) => Err(form_at(number)),
        Err(Stop::Memory) => Err(ScheduleFault::Memory),
    }
}
