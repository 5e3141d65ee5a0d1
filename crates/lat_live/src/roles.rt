//! What a daemon does in each role, once its words are read.

ghost use Rattle.std.specs.Prelude.{◌≡◌, ◌≢◌, ◌⊎◌, [], IfOk, IfSome, None};
ghost use Rattle.lat_history.specs.Ledgers.{AreBlanks};
ghost use Rattle.lat_words.specs.Within.{IsSettings};
ghost use Rattle.lat_live.specs.Lines.{devices_of, lines_of};
ghost use Rattle.lat_live.specs.declared.ran.Ran.TheVariants as ran;
ghost use Rattle.lat_live.specs.Plans.{AskedBy, IsPlanOf, RefusedBy};
ghost use Rattle.lat_live.specs.Printed.{IsOwn, RoseIn};
ghost use Rattle.lat_live.specs.Served.{HasPrinted, IsBack, core_role, role_of};

use crate::cores::{first_at, node_core, server_core, switch_core};
use crate::lines::{devices_of, lines_of, stay_of};
use crate::logging::Log;
use crate::plan::{LinePlan, Plan};
use crate::ran::Served;
use crate::serving::serve_core;
use lat_base::Memory;
use lat_cell::{Blanks, Course};
use lat_outside::{Clock, Gate, PortOpener, Sink};
use lat_turns::Device;
use lat_words::{Role, Settings};
use std::alloc::Global;
use std::sync::Wait;
use std::sync::ledger::Ledger;
use std::thread::Threads;

// What a daemon of these words is to do, with its lines and its devices. A node announces its services.
fn plan_of<'a>(
    settings: &'a Settings,
    lines: &'a [LinePlan],
    devices: &'a [Device],
    tenths: u64,
) -> Plan<'a>
    requires lines { lines.now ≡ lines_of settings.now.role settings.now.seats }
    requires devices { devices.now ≡ devices_of settings.now.seats.services.items }
    ensures { IsPlanOf settings.entry.now tenths result }
{
    let announce = match settings.role {
        Role::Server | Role::Switch => None,
        Role::Node | Role::Tariff => Some(settings.pace.announce),
    };
    Plan {
        role: settings.role,
        name: settings.station.name,
        own: settings.station.address,
        port: settings.station.port,
        peers: settings.station.peers.as_slice(),
        lines,
        devices,
        stay: stay_of(settings.stay.once),
        course: Course {
            announce,
            sessions: settings.stay.sessions.map(u64::from),
            linger: settings.stay.linger,
            timer: settings.pace.timer,
        },
        kept: settings.history as usize,
        level: settings.log,
        first: first_at(tenths),
    }
}

// What a daemon does by its plan, round the core of its role.
fn serve_planned<
    'a,
    O: PortOpener,
    K: Clock + Copy + Send,
    G: Gate + Sync,
    W: Sink + Send,
    S: Sink,
    E: Ledger + Sync,
    B: Ledger + Sync,
    R: Threads + Wait + Sync,
>(
    rt: &R,
    alloc: Global,
    settings: &Settings,
    plan: &'a Plan<'a>,
    tenths: u64,
    blanks: Blanks,
    opener: &mut O,
    clock: K,
    gate: &G,
    log: Log<'_, W>,
    out: &mut S,
) -> Served<O::T, O::C, E, B>
    requires settings { IsSettings settings.now }
    requires plan { IsPlanOf settings.now tenths plan.now }
    requires blanks { AreBlanks blanks E.name E.parts B.name B.parts }
    ensures role { IfSome (role_of result.ran) (λ role. role ≡ core_role settings.now.role) }
    ensures ended { HasPrinted S.written S.faults out.old out.new result }
    ensures back { IsBack O.C.visits settings.now.seats.lines result }
    ensures own { IsOwn result.status ⊎ ((result.status ≡ 4) ⊎ (result.status ≡ 5)) }
    ensures opener { result.status ≡ 4 → RoseIn O.faults opener.old opener.new }
    ensures refused { RefusedBy settings.now tenths (O.asked opener.old) (O.asked opener.new)
        result.status result.refused }
    ensures asked { result.ran ≢ ran.Not →
        AskedBy settings.now tenths (O.asked opener.old) (O.asked opener.new) }
    ensures wrong { result.wrong ≡ None }
    ensures sink { result.status ≡ 5 → RoseIn S.faults out.old out.new }
    ensures none { result.ran ≡ ran.Not → (result.status ≡ 4) ⊎ (result.status ≡ 9) }
    ensures silent { result.status ≡ 4 → S.written out.new ≡ S.written out.old }
    ensures memory { result.status ≡ 9 → S.written out.new ≡ S.written out.old }
    ensures empty { result.ran ≡ ran.Not →
        (result.shares ≡ []) × (result.ends ≡ []) × (result.lines ≡ []) }
{
    match settings.role {
        Role::Server => {
            let core = server_core(alloc, settings, plan.first);
            let done = serve_core(rt, alloc, plan, core, blanks, opener, clock, gate, log, out);
            Served::of_server(done)
        }
        Role::Switch => {
            let core = switch_core(alloc, settings, plan.first);
            let done = serve_core(rt, alloc, plan, core, blanks, opener, clock, gate, log, out);
            Served::of_switch(done)
        }
        Role::Node | Role::Tariff => {
            let core = node_core(alloc, settings, plan.first);
            let done = serve_core(rt, alloc, plan, core, blanks, opener, clock, gate, log, out);
            Served::of_node(done)
        }
    }
}

// The lines of a daemon, and the devices that they dial.
#[derive(Drop)]
struct Fitted {
    lines: Vec<LinePlan>,
    devices: Vec<Device>,
}

fn fit(alloc: Global, settings: &Settings) -> Result<Fitted, Memory>
    requires { IsSettings settings.now }
    ensures lines { IfOk result (λ f. f.lines.items ≡ lines_of settings.now.role settings.now.seats) }
    ensures devices { IfOk result (λ f. f.devices.items ≡ devices_of settings.now.seats.services.items) }
{
    let lines = lines_of(alloc, settings.role, &settings.seats)?;
    let devices = devices_of(alloc, settings.seats.services.as_slice())?;
    Ok(Fitted { lines, devices })
}

/// Does all that a daemon does in its role, once its words are read. It starts at this time, in tenths of a second.
pub fn serve_in_role<
    O: PortOpener,
    K: Clock + Copy + Send,
    G: Gate + Sync,
    W: Sink + Send,
    S: Sink,
    E: Ledger + Sync,
    B: Ledger + Sync,
    R: Threads + Wait + Sync,
>(
    rt: &R,
    alloc: Global,
    settings: &Settings,
    tenths: u64,
    blanks: Blanks,
    opener: &mut O,
    clock: K,
    gate: &G,
    log: Log<'_, W>,
    out: &mut S,
) -> Served<O::T, O::C, E, B>
    requires settings { IsSettings settings.now }
    requires blanks { AreBlanks blanks E.name E.parts B.name B.parts }
    ensures role { IfSome (role_of result.ran) (λ role. role ≡ core_role settings.now.role) }
    ensures ended { HasPrinted S.written S.faults out.old out.new result }
    ensures back { IsBack O.C.visits settings.now.seats.lines result }
    ensures own { IsOwn result.status ⊎ ((result.status ≡ 4) ⊎ (result.status ≡ 5)) }
    ensures opener { result.status ≡ 4 → RoseIn O.faults opener.old opener.new }
    ensures refused { RefusedBy settings.now tenths (O.asked opener.old) (O.asked opener.new)
        result.status result.refused }
    ensures asked { result.ran ≢ ran.Not →
        AskedBy settings.now tenths (O.asked opener.old) (O.asked opener.new) }
    ensures wrong { result.wrong ≡ None }
    ensures sink { result.status ≡ 5 → RoseIn S.faults out.old out.new }
    ensures none { result.ran ≡ ran.Not → (result.status ≡ 4) ⊎ (result.status ≡ 9) }
    ensures silent { result.status ≡ 4 → S.written out.new ≡ S.written out.old }
    ensures memory { result.status ≡ 9 → S.written out.new ≡ S.written out.old }
    ensures empty { result.ran ≡ ran.Not →
        (result.shares ≡ []) × (result.ends ≡ []) × (result.lines ≡ []) }
{
    let Ok(fitted) = fit(alloc, settings) else {
        return Served::nothing(alloc, 9, None);
    };
    let plan = plan_of(
        settings,
        fitted.lines.as_slice(),
        fitted.devices.as_slice(),
        tenths,
    );
    serve_planned(
        rt, alloc, settings, &plan, tenths, blanks, opener, clock, gate, log, out,
    )
}
