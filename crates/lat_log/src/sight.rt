//! What a core shows at one hold of the lock, read at once.

ghost use Rattle.std.specs.Prelude.{◌≡◌, ◌<◌, ◌∷◌, [], ◌++◌, IfOk, OnOk, map};
ghost use Rattle.std.specs.List.{flat_map};
ghost use Rattle.std.specs.Option.{option_map};
ghost use Rattle.lat_log.specs.Sights.{flow_of, gathered, node_offers, offered_at, one, sight_of, waiting_at, waiting_for};

use crate::entry::{Flow, Offered};
use crate::seen::{LineSeen, LineSight, Waiting};
use lat_base::{CircuitLook, Core, Memory, Name, NodeLook};
use std::alloc::Global;

/// How many circuits live at most.
const CIRCUITS: usize = 8;

/// How many nodes are live at most.
const NODES: usize = 256;

/// How many requests wait for a service at most.
const WAITERS: usize = 64;

/// The circuits that live, by rising id.
pub fn circuits_of<C: Core>(alloc: Global, core: &C) -> Result<Vec<CircuitLook>, Memory>
    requires { C.valid core.now }
    ensures { (s : C.State) → C.stands core.now s →
        IfOk result (λ v. v.items ≡ gathered (one (C.circuit_of s)) 0 8) }
{
    let mut list = Vec::with_capacity(alloc, CIRCUITS)?;
    for at in 0..CIRCUITS {
        let Some(circuit) = core.circuit(at) else {
            return Ok(list);
        };
        list.push(circuit)?;
    }
    Ok(list)
}

// What a line carried so far.
fn flow_of(flows: &[Flow], line: u8) -> Flow
    ensures { result ≡ flow_of flows.now line }
{
    match flows.get(line.saturating_sub(1) as usize) {
        Some(flow) => *flow,
        None => Flow { put: 0, took: 0 },
    }
}

// A line, as it was seen last and as it is shown now.
fn sight_of<C: Core>(core: &C, flows: &[Flow], seen: &LineSeen) -> LineSight
    requires { C.valid core.now }
    ensures { (s : C.State) → C.stands core.now s →
        result ≡ sight_of (C.look_of s) (C.correspondent_of s) flows.now seen.now }
{
    LineSight {
        line: seen.line,
        seen: seen.session,
        look: core.look(seen.line),
        with: core.correspondent(seen.line),
        flow: flow_of(flows, seen.line),
    }
}

/// The lines, as they were seen last and as they are shown now.
pub fn lines_of<C: Core>(
    alloc: Global,
    core: &C,
    flows: &[Flow],
    lines: &[LineSeen],
) -> Result<Vec<LineSight>, Memory>
    requires { C.valid core.now }
    ensures { (s : C.State) → C.stands core.now s →
        IfOk result (λ v. v.items ≡ map (sight_of (C.look_of s) (C.correspondent_of s) flows.now) lines.now) }
{
    let mut list = Vec::with_capacity(alloc, lines.len())?;
    for seen in lines {
        list.push(sight_of(core, flows, seen))?;
    }
    Ok(list)
}

// Who waits for a service, at this place.
fn waiting_at<C: Core>(core: &C, service: &Name, at: usize) -> Option<Waiting>
    requires valid { C.valid core.now }
    requires place { at < 64 }
    ensures { (s : C.State) → C.stands core.now s →
        result ≡ waiting_at (C.waiter_of s) service.now at }
{
    match core.waiter(service, at) {
        Some(waiter) => Some(Waiting {
            service: *service,
            from: waiter.from,
            request: waiter.request,
            place: at as u16 + 1,
        }),
        None => None,
    }
}

// Adds who waits for a service.
fn waiting_onto<C: Core>(list: &mut Vec<Waiting>, core: &C, service: &Name) -> Result<(), Memory>
    requires { C.valid core.now }
    ensures { (s : C.State) → C.stands core.now s →
        OnOk result (list.new.items ≡ list.old.items ++ waiting_for (C.waiter_of s) service.now) }
{
    for at in 0..WAITERS {
        let Some(waiting) = waiting_at(core, service, at) else {
            return Ok(());
        };
        list.push(waiting)?;
    }
    Ok(())
}

/// Who waits for the services.
pub fn waiting_of<C: Core>(
    alloc: Global,
    core: &C,
    services: &[Name],
) -> Result<Vec<Waiting>, Memory>
    requires { C.valid core.now }
    ensures { (s : C.State) → C.stands core.now s →
        IfOk result (λ v. v.items ≡ flat_map (waiting_for (C.waiter_of s)) services.now) }
{
    let mut list = Vec::new(alloc);
    for service in services {
        waiting_onto(&mut list, core, service)?;
    }
    Ok(list)
}

// The service at a place of what a node announced.
fn offered_at<C: Core>(core: &C, node: usize, look: &NodeLook, at: usize) -> Option<Offered>
    requires { C.valid core.now }
    ensures { (s : C.State) → C.stands core.now s →
        result ≡ offered_at (C.service_of s node) look.now at }
{
    match core.service(node, at) {
        Some(service) => Some(Offered {
            service: service.name,
            node: look.name.folded(),
            address: look.from,
            rating: service.rating,
        }),
        None => None,
    }
}

// Adds what a node announced.
fn offered_onto<C: Core>(
    list: &mut Vec<Offered>,
    core: &C,
    node: usize,
    look: &NodeLook,
) -> Result<(), Memory>
    requires { C.valid core.now }
    ensures { (s : C.State) → C.stands core.now s → OnOk result (list.new.items ≡ list.old.items
        ++ gathered (one (offered_at (C.service_of s node) look.now)) 0 look.now.services) }
{
    for at in 0..look.services {
        let Some(offered) = offered_at(core, node, look, at) else {
            return Ok(());
        };
        list.push(offered)?;
    }
    Ok(())
}

/// What the nodes that are live announced.
pub fn services_of<C: Core>(alloc: Global, core: &C) -> Result<Vec<Offered>, Memory>
    requires { C.valid core.now }
    ensures { (s : C.State) → C.stands core.now s → IfOk result (λ v.
        v.items ≡ gathered (node_offers (C.node_of s) (C.service_of s)) 0 256) }
{
    let mut list = Vec::new(alloc);
    for at in 0..NODES {
        let Some(look) = core.node(at) else {
            return Ok(list);
        };
        offered_onto(&mut list, core, at, &look)?;
    }
    Ok(list)
}
