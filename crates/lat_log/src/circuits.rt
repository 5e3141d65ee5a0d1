//! What is new of circuits.

ghost use Rattle.std.specs.Prelude.{◌≡◌, ◌≤◌, ◌++◌, nat_eq, OnOk};
ghost use Rattle.std.specs.List.{flat_map, list_any};
ghost use Rattle.lat_base.specs.declared.look.CircuitLook.{CircuitLook as Look};
ghost use Rattle.lat_log.specs.CircuitNews.{came_up, cause_of, circuit_of, circuits_news, is_up, lives_in, timed_out, up_in, went_down};

use crate::entry::{Cause, Circuit, CircuitNews, Entry};
use crate::news::News;
use crate::seen::Side;
use crate::trigger::Trigger;
use lat_base::{CircuitLook, Memory};

// Whether the peer's id is known, so that the circuit runs.
fn is_up(circuit: &CircuitLook) -> bool
    ensures { result ≡ is_up circuit.now }
{
    circuit.peer_id != 0
}

// Whether one of the circuits has this id.
fn lives_in(circuits: &[CircuitLook], id: u16) -> bool
    ensures { result ≡ lives_in circuits.now id }
{
    circuits.iter().any(|circuit| circuit.id == id)
}

// Whether the circuit of this id is among them, and runs.
fn up_in(circuits: &[CircuitLook], id: u16) -> bool
    ensures { result ≡ up_in circuits.now id }
{
    circuits
        .iter()
        .any(|circuit| circuit.id == id && is_up(circuit))
}

// A circuit that ended when time passed.
fn timed_out(side: Side, circuit: &CircuitLook) -> Cause
    ensures { result ≡ timed_out side circuit.now }
{
    let is_used = circuit.held != 0 || circuit.rounds == 8 || !is_up(circuit);
    match side {
        Side::Server | Side::Switch if !is_used => Cause::NoUse,
        _ => Cause::NoAnswer,
    }
}

// Why a circuit went down that was seen so.
fn cause_of(side: Side, trigger: Trigger, circuit: &CircuitLook) -> Cause
    ensures { result ≡ cause_of side trigger circuit.now }
{
    match trigger {
        Trigger::Stop(reason) => Cause::Stopped(reason),
        Trigger::Breach(reason) => Cause::Broken(reason),
        Trigger::Time => timed_out(side, circuit),
        Trigger::Halt => Cause::Halted,
        Trigger::Other => Cause::Outlived,
    }
}

fn circuit_of(look: &CircuitLook) -> Circuit
    ensures { result ≡ circuit_of look.now }
{
    Circuit {
        id: look.id,
        name: look.name,
        address: look.peer,
    }
}

// Adds that a circuit went down, where it did.
fn went_down(
    news: &mut News,
    side: Side,
    trigger: Trigger,
    now: &[CircuitLook],
    circuit: &CircuitLook,
) -> Result<(), Memory>
    ensures { OnOk result (news.new ≡ news.old
        ++ went_down side trigger now.now circuit.now) }
{
    if !lives_in(now, circuit.id) {
        let cause = cause_of(side, trigger, circuit);
        news.push(Entry::Circuit {
            circuit: circuit_of(circuit),
            news: CircuitNews::Down(cause),
        })?;
    }
    Ok(())
}

// Adds that a circuit came up, where it did.
fn came_up(news: &mut News, old: &[CircuitLook], circuit: &CircuitLook) -> Result<(), Memory>
    ensures { OnOk result (news.new ≡ news.old ++ came_up old.now circuit.now) }
{
    if is_up(circuit) && !up_in(old, circuit.id) {
        news.push(Entry::Circuit {
            circuit: circuit_of(circuit),
            news: CircuitNews::Up,
        })?;
    }
    Ok(())
}

// Adds which circuits went down.
fn gone_onto(
    news: &mut News,
    side: Side,
    trigger: Trigger,
    old: &[CircuitLook],
    now: &[CircuitLook],
) -> Result<(), Memory>
    ensures { OnOk result (news.new ≡ news.old
        ++ flat_map (went_down side trigger now.now) old.now) }
{
    for circuit in old {
        went_down(news, side, trigger, now, circuit)?;
    }
    Ok(())
}

// Adds which circuits came up.
fn come_onto(news: &mut News, old: &[CircuitLook], now: &[CircuitLook]) -> Result<(), Memory>
    ensures { OnOk result (news.new ≡ news.old ++ flat_map (came_up old.now) now.now) }
{
    for circuit in now {
        came_up(news, old, circuit)?;
    }
    Ok(())
}

/// Adds which circuits went down and why, and which came up, between two sights of them.
pub fn circuits_onto(
    news: &mut News,
    side: Side,
    trigger: Trigger,
    old: &[CircuitLook],
    now: &[CircuitLook],
) -> Result<(), Memory>
    ensures { OnOk result (news.new ≡ news.old
        ++ circuits_news side trigger old.now now.now) }
{
    gone_onto(news, side, trigger, old, now)?;
    come_onto(news, old, now)
}
