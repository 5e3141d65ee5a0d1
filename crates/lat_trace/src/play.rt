//! The events of a schedule, one after another.

ghost use Rattle.std.specs.Prelude.{◌≡◌, ◌≢◌, ◌+◌, [], IfOk, IfErr, OnOk, OnErr, length};
ghost use Rattle.lat_model.specs.Lists.{Each};
ghost use Rattle.lat_replay.specs.Moves.{IsPlayable};
ghost use Rattle.lat_replay.specs.Played.{State, next, refusal};
ghost use Rattle.lat_wire.specs.Kept.{setups_of};
ghost use Rattle.lat_wire.specs.Refusals.{RefusedAs};
ghost use Rattle.lat_wire.specs.declared.fault.EventFault.TheVariants.{Memory};
ghost use Rattle.lat_trace.specs.Entries.{answer_at};
ghost use Rattle.lat_trace.specs.Shown.{Enters, IsAt, PlaysAs, ShowsEvent, some_of};

use crate::entries::Entries;
use crate::entry::Entry;
use lat_base::Answer;
use lat_node::RatingRule;
use lat_replay::Stopped;
use lat_schedule::WorldEvent;
use lat_wire::{EventFault, Wire};
use std::alloc::Global;

// An answer that an end gave.
fn some_answer(answer: Result<Answer, EventFault>) -> Result<Option<Answer>, EventFault>
    ensures { result ≡ some_of answer }
{
    match answer {
        Ok(answer) => Ok(Some(answer)),
        Err(fault) => Err(fault),
    }
}

// Tells a wire an event, and gives the answer.
fn tell<H: RatingRule>(
    alloc: Global,
    wire: &mut Wire<H>,
    event: &WorldEvent,
) -> Result<Option<Answer>, EventFault>
    requires { IsPlayable event.now }
    ensures goes { OnOk result ((s : State) → IsAt wire.old s →
        IsAt wire.new (next (setups_of wire.old) s event.now)) }
    ensures answer { IfOk result (λ a. (s : State) → IsAt wire.old s →
        a ≡ answer_at (setups_of wire.old) s event.now) }
    ensures refused { (s : State) → IsAt wire.old s →
        RefusedAs result (refusal (setups_of wire.old) s event.now) }
    ensures setups { setups_of wire.new ≡ setups_of wire.old }
    ensures err { OnErr result (wire.new ≡ wire.old) }
{
    match event {
        WorldEvent::Local { server, event } => some_answer(wire.local(alloc, *server, event)),
        WorldEvent::Deliver { index } => wire.deliver(alloc, *index),
        WorldEvent::Inject {
            server,
            from,
            payload,
        } => some_answer(wire.inject(alloc, *server, *from, payload.as_slice())),
    }
}

// Tells a wire an event, and gives what happened.
fn happen<H: RatingRule>(
    alloc: Global,
    wire: &mut Wire<H>,
    event: &WorldEvent,
) -> Result<Entry, EventFault>
    requires { IsPlayable event.now }
    ensures goes { OnOk result ((s : State) → IsAt wire.old s →
        IsAt wire.new (next (setups_of wire.old) s event.now)) }
    ensures entry { IfOk result (λ k. (s : State) → IsAt wire.old s →
        ShowsEvent (setups_of wire.old) s event.now k) }
    ensures refused { (s : State) → IsAt wire.old s →
        RefusedAs result (refusal (setups_of wire.old) s event.now) }
    ensures setups { setups_of wire.new ≡ setups_of wire.old }
    ensures err { OnErr result (wire.new ≡ wire.old) }
{
    let first = wire.frames();
    let answer = tell(alloc, wire, event)?;
    Ok(Entry {
        moment: wire.moment(),
        answer,
        first,
        behind: wire.frames(),
    })
}

// Tells a wire an event, and lists what happened.
fn enter<H: RatingRule>(
    alloc: Global,
    wire: &mut Wire<H>,
    event: &WorldEvent,
    entries: &mut Entries,
) -> Result<(), EventFault>
    requires { IsPlayable event.now }
    ensures goes { OnOk result ((s : State) → IsAt wire.old s →
        IsAt wire.new (next (setups_of wire.old) s event.now)) }
    ensures enters { OnOk result ((s : State) → IsAt wire.old s →
        Enters (setups_of wire.old) s event.now entries.old entries.new) }
    ensures longer { OnOk result (length entries.new ≡ length entries.old + 1) }
    ensures refused { (s : State) → IsAt wire.old s →
        RefusedAs result (refusal (setups_of wire.old) s event.now) }
    ensures setups { setups_of wire.new ≡ setups_of wire.old }
    ensures err { IfErr result (λ fault. fault ≢ Memory →
        (wire.new ≡ wire.old) × (entries.new ≡ entries.old)) }
{
    let entry = happen(alloc, wire, event)?;
    entries.push(entry)?;
    Ok(())
}

/// Tells a wire these events, in order, up to the first one that is refused, and lists what happened.
pub(crate) fn play<H: RatingRule>(
    alloc: Global,
    wire: &mut Wire<H>,
    events: &[WorldEvent],
    entries: &mut Entries,
) -> Result<(), Stopped>
    requires playable { Each IsPlayable events.now }
    requires empty { entries.old ≡ [] }
    ensures plays { (s : State) → IsAt wire.old s →
        PlaysAs (setups_of wire.old) s events.now result wire.new entries.new }
    ensures setups { setups_of wire.new ≡ setups_of wire.old }
{
    for (index, event) in events.iter().enumerate() {
        if let Err(fault) = enter(alloc, wire, event, entries) {
            return Err(Stopped { index, fault });
        }
    }
    Ok(())
}
