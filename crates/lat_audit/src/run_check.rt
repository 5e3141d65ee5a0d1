//! A RUN of a capture, held against the rules.

ghost use Rattle.std.specs.Prelude.{◌≡◌, ◌+◌, ◌^◌, ◌<◌, ◌≤◌, false, None, length, IfOk, nat_eq, not};
ghost use Rattle.std.specs.List.{AllByRecursion};
ghost use Rattle.lat_slots.specs.Layout.{IsWritable as SlotIsWritable};
ghost use Rattle.lat_frames.specs.Written.{slots_text};
ghost use Rattle.lat_stream.specs.Wire.{slot_heard};
ghost use Rattle.lat_captures.specs.Facts.{facts_of};
ghost use Rattle.lat_captures.specs.Answers.{runs_of, title_of};
ghost use Rattle.lat_audit.specs.TextSlots.{facts_in};
ghost use Rattle.lat_audit.specs.Steps.{ChecksRun};

use lat_base::{Memory, Payload};
use lat_captures::{Checker, Rule, RunHead, SlotFacts};
use lat_frames::write_slots;
use lat_slots::Slot;
use std::alloc::Global;

// What the rules look at in a start.
fn start_facts(to: u8, from: u8, credits: u8) -> SlotFacts
    ensures { result ≡ record {
      to = to;
      from = from;
      credits = credits;
      cost = 0;
      asks = nat_eq to 0;
      replies = not (nat_eq to 0);
    } }
{
    SlotFacts {
        to,
        from,
        credits,
        cost: 0,
        asks: to == 0,
        replies: to != 0,
    }
}

// And in any other slot.
fn slot_facts(to: u8, from: u8, credits: u8, cost: u8) -> SlotFacts
    ensures { result ≡ record {
      to = to;
      from = from;
      credits = credits;
      cost = cost;
      asks = false;
      replies = false;
    } }
{
    SlotFacts {
        to,
        from,
        credits,
        cost,
        asks: false,
        replies: false,
    }
}

// What the rules look at in a slot.
fn facts_of(slot: &Slot) -> SlotFacts
    ensures { result ≡ facts_of (slot_heard slot.now) }
{
    match slot {
        Slot::Start {
            to,
            from,
            credits,
            ..
        } => start_facts(*to, *from, *credits),
        Slot::DataA {
            to,
            from,
            credits,
            bytes,
        } => {
            let cost = if bytes.as_slice().is_empty() { 0 } else { 1 };
            slot_facts(*to, *from, *credits, cost)
        }
        Slot::DataB {
            to,
            from,
            credits,
            ..
        } => slot_facts(*to, *from, *credits, 1),
        Slot::Attention { to, from, .. }
        | Slot::Reject { to, from, .. }
        | Slot::Stop { to, from, .. } => slot_facts(*to, *from, 0, 0),
    }
}

// The same of each slot. Takes memory for the list.
fn facts_of_all(alloc: Global, slots: &[Slot]) -> Result<Vec<SlotFacts>, Memory>
    ensures { IfOk result (λ facts. facts.items ≡ facts_in slots.now) }
{
    let mut facts = Vec::with_capacity(alloc, slots.len())?;
    for slot in slots {
        facts.push(facts_of(slot))?;
    }
    Ok(facts)
}

/// Takes a RUN of one end behind those before, or answers the first rule that it breaks. Its slots are such as a RUN may have.
/// Takes memory for what is to be known of them; without it the checker is of no more use.
pub fn run_checked(
    checker: &mut Checker,
    alloc: Global,
    by_master: bool,
    head: &RunHead,
    slots: &[Slot],
) -> Result<Option<Rule>, Memory>
    requires runs { runs_of checker.old + 3 < 2 ^ 64 }
    requires few { length slots.now < 256 }
    requires ok { AllByRecursion SlotIsWritable slots.now }
    requires room { length (slots_text slots.now) ≤ 1500 }
    ensures answer { ChecksRun checker.old by_master head.now slots.now checker.new result }
    ensures runs { IfOk result (λ broken.
        broken ≡ None → runs_of checker.new ≡ runs_of checker.old + 1) }
    ensures title { IfOk result (λ broken.
        broken ≡ None → title_of checker.new ≡ title_of checker.old) }
{
    let facts = facts_of_all(alloc, slots)?;
    let mut text = Payload::empty();
    write_slots(slots, &mut text);
    checker.run(alloc, by_master, head, facts.as_slice(), text.bytes())
}
