//! An entry of a capture, held against the rules.

ghost use Rattle.std.specs.Prelude.{◌≡◌, ◌+◌, ◌^◌, ◌<◌, ◌≤◌, None, IfOk};
ghost use Rattle.lat_frames.specs.Written.{IsWritable};
ghost use Rattle.lat_captures.specs.Answers.{runs_of, title_of};
ghost use Rattle.lat_audit.specs.Shown.{entry_shown, head_of, message_entry, narrow_head, slots_of, wide_head};
ghost use Rattle.lat_audit.specs.Steps.{Checks};

use crate::entry::Entry;
use crate::run_check::run_checked;
use lat_base::Memory;
use lat_captures::{Checker, Rule, RunHead};
use lat_fields::LayoutFault;
use lat_frames::{Head, Message, WideHead};
use lat_slots::Slot;
use lat_value::{Value, read_value};
use std::alloc::Global;

fn narrow_head(head: &Head) -> RunHead
    ensures { result ≡ narrow_head head.now }
{
    RunHead {
        wide: false,
        master: head.master,
        to: head.to,
        from: head.from,
        seq: u16::from(head.seq),
        ack: u16::from(head.ack),
    }
}

fn wide_head(head: &WideHead) -> RunHead
    ensures { result ≡ wide_head head.now }
{
    RunHead {
        wide: true,
        master: head.master,
        to: head.to,
        from: head.from,
        seq: head.seq,
        ack: head.ack,
    }
}

// The head of a RUN.
fn head_of(message: &Message) -> Option<RunHead>
    ensures { result ≡ head_of message.now }
{
    match message {
        Message::Run { head, .. } => Some(narrow_head(head)),
        Message::Wide { head, .. } => Some(wide_head(head)),
        Message::Start { .. } | Message::Stop { .. } => None,
    }
}

// The slots of a message.
fn slots_of(message: &Message) -> &[Slot]
    ensures { result.now ≡ slots_of message.now }
{
    match message {
        Message::Run { slots, .. } | Message::Wide { slots, .. } => slots.as_slice(),
        Message::Start { .. } | Message::Stop { .. } => &[],
    }
}

// A message of one end: a RUN is checked, the others are passed over.
fn message_checked(
    checker: &mut Checker,
    alloc: Global,
    by_master: bool,
    message: &Message,
) -> Result<Option<Rule>, Memory>
    requires runs { runs_of checker.old + 3 < 2 ^ 64 }
    requires ok { IsWritable message.now }
    ensures answer { Checks checker.old (message_entry by_master message.now) checker.new result }
    ensures runs { IfOk result (λ broken.
        broken ≡ None → runs_of checker.new ≤ runs_of checker.old + 1) }
    ensures title { IfOk result (λ broken.
        broken ≡ None → title_of checker.new ≡ title_of checker.old) }
{
    match head_of(message) {
        Some(head) => run_checked(checker, alloc, by_master, &head, slots_of(message)),
        None => Ok(None),
    }
}

/// Takes an entry behind those before, or answers the first rule that it breaks. START, STOP and notices are passed over. Takes
/// memory for what its payload reads as; without it the checker is of no more use.
pub fn entry_checked(
    checker: &mut Checker,
    alloc: Global,
    entry: &Entry,
) -> Result<Option<Rule>, Memory>
    requires { runs_of checker.old + 3 < 2 ^ 64 }
    ensures answer { Checks checker.old (entry_shown entry.now) checker.new result }
    ensures runs { IfOk result (λ broken.
        broken ≡ None → runs_of checker.new ≤ runs_of checker.old + 1) }
    ensures title { IfOk result (λ broken.
        broken ≡ None → title_of checker.new ≡ title_of checker.old) }
{
    match read_value(alloc, entry.payload.as_slice()) {
        Ok(Value::Circuit(message)) => message_checked(checker, alloc, entry.by_master, &message),
        Ok(Value::Notice(_)) => Ok(None),
        Err(LayoutFault::Bad(_)) => Ok(Some(Rule::Layout)),
        Err(LayoutFault::Memory) => Err(Memory),
    }
}
