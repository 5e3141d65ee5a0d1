//! A frame in few words.

ghost use Rattle.std.specs.Prelude.{◌≡◌, ◌++◌, IfOk, OnOk, string_bytes};
ghost use Rattle.std.specs.List.{flat_map};
ghost use Rattle.lat_wire.specs.ledger.Posts.{frame_shown};
ghost use Rattle.lat_machines.specs.world.Machines.{Posted};
ghost use Rattle.lat_notices.specs.declared.notice.Notice.TheVariants as notices;
ghost use Rattle.lat_payload.specs.Frames.{expected};
ghost use Rattle.lat_print.specs.AnswerWords.{bad_words};
ghost use Rattle.lat_draw.specs.Events.{frame_short};
ghost use Rattle.lat_draw.specs.Short.{slot_short, run_short, message_short, action_short, notice_short, value_short, payload_short};

use lat_base::{Bad, Memory};
use lat_fields::LayoutFault;
use lat_frames::Message;
use lat_notices::{Action, Command, Notice, Status};
use lat_slots::Slot;
use lat_text::name_onto;
use lat_value::{Value, read_value};
use lat_wire::SentFrame;
use std::alloc::{AllocError, Global};

fn slot_onto(text: &mut String, slot: &Slot) -> Result<(), AllocError>
    ensures { OnOk result (string_bytes text.new ≡ string_bytes text.old ++ slot_short slot.now) }
{
    match slot {
        Slot::Start { service, .. } => {
            text.push_str(" start ")?;
            name_onto(text, service)
        }
        Slot::DataA { bytes, .. } => {
            let count = bytes.as_slice().len();
            write!(text, " data {count}")
        }
        Slot::DataB { .. } => text.push_str(" set"),
        Slot::Attention { .. } => text.push_str(" attention"),
        Slot::Reject { reason, .. } => write!(text, " reject {reason}"),
        Slot::Stop { reason, .. } => write!(text, " stop {reason}"),
    }
}

fn slots_onto(text: &mut String, slots: &[Slot]) -> Result<(), AllocError>
    ensures { OnOk result (string_bytes text.new
        ≡ string_bytes text.old ++ flat_map slot_short slots.now) }
{
    for slot in slots {
        slot_onto(text, slot)?;
    }
    Ok(())
}

fn run_onto(text: &mut String, seq: u16, ack: u16, slots: &[Slot]) -> Result<(), AllocError>
    ensures { OnOk result (string_bytes text.new
        ≡ string_bytes text.old ++ run_short seq ack slots.now) }
{
    if slots.is_empty() {
        return write!(text, "RUN {seq} ack {ack}");
    }
    write!(text, "RUN {seq}")?;
    slots_onto(text, slots)
}

fn message_onto(text: &mut String, message: &Message) -> Result<(), AllocError>
    ensures { OnOk result (string_bytes text.new
        ≡ string_bytes text.old ++ message_short message.now) }
{
    match message {
        Message::Run { head, slots } => {
            run_onto(
                text,
                u16::from(head.seq),
                u16::from(head.ack),
                slots.as_slice(),
            )
        }
        Message::Wide { head, slots } => run_onto(text, head.seq, head.ack, slots.as_slice()),
        Message::Start { master: true, .. } => text.push_str("START"),
        Message::Start { .. } => text.push_str("START reply"),
        Message::Stop { reason, .. } => write!(text, "STOP {reason}"),
    }
}

fn action_word(action: Action) -> &'static str
    ensures { result.now ≡ action_short action }
{
    match action {
        Action::Ask => "ASK ",
        Action::Cancel => "CANCEL ",
    }
}

fn command_onto(text: &mut String, command: &Command) -> Result<(), AllocError>
    ensures { OnOk result (string_bytes text.new
        ≡ string_bytes text.old ++ notice_short (notices.Command command.now)) }
{
    let (action, request) = (action_word(command.action), command.request);
    write!(text, "{action}{request} ")?;
    name_onto(text, &command.service)
}

fn status_onto(text: &mut String, status: &Status) -> Result<(), AllocError>
    ensures { OnOk result (string_bytes text.new
        ≡ string_bytes text.old ++ notice_short (notices.Status status.now)) }
{
    let (request, outcome) = (status.request, status.outcome.number());
    write!(text, "STATUS {request} outcome {outcome}")
}

fn notice_onto(text: &mut String, notice: &Notice) -> Result<(), AllocError>
    ensures { OnOk result (string_bytes text.new
        ≡ string_bytes text.old ++ notice_short notice.now) }
{
    match notice {
        Notice::Announcement(announcement) => {
            text.push_str("ANNOUNCE ")?;
            name_onto(text, &announcement.node)
        }
        Notice::Command(command) => command_onto(text, command),
        Notice::Status(status) => status_onto(text, status),
        Notice::Solicit(solicit) => {
            text.push_str("SOLICIT ")?;
            name_onto(text, &solicit.service)
        }
        Notice::Response(response) => {
            text.push_str("RESPONSE ")?;
            name_onto(text, &response.service)
        }
    }
}

fn value_onto(text: &mut String, value: &Value) -> Result<(), AllocError>
    ensures { OnOk result (string_bytes text.new
        ≡ string_bytes text.old ++ value_short value.now) }
{
    match value {
        Value::Circuit(message) => message_onto(text, message),
        Value::Notice(notice) => notice_onto(text, notice),
    }
}

fn bad_onto(text: &mut String, bad: Bad) -> Result<(), AllocError>
    ensures { OnOk result (string_bytes text.new ≡ string_bytes text.old ++ bad_words bad) }
{
    let (field, at) = (bad.field.word(), bad.at);
    write!(text, "bad {field} {at}")
}

// Adds a payload in few words: `RUN 2 data 5`. Takes memory for what is read.
#[tactic(auto, unfolding(crate::specs::Short::payload_short))]
fn payload_onto(alloc: Global, text: &mut String, payload: &[u8]) -> Result<(), Memory>
    ensures { OnOk result (string_bytes text.new
        ≡ string_bytes text.old ++ payload_short payload.now) }
{
    match read_value(alloc, payload) {
        Ok(value) => Ok(value_onto(text, &value)?),
        Err(LayoutFault::Bad(bad)) => Ok(bad_onto(text, bad)?),
        Err(LayoutFault::Memory) => Err(Memory),
    }
}

/// A frame in few words.
pub(crate) fn frame_words(alloc: Global, frame: &SentFrame<'_>) -> Result<String, Memory>
    ensures { (p : Posted) → frame_shown frame.now ≡ expected p.frame →
        IfOk result (λ words. string_bytes words ≡ frame_short p) }
{
    let mut words = String::new(alloc);
    payload_onto(alloc, &mut words, frame.payload)?;
    Ok(words)
}
