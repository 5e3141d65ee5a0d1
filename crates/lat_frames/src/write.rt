//! Writing a circuit message as a payload.

ghost use Rattle.std.specs.Prelude.{◌≡◌, ◌+◌, ◌<◌, ◌≤◌, [], ◌∷◌, ◌++◌, length};
ghost use Rattle.std.specs.List.{AllByRecursion};
ghost use Rattle.lat_fields.specs.Params.{IsEntry};
ghost use Rattle.lat_fields.specs.Payloads.{padded};
ghost use Rattle.lat_slots.specs.Layout.{IsWritable as SlotIsWritable};
ghost use Rattle.lat_frames.specs.declared.message.Message.TheVariants.{Stop};
ghost use Rattle.lat_frames.specs.Heads.{bit, first_byte, head_text, run_head, wide_head};
ghost use Rattle.lat_frames.specs.MessageText.{info_text, numbers_text};
ghost use Rattle.lat_frames.specs.Written.{IsWritable, message_text, slots_text};

use crate::kind::MessageKind;
use crate::message::{Head, Limits, Message, StartInfo, WideHead};
use lat_base::Payload;
use lat_fields::{VERSION, write_counted, write_number, write_padding, write_params};
use lat_slots::{Slot, write_slot};

fn bit(set: bool) -> u8
    ensures value { result ≡ bit set }
    ensures small { result ≤ 1 }
{
    if set { 1 } else { 0 }
}

fn first_byte(kind: MessageKind, master: bool, ask: bool) -> u8
    ensures { result ≡ first_byte kind master ask }
{
    kind.bits() * 4 + bit(master) * 2 + bit(ask)
}

// The head up to its message numbers.
fn write_circuits(
    kind: MessageKind,
    master: bool,
    ask: bool,
    slots: u8,
    to: u16,
    from: u16,
    out: &mut Payload,
)
    requires { length out.old + 6 ≤ 1500 }
    ensures { out.new ≡ out.old ++ head_text kind master ask slots to from [] }
{
    out.push(first_byte(kind, master, ask));
    out.push(slots);
    write_number(out, to);
    write_number(out, from);
}

/// Adds the head of a RUN with so many slots, eight bytes, at the end. They must fit into the payload.
pub fn write_run_head(head: &Head, slots: u8, out: &mut Payload)
    requires { length out.old + 8 ≤ 1500 }
    ensures { out.new ≡ out.old ++ run_head head.now slots }
{
    write_circuits(
        MessageKind::Run,
        head.master,
        head.ask,
        slots,
        head.to,
        head.from,
        out,
    );
    out.push(head.seq);
    out.push(head.ack);
}

/// Adds the head of a wide RUN with so many slots, ten bytes, at the end. They must fit into the payload.
pub fn write_wide_head(head: &WideHead, slots: u8, out: &mut Payload)
    requires { length out.old + 10 ≤ 1500 }
    ensures { out.new ≡ out.old ++ wide_head head.now slots }
{
    write_circuits(
        MessageKind::WideRun,
        head.master,
        head.ask,
        slots,
        head.to,
        head.from,
        out,
    );
    write_number(out, head.seq);
    write_number(out, head.ack);
}

/// Adds the head of a START or a STOP, eight bytes, at the end. Its number of slots and its message numbers are 0. They must
/// fit into the payload.
pub fn write_plain_head(
    kind: MessageKind,
    master: bool,
    ask: bool,
    to: u16,
    from: u16,
    out: &mut Payload,
)
    requires { length out.old + 8 ≤ 1500 }
    ensures { out.new ≡ out.old ++ head_text kind master ask 0 to from (0 ∷ 0 ∷ []) }
{
    write_circuits(kind, master, ask, 0, to, from, out);
    out.push(0);
    out.push(0);
}

/// Adds the texts of the slots, one behind the other, at the end. Each must be one that `slot_ok` accepts, and all of them must
/// fit into the payload.
pub fn write_slots(slots: &[Slot], out: &mut Payload)
    requires ok { AllByRecursion SlotIsWritable slots.now }
    requires room { length out.old + length (slots_text slots.now) ≤ 1500 }
    ensures { out.new ≡ out.old ++ slots_text slots.now }
{
    for slot in slots {
        write_slot(slot, out);
    }
}

/// Adds what a START tells of its sender in numbers, with the version of the protocol, twelve bytes, at the end. They must
/// fit into the payload.
pub fn write_numbers(
    limits: Limits,
    facility: u16,
    product: u8,
    product_version: u8,
    out: &mut Payload,
)
    requires { length out.old + 12 ≤ 1500 }
    ensures { out.new ≡ out.old ++ numbers_text limits facility product product_version }
{
    write_number(out, limits.size);
    out.append(&[
        VERSION,
        limits.eco,
        limits.sessions,
        limits.extra,
        limits.timer,
        limits.keepalive,
    ]);
    write_number(out, facility);
    out.push(product);
    out.push(product_version);
}

fn write_info(info: &StartInfo, out: &mut Payload)
    requires location { length info.now.location < 256 }
    requires params { AllByRecursion IsEntry info.now.params }
    requires room { length out.old + length (info_text info.now) ≤ 1500 }
    ensures { out.new ≡ out.old ++ info_text info.now }
{
    let limits = Limits {
        size: info.size,
        eco: info.eco,
        sessions: info.sessions,
        extra: info.extra,
        timer: info.timer,
        keepalive: info.keepalive,
    };
    write_numbers(
        limits,
        info.facility,
        info.product,
        info.product_version,
        out,
    );
    write_counted(out, info.slave.bytes());
    write_counted(out, info.name.bytes());
    write_counted(out, info.location.as_slice());
    write_params(out, &info.params);
}

/// Writes a STOP, whose text has at most 255 bytes, into an empty payload. `write_padding` puts the zeros behind it.
pub fn write_stop(
    master: bool,
    ask: bool,
    to: u16,
    from: u16,
    reason: u8,
    text: &[u8],
    out: &mut Payload,
)
    requires short { length text.now < 256 }
    requires empty { out.old ≡ [] }
    ensures { out.new ≡ message_text (Stop master ask to from reason text.now) }
{
    write_plain_head(MessageKind::Stop, master, ask, to, from, out);
    out.push(reason);
    write_counted(out, text);
}

fn write_text(m: &Message, out: &mut Payload)
    requires ok { IsWritable m.now }
    requires empty { out.old ≡ [] }
    ensures { out.new ≡ message_text m.now }
{
    match m {
        Message::Run { head, slots } => {
            let slots = slots.as_slice();
            write_run_head(head, slots.len() as u8, out);
            write_slots(slots, out);
        }
        Message::Wide { head, slots } => {
            let slots = slots.as_slice();
            write_wide_head(head, slots.len() as u8, out);
            write_slots(slots, out);
        }
        Message::Start {
            master,
            ask,
            to,
            from,
            info,
        } => {
            write_plain_head(MessageKind::Start, *master, *ask, *to, *from, out);
            write_info(info, out);
        }
        Message::Stop {
            master,
            ask,
            to,
            from,
            reason,
            text,
        } => write_stop(*master, *ask, *to, *from, *reason, text.as_slice(), out),
    }
}

/// Writes the message into an empty payload: its text, in which 0 stands where nothing is kept, with zeros up to 46
/// bytes. The message must be one that `message_ok` accepts. Takes no memory.
pub fn write_message(m: &Message, out: &mut Payload)
    requires ok { IsWritable m.now }
    requires empty { out.old ≡ [] }
    ensures { out.new ≡ padded (message_text m.now) }
{
    write_text(m, out);
    write_padding(out);
}
