//! Writing a slot.

ghost use Rattle.std.specs.Prelude.{◌≡◌, ◌+◌, ◌<◌, ◌≤◌, ◌++◌, ◌*◌, ◌↔◌, List, ℕ, length, min, IsTrue};
ghost use Rattle.std.specs.List.{AllByRecursion};
ghost use Rattle.lat_base.specs.Names.{IsName};
ghost use Rattle.lat_fields.specs.Params.{IsEntry, params_text};
ghost use Rattle.lat_slots.specs.Layout.{Fits, SlotText, IsWritable, body_of, from_of, low_of, slot_text, to_of, type_of};

use crate::kind::SlotKind;
use crate::parts::{write_slot_head, write_slot_pad, write_start_fields};
use crate::slot::Slot;
use lat_base::{Name, Payload};
use lat_fields::{Params, params_len, params_ok, write_params};

fn kind(slot: &Slot) -> SlotKind
    ensures { result ≡ type_of slot.now }
{
    match slot {
        Slot::Start { .. } => SlotKind::Start,
        Slot::DataA { .. } => SlotKind::DataA,
        Slot::DataB { .. } => SlotKind::DataB,
        Slot::Attention { .. } => SlotKind::Attention,
        Slot::Reject { .. } => SlotKind::Reject,
        Slot::Stop { .. } => SlotKind::Stop,
    }
}

// What stands beside the type: its credits or its reason.
fn low(slot: &Slot) -> u8
    ensures { result ≡ low_of slot.now }
{
    match slot {
        Slot::Start { credits, .. } | Slot::DataA { credits, .. } | Slot::DataB { credits, .. } =>
            *credits,
        Slot::Attention { .. } => 0,
        Slot::Reject { reason, .. } | Slot::Stop { reason, .. } => *reason,
    }
}

// The id at the end that hears it.
fn destination(slot: &Slot) -> u8
    ensures { result ≡ to_of slot.now }
{
    match slot {
        Slot::Start { to, .. }
        | Slot::DataA { to, .. }
        | Slot::DataB { to, .. }
        | Slot::Attention { to, .. }
        | Slot::Reject { to, .. }
        | Slot::Stop { to, .. } => *to,
    }
}

// The id at the end that sends it.
fn source(slot: &Slot) -> u8
    ensures { result ≡ from_of slot.now }
{
    match slot {
        Slot::Start { from, .. }
        | Slot::DataA { from, .. }
        | Slot::DataB { from, .. }
        | Slot::Attention { from, .. }
        | Slot::Reject { from, .. }
        | Slot::Stop { from, .. } => *from,
    }
}

fn ids_ok(to: u8, from: u8) -> bool
    ensures { IsTrue result ↔ ((0 < to) × (0 < from)) }
{
    to > 0 && from > 0
}

// How many bytes the body of a start has, up to the greatest `usize`. Its service is a name by its type.
fn start_len(service: &Name, subject: &[u8], params: &Params) -> usize
    ensures len { result ≡ min (5 + length service.now + length subject.now + length (params_text params.now)) usize.MAX }
    ensures service { IsName service.now }
{
    // three bytes and two length bytes stand beside the texts
    let texts = 5 + service.bytes().len() + subject.len();
    params_len(params).saturating_add(texts)
}

// Whether the fields of a start meet their conditions, and its body has at most 255 bytes.
fn start_ok(from: u8, size: u8, service: &Name, subject: &[u8], params: &Params) -> bool
    ensures { IsTrue result ↔ (
        (0 < from) × (0 < size) × IsName service.now × (length subject.now < 256)
        × AllByRecursion IsEntry params.now
        × (5 + length service.now + length subject.now + length (params_text params.now) < 256)) }
{
    let len = start_len(service, subject, params);
    from > 0 && size > 0 && subject.len() < 256 && params_ok(params) && len < 256
}

// Whether its fields meet their conditions, and its body has at most 255 bytes.
fn fits(slot: &Slot) -> bool
    ensures { IsTrue result ↔ (Fits slot.now × (length (body_of slot.now) < 256)) }
{
    match slot {
        Slot::Start {
            from,
            size,
            service,
            subject,
            params,
            ..
        } => start_ok(*from, *size, service, subject.as_slice(), params),
        Slot::DataA {
            to,
            from,
            bytes,
            ..
        } => ids_ok(*to, *from) && bytes.as_slice().len() < 256,
        Slot::DataB {
            to,
            from,
            chars,
            ..
        } => ids_ok(*to, *from) && chars.as_slice().len() == 4,
        Slot::Attention { to, from, .. } => ids_ok(*to, *from),
        Slot::Reject { to, .. } | Slot::Stop { to, .. } => *to > 0,
    }
}

// How many bytes the body has, up to the greatest `usize`.
fn body_len(slot: &Slot) -> usize
    ensures { result ≡ min (length (body_of slot.now)) usize.MAX }
{
    match slot {
        Slot::Start {
            service,
            subject,
            params,
            ..
        } => start_len(service, subject.as_slice(), params),
        Slot::DataA { bytes, .. } => bytes.as_slice().len(),
        Slot::DataB { chars, .. } => 1 + chars.as_slice().len(),
        Slot::Attention { .. } => 1,
        Slot::Reject { .. } | Slot::Stop { .. } => 0,
    }
}

fn writable(slot: &Slot) -> bool
    ensures { IsTrue result ↔ IsWritable slot.now }
{
    fits(slot) && low(slot) < 16
}

/// Whether the slot has a text: whether its fields meet the conditions of `docs/FRAMES.md`, part Slots, its credits or
/// reason are at most 15, and its body has at most 255 bytes.
pub fn slot_ok(slot: &Slot) -> bool
    ensures text { IsTrue result ↔ ((b : List ℕ) × SlotText slot.now b) }
    ensures writable { IsTrue result ↔ IsWritable slot.now }
{
    writable(slot)
}

/// How many bytes its text has, with the pad. The slot must be one that `slot_ok` accepts.
pub fn slot_len(slot: &Slot) -> usize
    requires { IsWritable slot.now }
    ensures { result ≡ length (slot_text slot.now) }
{
    let len = body_len(slot);
    4 + len + len % 2
}

fn write_body(slot: &Slot, out: &mut Payload)
    requires ok { IsWritable slot.now }
    requires room { length out.old + length (body_of slot.now) ≤ 1500 }
    ensures { out.new ≡ out.old ++ body_of slot.now }
{
    match slot {
        Slot::Start {
            attention,
            size,
            service,
            subject,
            params,
            ..
        } => {
            write_start_fields(out, *attention, *size, service, subject.as_slice());
            write_params(out, params);
        }
        Slot::DataA { bytes, .. } => out.append(bytes.as_slice()),
        Slot::DataB { flag, chars, .. } => {
            out.push(*flag);
            out.append(chars);
        }
        Slot::Attention { flag, .. } => out.push(*flag),
        Slot::Reject { .. } | Slot::Stop { .. } => {}
    }
}

/// Adds the slot's text at the end: 0 stands where nothing is kept. The slot must be one that `slot_ok` accepts, and
/// the text must fit into the 1,500 bytes of the payload. Takes no memory.
pub fn write_slot(slot: &Slot, out: &mut Payload)
    requires ok { IsWritable slot.now }
    requires room { length out.old + length (slot_text slot.now) ≤ 1500 }
    ensures { out.new ≡ out.old ++ slot_text slot.now }
{
    let count = body_len(slot) as u8;
    let (to, from) = (destination(slot), source(slot));
    write_slot_head(out, to, from, count, kind(slot), low(slot));
    write_body(slot, out);
    write_slot_pad(out, count);
}
