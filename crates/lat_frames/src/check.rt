//! Testing whether a message can be written.

ghost use Rattle.std.specs.Prelude.{◌≡◌, ◌+◌, ◌-◌, ◌<◌, ◌≤◌, ◌↔◌, ℕ, length, min, IsTrue};
ghost use Rattle.std.specs.List.{AllByRecursion};
ghost use Rattle.lat_base.specs.Names.{IsName};
ghost use Rattle.lat_slots.specs.Layout.{IsWritable as SlotIsWritable};
ghost use Rattle.lat_frames.specs.Conditions.{DestinationFits, TimesFit, InfoFits};
ghost use Rattle.lat_frames.specs.MessageText.{info_text};
ghost use Rattle.lat_frames.specs.Written.{Fits, HasText, IsWritable, message_text, slots_text};

use crate::message::{Message, StartInfo};
use crate::slots::Slots;
use lat_base::{Bytes, PAYLOAD_BYTES};
use lat_fields::{params_len, params_ok};
use lat_slots::{Slot, slot_len, slot_ok};

// Whether each slot has a text, and these have so many bytes in all at most.
fn slots_fit(slots: &[Slot], most: usize) -> bool
    ensures { IsTrue result ↔ (AllByRecursion SlotIsWritable slots.now
        × (length (slots_text slots.now) ≤ most)) }
{
    let mut left = most;
    for slot in slots {
        if !slot_ok(slot) {
            return false;
        }
        let len = slot_len(slot);
        if len > left {
            return false;
        }
        left -= len;
    }
    true
}

// Whether a RUN with a head of so many bytes can be written.
fn run_ok(to: u16, from: u16, slots: &Slots, head: usize) -> bool
    requires { head ≤ 1500 }
    ensures { IsTrue result ↔ (
        (0 < to) × (0 < from) × (length slots.now < 256) × AllByRecursion SlotIsWritable slots.now
        × (length (slots_text slots.now) ≤ 1500 - head)) }
{
    let slots = slots.as_slice();
    to > 0 && from > 0 && slots.len() < 256 && slots_fit(slots, PAYLOAD_BYTES - head)
}

fn destination_ok(master: bool, to: u16) -> bool
    ensures { IsTrue result ↔ DestinationFits master to }
{
    if master { to == 0 } else { to > 0 }
}

fn times_ok(master: bool, timer: u8, keepalive: u8) -> bool
    ensures { IsTrue result ↔ TimesFit master timer keepalive }
{
    if master {
        timer > 0 && timer <= 100 && keepalive > 0
    } else {
        true
    }
}

fn info_ok(master: bool, info: &StartInfo) -> bool
    requires slave { IsName info.now.slave }
    requires name { IsName info.now.name }
    ensures { IsTrue result ↔ InfoFits master info.now }
{
    info.size >= 576
        && info.size <= 1518
        && info.sessions > 0
        && times_ok(master, info.timer, info.keepalive)
        && info.location.as_slice().len() < 256
        && params_ok(&info.params)
}

// How many bytes its text has, up to the greatest `usize`. Both names are names by their type.
fn info_len(info: &StartInfo) -> usize
    ensures len { result ≡ min (length (info_text info.now)) usize.MAX }
    ensures slave { IsName info.now.slave }
    ensures name { IsName info.now.name }
{
    let names = info.slave.bytes().len() + info.name.bytes().len();
    params_len(&info.params)
        .saturating_add(info.location.as_slice().len())
        .saturating_add(names + 15)
}

fn start_ok(master: bool, to: u16, from: u16, info: &StartInfo) -> bool
    ensures { IsTrue result ↔ (
        DestinationFits master to × (0 < from) × InfoFits master info.now
        × (length (info_text info.now) ≤ 1492)) }
{
    let len = info_len(info);
    destination_ok(master, to) && from > 0 && info_ok(master, info) && len <= 1492
}

fn stop_ok(to: u16, text: &Bytes) -> bool
    ensures { IsTrue result ↔ ((0 < to) × (length text.now < 256)) }
{
    to > 0 && text.as_slice().len() < 256
}

fn writable(m: &Message) -> bool
    ensures { IsTrue result ↔ IsWritable m.now }
{
    match m {
        Message::Run { head, slots } => run_ok(head.to, head.from, slots, 8),
        Message::Wide { head, slots } => run_ok(head.to, head.from, slots, 10),
        Message::Start {
            master,
            to,
            from,
            info,
            ..
        } => start_ok(*master, *to, *from, info),
        Message::Stop { to, text, .. } => stop_ok(*to, text),
    }
}

/// Whether the message has a text of at most 1,500 bytes: whether its fields meet the conditions of `docs/FRAMES.md`,
/// part Circuit messages, and its text fits.
pub fn message_ok(m: &Message) -> bool
    ensures text { IsTrue result ↔ HasText m.now }
    ensures writable { IsTrue result ↔ IsWritable m.now }
{
    writable(m)
}
