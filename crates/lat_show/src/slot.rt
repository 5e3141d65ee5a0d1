//! Slots in print.

ghost use Rattle.std.specs.Prelude.{◌≡◌, ◌++◌, OnOk, string_bytes};
ghost use Rattle.lat_show.specs.SlotPrinted.{ends_printed, sizes_printed, asked_printed, setting_printed, slot_printed};

use crate::params::params_onto;
use lat_base::{Bytes, Name};
use lat_fields::Params;
use lat_slots::Slot;
use lat_text::{byte_onto, hex_onto, name_onto};
use std::alloc::{AllocError, Global};

// Adds the first word of a slot's line, and the ids that every slot has.
#[tactic(auto, unfolding(crate::specs::SlotPrinted::ends_printed))]
fn ends_onto(text: &mut String, word: &str, to: u8, from: u8) -> Result<(), AllocError>
    ensures { OnOk result (string_bytes text.new
        ≡ string_bytes text.old ++ ends_printed word.now to from) }
{
    write!(text, "{word} to {to} from {from}")
}

#[tactic(auto, unfolding(crate::specs::SlotPrinted::sizes_printed))]
fn sizes_onto(text: &mut String, credits: u8, attention: u8, size: u8) -> Result<(), AllocError>
    ensures { OnOk result (string_bytes text.new
        ≡ string_bytes text.old ++ sizes_printed credits attention size) }
{
    write!(text, " credits {credits} attention {attention} size {size}")
}

#[tactic(auto, unfolding(crate::specs::SlotPrinted::asked_printed))]
fn asked_onto(
    alloc: Global,
    text: &mut String,
    service: &Name,
    subject: &Bytes,
    params: &Params,
) -> Result<(), AllocError>
    ensures { OnOk result (string_bytes text.new
        ≡ string_bytes text.old ++ asked_printed service.now subject.now params.now) }
{
    text.push_str(" service ")?;
    name_onto(text, service)?;
    text.push_str(" subject ")?;
    hex_onto(alloc, text, subject.as_slice())?;
    text.push_str(" params ")?;
    params_onto(alloc, text, params)
}

#[tactic(auto, unfolding(crate::specs::SlotPrinted::setting_printed))]
fn setting_onto(alloc: Global, text: &mut String, flag: u8, chars: &[u8]) -> Result<(), AllocError>
    ensures { OnOk result (string_bytes text.new
        ≡ string_bytes text.old ++ setting_printed flag chars.now) }
{
    text.push_str(" flag ")?;
    byte_onto(text, flag)?;
    text.push_str(" chars ")?;
    hex_onto(alloc, text, chars)
}

/// Adds the line of a slot to a text. `docs/FORMATS.md`, part Printed texts, has the lines.
pub fn slot_onto(alloc: Global, text: &mut String, slot: &Slot) -> Result<(), AllocError>
    ensures { OnOk result (string_bytes text.new ≡ string_bytes text.old ++ slot_printed slot.now) }
{
    match slot {
        Slot::Start {
            to,
            from,
            credits,
            attention,
            size,
            service,
            subject,
            params,
        } => {
            ends_onto(text, "start", *to, *from)?;
            sizes_onto(text, *credits, *attention, *size)?;
            asked_onto(alloc, text, service, subject, params)?;
            text.push_str("\n")
        }
        Slot::DataA {
            to,
            from,
            credits,
            bytes,
        } => {
            ends_onto(text, "data_a", *to, *from)?;
            write!(text, " credits {credits} bytes ")?;
            hex_onto(alloc, text, bytes.as_slice())?;
            text.push_str("\n")
        }
        Slot::DataB {
            to,
            from,
            credits,
            flag,
            chars,
        } => {
            ends_onto(text, "data_b", *to, *from)?;
            write!(text, " credits {credits}")?;
            setting_onto(alloc, text, *flag, chars)?;
            text.push_str("\n")
        }
        Slot::Attention { to, from, flag } => {
            ends_onto(text, "attention", *to, *from)?;
            text.push_str(" flag ")?;
            byte_onto(text, *flag)?;
            text.push_str("\n")
        }
        Slot::Reject { to, from, reason } => {
            ends_onto(text, "reject", *to, *from)?;
            write!(text, " reason {reason}\n")
        }
        Slot::Stop { to, from, reason } => {
            ends_onto(text, "stop", *to, *from)?;
            write!(text, " reason {reason}\n")
        }
    }
}
