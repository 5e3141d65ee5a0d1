//! Payloads in print.

ghost use Rattle.std.specs.Prelude.{◌≡◌, ◌++◌, OnOk, string_bytes};
ghost use Rattle.lat_show.specs.BadPrinted.{bad_printed};
ghost use Rattle.lat_show.specs.PayloadPrinted.{value_printed, payload_printed};

use crate::message::message_onto;
use crate::notice::notice_onto;
use lat_base::{Bad, Memory};
use lat_fields::LayoutFault;
use lat_value::{Value, read_value};
use std::alloc::{AllocError, Global};

fn bad_onto(text: &mut String, bad: Bad) -> Result<(), AllocError>
    ensures { OnOk result (string_bytes text.new ≡ string_bytes text.old ++ bad_printed bad) }
{
    let (field, place) = (bad.field.word(), bad.at);
    write!(text, "bad {field} {place}\n")
}

fn value_onto(alloc: Global, text: &mut String, value: &Value) -> Result<(), AllocError>
    ensures { OnOk result (string_bytes text.new ≡ string_bytes text.old ++ value_printed value.now) }
{
    match value {
        Value::Circuit(message) => message_onto(alloc, text, message),
        Value::Notice(notice) => notice_onto(alloc, text, notice),
    }
}

/// Adds what is printed of a payload, of any length, to a text: the lines of the message or the notice that it is, or
/// the line that names its first bad field, as `read_value` of `lat_value` reads it. Takes memory for what is read.
#[tactic(auto, unfolding(crate::specs::PayloadPrinted::payload_printed))]
pub fn payload_onto(alloc: Global, text: &mut String, payload: &[u8]) -> Result<(), Memory>
    ensures { OnOk result (string_bytes text.new
        ≡ string_bytes text.old ++ payload_printed payload.now) }
{
    match read_value(alloc, payload) {
        Ok(value) => Ok(value_onto(alloc, text, &value)?),
        Err(LayoutFault::Bad(bad)) => Ok(bad_onto(text, bad)?),
        Err(LayoutFault::Memory) => Err(Memory),
    }
}
