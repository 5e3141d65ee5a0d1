//! Reading payloads.

ghost use Rattle.std.specs.Prelude.{IfOk};
ghost use Rattle.lat_fields.specs.Reading.{Gives};
ghost use Rattle.lat_frames.specs.Reading.{message_read};
ghost use Rattle.lat_notices.specs.Reading.{notice_read};
ghost use Rattle.lat_value.specs.declared.value.Value.TheVariants as values;
ghost use Rattle.lat_value.specs.Reading.{read_as, value_read};
ghost use Rattle.lat_value.specs.Texts.{IsPayloadOf, IsWritable};

use crate::value::Value;
use lat_base::{Bad, Field};
use lat_fields::LayoutFault;
use lat_frames::{MessageKind, read_message};
use lat_notices::{NoticeKind, read_notice};
use std::alloc::Global;

fn circuit_of(alloc: Global, payload: &[u8]) -> Result<Value, LayoutFault>
    ensures reading { Gives (λ v. v) result (read_as values.Circuit (message_read payload.now)) }
    ensures found { IfOk result (λ v. IsPayloadOf v payload.now) }
    ensures ok { IfOk result IsWritable }
{
    Ok(Value::Circuit(read_message(alloc, payload)?))
}

fn notice_of(alloc: Global, payload: &[u8]) -> Result<Value, LayoutFault>
    ensures reading { Gives (λ v. v) result (read_as values.Notice (notice_read payload.now)) }
    ensures found { IfOk result (λ v. IsPayloadOf v payload.now) }
    ensures ok { IfOk result IsWritable }
{
    Ok(Value::Notice(read_notice(alloc, payload)?))
}

/// Reads a payload, of any length, as the circuit message or the notice that it is. The type in its first byte says which
/// reader it is for, as `docs/FORMATS.md` has it under "Types". Refused with the first bad field; a payload of no known
/// type, also an empty one, by its `Kind` at 0. Takes memory for the lists that the value keeps.
#[tactic(auto, unfolding(crate::specs::Reading::value_read))]
pub fn read_value(alloc: Global, payload: &[u8]) -> Result<Value, LayoutFault>
    // The value that the payload is, or the first bad field; only memory may be wanting in place of it.
    ensures reading { Gives (λ v. v) result (value_read payload.now) }
    // The payload is a text of what is read.
    ensures found { IfOk result (λ v. IsPayloadOf v payload.now) }
    // What is read meets the conditions of its fields, and its text fits in a payload.
    ensures ok { IfOk result IsWritable }
{
    match payload {
        [first, ..] if MessageKind::from_bits(*first / 4).is_some() => circuit_of(alloc, payload),
        [first, ..] if NoticeKind::from_bits(*first / 4).is_some() => notice_of(alloc, payload),
        _ => Err(LayoutFault::Bad(Bad {
            field: Field::Kind,
            at: 0,
        })),
    }
}
