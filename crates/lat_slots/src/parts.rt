//! Writing the parts of a slot: its head, what a start has before its parameters, and the pad.

ghost use Rattle.std.specs.Prelude.{◌≡◌, ◌+◌, ◌*◌, ◌%◌, ◌<◌, ◌≤◌, [], ◌∷◌, ◌++◌, length, replicate};
ghost use Rattle.lat_fields.specs.Texts.{counted};
ghost use Rattle.lat_slots.specs.Kinds.{bits_of};

use crate::head::SERVICE_CLASS;
use crate::kind::SlotKind;
use lat_base::{Name, Payload};
use lat_fields::write_counted;

/// Writes the head of a slot. What stands beside its type has four bits.
pub fn write_slot_head(out: &mut Payload, to: u8, from: u8, count: u8, kind: SlotKind, low: u8)
    requires low { low < 16 }
    requires room { length out.old + 4 ≤ 1500 }
    ensures { out.new ≡ out.old ++ to ∷ from ∷ count ∷ (bits_of kind * 16 + low) ∷ [] }
{
    out.push(to);
    out.push(from);
    out.push(count);
    out.push(kind.bits() * 16 + low);
}

/// Writes the body of a start up to its parameters.
pub fn write_start_fields(
    out: &mut Payload,
    attention: u8,
    size: u8,
    service: &Name,
    subject: &[u8],
)
    requires short { length subject.now < 256 }
    requires room { length out.old + 5 + length service.now + length subject.now ≤ 1500 }
    ensures { out.new ≡ out.old ++ 1 ∷ attention ∷ size ∷ counted service.now ++ counted subject.now }
{
    out.push(SERVICE_CLASS);
    out.push(attention);
    out.push(size);
    write_counted(out, service.bytes());
    write_counted(out, subject);
}

/// Writes the byte behind a body of odd length.
pub fn write_slot_pad(out: &mut Payload, count: u8)
    requires { length out.old + count % 2 ≤ 1500 }
    ensures { out.new ≡ out.old ++ replicate (count % 2) 0 }
{
    if count % 2 == 1 {
        out.push(0);
    }
}
