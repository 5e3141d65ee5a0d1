//! The head of a slot.

ghost use Rattle.std.specs.Prelude.{◌≡◌};
ghost use Rattle.lat_slots.specs.Reading.{count_fits, destination_fits, source_fits};

use crate::kind::SlotKind;

/// The service class of every start.
pub const SERVICE_CLASS: u8 = 1;

/// The first four bytes of a slot: its type, the low half of the byte that has it, the ids at the end that hears it and
/// at the one that sends it, and how many bytes its body has.
#[derive(Clone, Copy)]
pub struct SlotHead {
    pub kind: SlotKind,
    pub low: u8,
    pub to: u8,
    pub from: u8,
    pub count: u8,
}

/// Whether a slot of this type may name this id at the end that hears it.
pub fn destination_fits(kind: SlotKind, to: u8) -> bool
    ensures { result ≡ destination_fits kind to }
{
    matches!(kind, SlotKind::Start) || to > 0
}

/// Whether a slot of this type may name this id at the end that sends it.
pub fn source_fits(kind: SlotKind, from: u8) -> bool
    ensures { result ≡ source_fits kind from }
{
    matches!(kind, SlotKind::Reject | SlotKind::Stop) || from > 0
}

/// Whether the body of a slot of this type may have so many bytes.
pub fn count_fits(kind: SlotKind, count: u8) -> bool
    ensures { result ≡ count_fits kind count }
{
    match kind {
        SlotKind::DataA | SlotKind::Start => true,
        SlotKind::DataB => count == 5,
        SlotKind::Attention => count == 1,
        SlotKind::Reject | SlotKind::Stop => count == 0,
    }
}
