//! The circuits that a payload names.

ghost use Rattle.std.specs.Prelude.{◌≡◌, ◌+◌, ◌*◌, ◌<◌, length, slice_index};
ghost use Rattle.lat_machines.specs.values.Frames.{Value, Whole};
ghost use Rattle.lat_payload.specs.Reads.{reading_of};
ghost use Rattle.lat_wire.specs.ledger.Headings.{heading_in, heading_of};

use lat_frames::MessageKind;

/// The circuits that a RUN names: the one at the end that hears it, and the one at the end that sent it.
#[derive(Clone, Copy)]
pub struct Heading {
    pub to: u16,
    pub from: u16,
}

// A number of two bytes, low byte first.
fn number_at(payload: &[u8], place: usize) -> u16
    requires { place + 1 < length payload.now }
    ensures { result ≡ slice_index payload.now place + slice_index payload.now (place + 1) * 256 }
{
    u16::from_le_bytes([payload[place], payload[place + 1]])
}

/// The circuits that the payload of a RUN names; `None` of any other payload that has a reading. See "Circuit messages" in
/// docs/FRAMES.md.
pub fn heading_of(payload: &[u8]) -> Option<Heading>
    ensures bytes { result ≡ heading_in payload.now }
    ensures value { (v : Value) → reading_of payload.now ≡ Whole v → result ≡ heading_of v }
{
    if payload.len() < 6 {
        return None;
    }
    match MessageKind::from_bits(payload[0] / 4) {
        Some(MessageKind::Run | MessageKind::WideRun) => Some(Heading {
            to: number_at(payload, 2),
            from: number_at(payload, 4),
        }),
        Some(MessageKind::Start | MessageKind::Stop) | None => None,
    }
}
