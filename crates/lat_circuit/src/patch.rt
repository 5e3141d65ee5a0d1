//! Writing a few bytes of a written RUN anew.

ghost use Rattle.std.specs.Prelude.{◌≡◌, ◌*◌, ◌<◌, ◌≤◌, length, slice_set};
ghost use Rattle.lat_seq.specs.Spans.{half};
ghost use Rattle.lat_circuit.specs.Payloads.{acknowledged};

use lat_base::Payload;
use lat_seq::Span;

/// Writes the number of slots of a RUN.
pub(crate) fn set_slots(payload: &mut Payload, slots: u8)
    requires { 2 ≤ length payload.old }
    ensures { payload.new ≡ slice_set payload.old 1 slots }
{
    payload.set(1, slots);
}

/// Writes the acknowledgement of a RUN, a field below twice the half range.
pub(crate) fn set_acknowledgement(payload: &mut Payload, span: Span, ack: u16)
    requires room { 10 ≤ length payload.old }
    requires field { ack < 2 * half span }
    ensures { payload.new ≡ acknowledged span payload.old ack }
{
    match span {
        Span::Byte => payload.set(7, ack as u8),
        Span::Word => {
            let [low, high] = ack.to_le_bytes();
            payload.set(8, low);
            payload.set(9, high);
        }
    }
}
