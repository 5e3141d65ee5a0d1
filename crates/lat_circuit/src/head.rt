//! The heads of RUNs, narrow and wide.

ghost use Rattle.std.specs.Prelude.{◌≡◌, suc, ◌*◌, ◌<◌, [], length};
ghost use Rattle.lat_seq.specs.Spans.{half, field};
ghost use Rattle.lat_circuit.specs.Payloads.{head_bytes, head_size};

use crate::ids::Ids;
use lat_base::Payload;
use lat_frames::{Head, WideHead, write_run_head, write_wide_head};
use lat_seq::Span;

/// The field of the number that comes behind that of this field.
pub(crate) fn behind(span: Span, number: u16) -> u16
    requires { number < 2 * half span }
    ensures { result ≡ field span (suc number) }
{
    match span {
        Span::Byte => u16::from((number as u8).wrapping_add(1)),
        Span::Word => number.wrapping_add(1),
    }
}

/// Writes the head of a RUN without slots, whose numbers have these fields, into an empty payload.
pub(crate) fn write_head(ids: Ids, span: Span, ask: bool, seq: u16, ack: u16, payload: &mut Payload)
    requires fields { (seq < 2 * half span) × (ack < 2 * half span) }
    requires empty { payload.old ≡ [] }
    ensures text { payload.new ≡ head_bytes ids span ask 0 seq ack }
    ensures size { length payload.new ≡ head_size span }
{
    let Ids { master, to, from } = ids;
    match span {
        Span::Byte => {
            let (seq, ack) = (seq as u8, ack as u8);
            let head = Head {
                master,
                ask,
                to,
                from,
                seq,
                ack,
            };
            write_run_head(&head, 0, payload);
        }
        Span::Word => {
            let head = WideHead {
                master,
                ask,
                to,
                from,
                seq,
                ack,
            };
            write_wide_head(&head, 0, payload);
        }
    }
}
