//! The picture of a schedule.

ghost use Rattle.std.specs.Prelude.{◌≡◌, IfOk, string_bytes};
ghost use Rattle.lat_wire.specs.Rates.{RatesWhatIsLeft};
ghost use Rattle.lat_draw.specs.DrawText.{draw_of};

use crate::picture::picture_onto;
use lat_base::Memory;
use lat_node::RatingRule;
use lat_trace::{Course, Line, course_of};
use std::alloc::Global;

/// The greatest number of events.
const EVENTS: usize = 2_000;

/// What `lat draw` answers to a text, with the status: where the text is a schedule, the picture of all that happens when
/// it is played, up to its end or to the first event that is refused; the status is that of `lat replay`. A text that is
/// no schedule, and a limit, have the one line of `lat replay` alone; one of the limits is that of 2,000 events.
/// `docs/FORMATS.md`, "Pictures", says what is drawn. `Memory` where none is found. The rule of rating, the node's, has
/// one answer: the least of 255 and the lines that are left.
pub fn draw<H: RatingRule>(alloc: Global, rule: H, text: &[u8]) -> Result<(u8, String), Memory>
    requires fact { H.fact rule }
    requires rates { RatesWhatIsLeft (H.may rule) }
    ensures { IfOk result (λ r. (r.0, string_bytes r.1) ≡ draw_of text.now) }
{
    match course_of(alloc, rule, text, EVENTS)? {
        Course::Told(run) => {
            let mut drawn = String::new(alloc);
            picture_onto(alloc, &mut drawn, &run)?;
            Ok((run.status(), drawn))
        }
        Course::Alone(Line { status, text }) => Ok((status, text)),
    }
}
