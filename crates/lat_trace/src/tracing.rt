//! The trace of a schedule.

ghost use Rattle.std.specs.Prelude.{◌≡◌, IfOk, string_bytes};
ghost use Rattle.lat_wire.specs.Rates.{RatesWhatIsLeft};
ghost use Rattle.lat_trace.specs.TraceText.{trace_of};

use crate::course::{Course, Line, course_of};
use crate::print::trace_onto;
use lat_base::Memory;
use lat_node::RatingRule;
use std::alloc::Global;

/// The greatest number of events.
const EVENTS: usize = 100_000;

/// What `lat trace` answers to a text, with the status: where the text is a schedule, all that happens when it is played,
/// in order, and `done` or the line by which `lat replay` refuses an event; the status is that of `lat replay`. A text
/// that is no schedule, and a limit, have the one line of `lat replay` alone. `docs/FORMATS.md`, "Traces", has the lines.
/// `Memory` where none is found. The rule of rating, the node's, has one answer: the least of 255 and the lines that are
/// left.
pub fn trace<H: RatingRule>(alloc: Global, rule: H, text: &[u8]) -> Result<(u8, String), Memory>
    requires fact { H.fact rule }
    requires rates { RatesWhatIsLeft (H.may rule) }
    ensures { IfOk result (λ r. (r.0, string_bytes r.1) ≡ trace_of text.now) }
{
    match course_of(alloc, rule, text, EVENTS)? {
        Course::Told(run) => {
            let mut told = String::new(alloc);
            trace_onto(alloc, &mut told, &run)?;
            Ok((run.status(), told))
        }
        Course::Alone(Line { status, text }) => Ok((status, text)),
    }
}
