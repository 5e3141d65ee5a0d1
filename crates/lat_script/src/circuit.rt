//! The timing of a circuit, as a line of a script states it.

ghost use Rattle.std.specs.Prelude.{◌≡◌, IfOk};
ghost use Rattle.lat_frames.specs.Timings.{IsTiming};
ghost use Rattle.lat_script.specs.Timings.{wide_at, timing_at};

use crate::fault::{Pair, ScriptFault};
use crate::words::{byte, byte_within, choice, word};
use lat_frames::Timing;

// Whether the numbers have two bytes: by this word, where there is one.
fn is_wide(line: &str, place: u8) -> Result<bool, ScriptFault>
    ensures { result ≡ wide_at place line.now }
{
    if word(line, place) == "" {
        return Ok(false);
    }
    choice(Pair::Spans, line, place)
}

/// The timing that a line states behind its first word: TIMER KEEPALIVE SESSIONS EXTRA CEILING, and perhaps `word`, or `byte`, which
/// is the same as nothing.
pub fn timing(line: &str) -> Result<Timing, ScriptFault>
    ensures value { result ≡ timing_at line.now }
    ensures timing { IfOk result IsTiming }
{
    Ok(Timing {
        timer: byte_within(1, 100, line, 1)?,
        keepalive: byte_within(1, 255, line, 2)?,
        sessions: byte_within(1, 64, line, 3)?,
        extra: byte(line, 4)?,
        ceiling: byte_within(1, 15, line, 5)?,
        wide: is_wide(line, 6)?,
    })
}
