//! The one line that is printed where an event is refused. Lines are those of the schedule, counted from 1.

ghost use Rattle.std.specs.Prelude.{◌≡◌, ◌++◌, OnOk, string_bytes};
ghost use Rattle.lat_wire.specs.report.RefusedText.{why_text, refused_text, old_word, status};

use std::alloc::AllocError;

/// Why an event of a schedule isn't made.
#[derive(Clone, Copy)]
pub enum Refused {
    /// Its moment is below the last one.
    Backward {
        at: u64,
        last: u64,
    },
    /// What is injected bears the address of an end.
    OwnAddress,
    /// No frame has this number; so many were sent.
    NoFrame {
        index: u64,
        sent: u64,
    },
    /// The frame's message number, or else its acknowledgement, is too old beside the newest.
    Old {
        acknowledgement: bool,
        number: u64,
        newest: u64,
    },
    /// No more frames may be sent.
    FramesLimit,
    /// There are no more events in a schedule.
    EventsLimit,
}

// Which of the two numbers of a frame is too old.
pub(crate) fn old_word(acknowledgement: bool) -> &'static str
    ensures { result.now ≡ old_word acknowledgement }
{
    if acknowledgement {
        "acknowledgement"
    } else {
        "number"
    }
}

/// Adds why an event isn't made, as it stands behind the number in the line.
/// After want of memory a part of it may stand in the text.
pub fn why_onto(text: &mut String, why: Refused) -> Result<(), AllocError>
    ensures { OnOk result (string_bytes text.new ≡ string_bytes text.old ++ why_text why) }
{
    match why {
        Refused::Backward { at, last } => write!(text, "backward {at} {last}"),
        Refused::OwnAddress => text.push_str("own-address"),
        Refused::NoFrame { index, sent } => write!(text, "noframe {index} {sent}"),
        Refused::Old {
            acknowledgement,
            number,
            newest,
        } => {
            let word = old_word(acknowledgement);
            write!(text, "old {word} {number} {newest}")
        }
        Refused::FramesLimit => text.push_str("limit frames"),
        Refused::EventsLimit => text.push_str("limit events"),
    }
}

/// Adds the line that says why the event of this line is refused.
/// After want of memory a part of it may stand in the text.
pub fn refused_onto(text: &mut String, line: u64, refused: Refused) -> Result<(), AllocError>
    ensures { OnOk result (string_bytes text.new
        ≡ string_bytes text.old ++ refused_text line refused) }
{
    write!(text, "line {line} ")?;
    why_onto(text, refused)?;
    text.push_str("\n")
}

impl Refused {
    /// The status that goes with the line: 6 for a limit, else 3.
    pub fn status(self) -> u8
        ensures { result ≡ status self }
    {
        match self {
            Refused::FramesLimit | Refused::EventsLimit => 6,
            Refused::Backward { .. }
            | Refused::OwnAddress
            | Refused::NoFrame { .. }
            | Refused::Old { .. } => 3,
        }
    }
}
