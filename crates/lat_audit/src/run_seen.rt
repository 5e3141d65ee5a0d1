//! The RUN that a frame is.

ghost use Rattle.std.specs.Prelude.{◌≡◌};
ghost use Rattle.hex.specs.Hex.{IsBytes};
ghost use Rattle.lat_machines.specs.values.Frames.{Value, Whole};
ghost use Rattle.lat_payload.specs.Frames.{payload_of};
ghost use Rattle.lat_payload.specs.Reads.{reading_of};
ghost use Rattle.lat_audit.specs.Runs.{is_wide, run_seen};

use lat_frames::MessageKind;
use lat_wire::heading_of;

/// What a RUN says of its circuit.
#[derive(Clone, Copy)]
pub(crate) struct RunSeen {
    /// Whether its message numbers have two bytes.
    pub(crate) wide: bool,
    /// The circuit's id at the end that hears it, and at the end that sends it.
    pub(crate) to: u16,
    pub(crate) from: u16,
}

// Whether a payload of the type of a RUN is wide.
fn is_wide(payload: &[u8]) -> bool
    ensures { result ≡ is_wide payload.now }
{
    match payload {
        [first, ..] => *first / 4 == MessageKind::WideRun.bits(),
        [] => false,
    }
}

/// What the RUN says whose payload this is; `None` of any other payload that a program sends. A payload is bytes.
pub(crate) fn run_of(payload: &[u8]) -> Option<RunSeen>
    ensures value { (v : Value) → payload.now ≡ payload_of v → reading_of payload.now ≡ Whole v →
        result ≡ run_seen v }
    ensures bytes { IsBytes payload.now }
{
    let wide = is_wide(payload);
    let heading = heading_of(payload)?;
    Some(RunSeen {
        wide,
        to: heading.to,
        from: heading.from,
    })
}
