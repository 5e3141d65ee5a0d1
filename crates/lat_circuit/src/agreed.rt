//! What both ends of a circuit agree on.

ghost use Rattle.std.specs.Prelude.{◌≡◌, ◌+◌, ◌≤◌, cond, map, min, [], ◌∷◌};
ghost use Rattle.lat_model.specs.sessions.Sessions.{Sessions as States};
ghost use Rattle.lat_machines.specs.values.Timing.{agreed_by, is_wide};
ghost use Rattle.lat_session.specs.Stands.{Stands as SessionsStand};
ghost use Rattle.lat_session.specs.Table.{SameEnd};
ghost use Rattle.lat_circuit.specs.Frames.{timing_shown};
ghost use Rattle.lat_circuit.specs.Messages.{info_shown, param_shown};
ghost use Rattle.lat_circuit.specs.Agrees.{agreed_shown, Works, span_of};

use crate::start::{FRAME_SIZE, SPAN, WIDE};
use lat_fields::Param;
use lat_frames::{StartInfo, Timing};
use lat_seq::Span;
use lat_session::Sessions;

/// What a START tells of its end, and both ends then agree on. See "What both ends agree on" in docs/PROTOCOL.md.
#[derive(Clone, Copy)]
pub(crate) struct Agreed {
    /// How many sessions the peer holds.
    pub(crate) sessions: u8,
    /// The room for slots in a message, in bytes.
    pub(crate) room: u16,
    /// How many messages may be unacknowledged, 1 to 8.
    pub(crate) window: u8,
    /// In 10 ms.
    pub(crate) timer: u8,
    /// In seconds.
    pub(crate) keepalive: u8,
    /// Whether message numbers have two bytes.
    pub(crate) wide: bool,
}

/// What an end of this timing agrees on with the peer whose START this is.
pub(crate) fn agreed_by(timing: &Timing, info: &StartInfo) -> Agreed
    requires { (576 ≤ info.now.size) × (1 ≤ info.now.sessions) }
    ensures value { agreed_shown result
        ≡ agreed_by (timing_shown timing.now) (info_shown info.now) }
    ensures works { Works result }
{
    let wide = timing.wide && is_wide(info.params.as_slice());
    Agreed {
        sessions: info.sessions,
        room: FRAME_SIZE.min(info.size) - head_size(wide),
        window: window(info.extra),
        timer: info.timer,
        keepalive: info.keepalive,
        wide,
    }
}

// How many bytes the head of a RUN has.
fn head_size(wide: bool) -> u16
    ensures { result ≡ cond wide 10 8 }
{
    if wide { 10 } else { 8 }
}

// The window, where the peer has so many buffers beyond the first.
fn window(extra: u8) -> u8
    ensures value { result ≡ min 8 (1 + extra) }
    ensures bounds { (1 ≤ result) × (result ≤ 8) }
{
    if extra < 8 { 1 + extra } else { 8 }
}

// Whether the first parameter of the span is the byte 2.
fn is_wide(params: &[Param]) -> bool
    ensures { result ≡ is_wide (map param_shown params.now) }
{
    for param in params {
        if param.code == SPAN {
            return is_two(param.bytes.as_slice());
        }
    }
    false
}

fn is_two(bytes: &[u8]) -> bool
    ensures { result ≡ is_wide (record { code = 200; bytes = bytes.now } ∷ []) }
{
    bytes.len() == 1 && bytes[0] == WIDE
}

/// The span of the numbers of a circuit.
pub(crate) fn span_of(wide: bool) -> Span
    ensures { result ≡ span_of wide }
{
    if wide { Span::Word } else { Span::Byte }
}

/// Both ends agree on the least of both numbers of sessions.
pub(crate) fn agree_sessions(sessions: &mut Sessions, stated: u8)
    requires { 1 ≤ stated }
    ensures state { (e : States) → SessionsStand sessions.old e →
        SessionsStand sessions.new (record e { agreed = min stated e.agreed }) }
    ensures same { SameEnd sessions.old sessions.new }
{
    let agreed = stated.min(sessions.agreed());
    sessions.agree(agreed);
}
