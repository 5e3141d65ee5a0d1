//! What is done with the bytes that a caller types.

ghost use Rattle.std.specs.Prelude.{◌≡◌, ◌==◌, position};
ghost use Rattle.lat_local.specs.Meanings.{data_of, escape, meaning_of};

use crate::phase::Phase;

/// The byte that leaves a session for the prompt: control-].
const ESCAPE: u8 = 0x1d;

/// What the first bytes of a piece mean that a caller typed.
#[derive(Clone, Copy, PartialEq, Eq)]
pub enum Meaning {
    /// All of them are typed at the prompt.
    Typed,
    /// None of them is read before the session is live.
    Early,
    /// So many of them go into the session; behind these stands control-], or the piece ends.
    Data(usize),
    /// The first of them is control-]: it leaves the session.
    Escape,
    /// None of them counts any more.
    Late,
}

fn escape_at(bytes: &[u8]) -> Option<usize>
    ensures { result ≡ position (λ b. b == escape) bytes.now }
{
    bytes.iter().position(|byte| *byte == ESCAPE)
}

fn data_of(bytes: &[u8]) -> Meaning
    ensures { result ≡ data_of (position (λ b. b == escape) bytes.now) bytes.now }
{
    match escape_at(bytes) {
        Some(0) => Meaning::Escape,
        Some(at) => Meaning::Data(at),
        None => Meaning::Data(bytes.len()),
    }
}

impl Meaning {
    pub(crate) fn of(phase: Phase, bytes: &[u8]) -> Meaning
        ensures { result ≡ meaning_of phase bytes.now }
    {
        match phase {
            Phase::Prompt(_) => Meaning::Typed,
            Phase::Connecting(_) => Meaning::Early,
            Phase::Session(_) => data_of(bytes),
            Phase::Out => Meaning::Late,
        }
    }
}
