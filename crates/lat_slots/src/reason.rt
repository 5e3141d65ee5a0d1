//! Why this program rejects and stops sessions. A peer may give any number from 0 to 15: what is heard stays a number.

ghost use Rattle.std.specs.Prelude.{◌≡◌, ◌≤◌};
ghost use Rattle.lat_slots.specs.Reasons.{reject_bits, stop_bits};

/// Why a session that a peer asks for is rejected.
#[derive(Clone, Copy)]
pub enum RejectReason {
    /// Its service isn't offered here.
    NotOffered,
    /// It answers a request that doesn't wait.
    NotRequested,
    /// No line is free, or it is one session too many.
    NoRoom,
}

impl RejectReason {
    /// The number that stands for it, in the low half of a slot's fourth byte.
    pub fn bits(self) -> u8
        ensures value { result ≡ reject_bits self }
        ensures half { result ≤ 15 }
    {
        match self {
            RejectReason::NotOffered => 4,
            RejectReason::NotRequested => 5,
            RejectReason::NoRoom => 7,
        }
    }
}

/// Why a session is stopped.
#[derive(Clone, Copy)]
pub enum StopReason {
    /// Its user closed it.
    Closed,
}

impl StopReason {
    /// The number that stands for it, in the low half of a slot's fourth byte.
    pub fn bits(self) -> u8
        ensures value { result ≡ stop_bits self }
        ensures half { result ≤ 15 }
    {
        match self {
            StopReason::Closed => 1,
        }
    }
}
