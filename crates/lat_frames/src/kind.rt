//! The types of circuit messages.

ghost use Rattle.std.specs.Prelude.{◌≡◌, ◌<◌};
ghost use Rattle.lat_frames.specs.Kinds.{bits_of, kind_of};

/// The type of a circuit message.
#[derive(Clone, Copy)]
pub enum MessageKind {
    /// Carries slots.
    Run,
    /// Calls a circuit, or replies to the call.
    Start,
    /// Ends a circuit, or refuses it.
    Stop,
    /// Carries slots on a circuit with wide numbers.
    WideRun,
}

impl MessageKind {
    /// The type that a number stands for, if it stands for one.
    pub fn from_bits(bits: u8) -> Option<MessageKind>
        ensures { result ≡ kind_of bits }
    {
        match bits {
            0 => Some(MessageKind::Run),
            1 => Some(MessageKind::Start),
            2 => Some(MessageKind::Stop),
            4 => Some(MessageKind::WideRun),
            _ => None,
        }
    }

    /// The number that stands for it, in the six high bits of the first byte.
    pub fn bits(self) -> u8
        ensures value { result ≡ bits_of self }
        ensures six { result < 64 }
    {
        match self {
            MessageKind::Run => 0,
            MessageKind::Start => 1,
            MessageKind::Stop => 2,
            MessageKind::WideRun => 4,
        }
    }
}
