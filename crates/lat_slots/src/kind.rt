//! The types of slots.

ghost use Rattle.std.specs.Prelude.{◌≡◌, ◌<◌};
ghost use Rattle.lat_slots.specs.Kinds.{bits_of, kind_of};

/// The type of a slot.
#[derive(Clone, Copy)]
pub enum SlotKind {
    /// Bytes of the session, or credits alone.
    DataA,
    /// Asks for a session, or replies to one that asked.
    Start,
    /// A setting of the line.
    DataB,
    /// Calls for attention.
    Attention,
    /// Refuses a session that was asked for.
    Reject,
    /// Ends a session.
    Stop,
}

impl SlotKind {
    /// The type that a number stands for, if it stands for one.
    pub fn from_bits(bits: u8) -> Option<SlotKind>
        ensures { result ≡ kind_of bits }
    {
        match bits {
            0 => Some(SlotKind::DataA),
            9 => Some(SlotKind::Start),
            10 => Some(SlotKind::DataB),
            11 => Some(SlotKind::Attention),
            12 => Some(SlotKind::Reject),
            13 => Some(SlotKind::Stop),
            _ => None,
        }
    }

    /// The number that stands for it, in the high half of a slot's fourth byte.
    pub fn bits(self) -> u8
        ensures value { result ≡ bits_of self }
        ensures half { result < 16 }
    {
        match self {
            SlotKind::DataA => 0,
            SlotKind::Start => 9,
            SlotKind::DataB => 10,
            SlotKind::Attention => 11,
            SlotKind::Reject => 12,
            SlotKind::Stop => 13,
        }
    }
}
