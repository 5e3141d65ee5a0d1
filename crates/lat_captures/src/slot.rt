//! What the rules look at in a slot.

/// What is to be known of a slot of a RUN.
#[derive(Clone, Copy)]
pub struct SlotFacts {
    /// The id of its session at the end that hears it, and at the end that sends it.
    pub to: u8,
    pub from: u8,
    /// The credits that it gives.
    pub credits: u8,
    /// The credits that it costs: 1 for data and settings, else 0.
    pub cost: u8,
    /// Whether it is a start that asks for a session.
    pub asks: bool,
    /// Whether it is a start that replies.
    pub replies: bool,
}

/// A slot of a message that was sent, with the session that it belongs to.
#[derive(Clone, Copy)]
pub struct OwnedSlot {
    /// The place of its session's reply among all slots of the slave, from 1 on; 0 is none.
    pub session: u128,
    pub slot: SlotFacts,
}
