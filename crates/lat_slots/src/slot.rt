//! Slots.

use lat_base::{Bytes, Name};
use lat_fields::Params;

/// A slot of a circuit message: what one end of a session tells the other. `to` is the id of the session at the end
/// that hears it, `from` the id at the end that sends it. `docs/FRAMES.md` has the layouts.
#[derive(Drop)]
pub enum Slot {
    /// Asks for a session, where `to` is 0, or replies to one that asked.
    Start {
        to: u8,
        from: u8,
        /// The credits that it gives, 0 to 15.
        credits: u8,
        /// The greatest attention that its sender takes, in bytes.
        attention: u8,
        /// The greatest data slot that its sender takes, 1 to 255 bytes.
        size: u8,
        service: Name,
        subject: Bytes,
        params: Params,
    },
    /// Bytes of the session, at most 255. One without a byte gives credits alone.
    DataA {
        to: u8,
        from: u8,
        /// The credits that it gives, 0 to 15.
        credits: u8,
        bytes: Bytes,
    },
    /// A setting of the line: a flag byte and four characters.
    DataB {
        to: u8,
        from: u8,
        /// The credits that it gives, 0 to 15.
        credits: u8,
        flag: u8,
        chars: [u8; 4],
    },
    /// Calls for attention; it costs no credit.
    Attention {
        to: u8,
        from: u8,
        flag: u8,
    },
    /// Refuses a session that was asked for.
    Reject {
        to: u8,
        from: u8,
        /// 0 to 15.
        reason: u8,
    },
    /// Ends a session.
    Stop {
        to: u8,
        from: u8,
        /// 0 to 15.
        reason: u8,
    },
}
