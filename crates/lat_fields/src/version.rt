//! The version of the protocol.

/// The version of the protocol, which each START and each notice has.
pub const VERSION: u8 = 5;
