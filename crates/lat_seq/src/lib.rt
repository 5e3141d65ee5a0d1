//! The numbers of the messages of one direction of a circuit, as docs/PROTOCOL.md says under "Messages and numbers": fields of
//! one or two bytes in the values, unbounded numbers in the contracts.
#![tactic(auto)]

mod receiving;
mod sending;
mod span;

pub use receiving::RecvSide;
pub use sending::{AckFact, SendSide};
pub use span::Span;
