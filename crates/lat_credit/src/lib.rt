//! The credits of a session, as docs/PROTOCOL.md says under "Items and credits": small counters in the value, totals that are never
//! forgotten in the contracts.
#![tactic(auto)]

mod credits;

pub use credits::{Credits, NoCredit, TooMany};
