//! Tariffs: for a node that rates each of its services by a rule of the service's own. `docs/PROTOCOL.md`, "Tariffs", has the
//! rules.
#![tactic(auto)]

pub mod laws;
mod rating;
mod rules;
mod steady;
mod tariff;

pub use rules::{TwentyPerFreeLine, WhileFree};
pub use steady::{SteadyHook, SteadyRule};
pub use tariff::{Rule, Tariff, are_apart};
