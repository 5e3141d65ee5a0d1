//! Captures as texts: the first line says which circuit was captured, and each line behind it is a payload, with the end that
//! sent it. What is captured of a world that was played, and the audit of a capture: whether its RUNs keep the rules, or the
//! first entry that breaks one. `docs/FORMATS.md`, "Captures", has the lines, `docs/MODEL.md`, "Captures", the rules.
#![tactic(auto)]

mod auditor;
mod capture;
mod entry;
mod entry_check;
mod input;
pub mod laws;
mod print;
mod read;
mod run_check;
mod run_seen;
mod tap;

pub use capture::captured;
pub use input::audit;
