//! The rerun of a record: a fresh core is told its events, each answer is compared, and what came of it is printed. See
//! "Records" in docs/FORMATS.md.
#![tactic(auto)]

mod compare;
pub mod laws;
mod roles;
mod rows;
mod told;

pub use roles::rerun;
