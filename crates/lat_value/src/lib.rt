//! What a payload is read as: a circuit message, a notice, or the first bad field. `docs/FORMATS.md` has the types of
//! payloads.
#![tactic(auto)]

mod read;
mod value;

pub use read::read_value;
pub use value::Value;
