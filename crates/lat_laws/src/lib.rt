//! What holds of every run of the two machines, and of every history of one of them: definitions and laws. Nothing here runs:
//! the definitions stand in `specs/`, and each law of [`laws`] is a function that takes nothing and whose contract is the
//! statement.
#![tactic(auto)]

pub mod laws;
