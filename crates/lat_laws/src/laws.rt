//! The laws, by what they are about.

pub mod avoids;
pub mod habits;
pub mod halts;
pub mod promises;
pub mod readies;
pub mod rounds;
pub mod tales;
