//! Rounds of a world: time at both ends, then every frame that never came, then a take on each line with a session. Where
//! nothing was lost, so many rounds bring all that was put.
#![tactic(auto)]

pub mod laws;
mod phases;
mod settling;
mod text;

pub use lat_replay::{EventFault, RatingRule, World};
pub use settling::{Unsettled, run_rounds, settle};
pub use text::settle_onto;
