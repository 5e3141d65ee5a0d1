//! All that the program `lat` does, over any source and any sink.
#![tactic(auto)]

mod answer;
mod before;
mod capture;
mod command;
mod course;
mod end;
mod explain;
mod generate;
mod growth;
mod help;
pub mod laws;
mod outcome;
mod replay;
mod settle;
mod texts;
mod top;

pub use end::RunEnd;
pub use lat_replay::{RateHook, RatingRule, World};
pub use top::{INPUT_BYTES, run};
