//! The wire between a server core and a node core: both, every frame that either ever sent, what became of it, and the text of
//! the report on both.
#![tactic(auto)]

mod ends;
mod fault;
pub mod laws;
mod ledger;
mod notes;
mod report;
mod step;
mod tell;
mod wire;

pub use fault::EventFault;
pub use lat_node::{NodeConfig, NodeCore, RateHook, RatingRule};
pub use lat_server::{ServerConfig, ServerCore};
pub use ledger::{Heading, SentFrame, heading_of};
pub use notes::Note;
pub use report::{
    Flow, Noted, Refusal, Refused, SessionRow, done_onto, frames_onto, grant_onto, noted_onto,
    refused_onto, request_onto, session_onto, why_onto,
};
pub use wire::Wire;
