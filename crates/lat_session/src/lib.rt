//! The sessions of one end of a circuit: their table, their ids, and the slots of a message.
#![tactic(auto)]

mod ask;
mod call;
mod calls;
mod getters;
mod hearing;
mod named;
mod packing;
mod places;
mod table;

pub use ask::Ask;
pub use call::SessionCall;
pub use getters::Asked;
pub use lat_stream::{BadSlot, SessionFault};
pub use table::Sessions;
