//! One session of a circuit, as one end keeps it: its state, its credits and its items.
#![tactic(auto)]

mod calls;
mod forming;
mod hearing;
mod held;
mod opening;
mod request;
mod ring;
mod stream;
mod write;

pub use calls::SessionFault;
pub use forming::Formed;
pub use hearing::BadSlot;
pub use opening::Opening;
pub use request::request_of;
pub use stream::{HEARD_ITEMS, HELD_SLOTS, Stream, UNFRAMED_ITEMS};
