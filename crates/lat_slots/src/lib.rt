//! The slots that circuit messages carry: read, tested and written.
#![tactic(auto)]

mod head;
mod kind;
pub mod laws;
mod parts;
mod read;
mod reason;
mod slot;
mod write;

pub use kind::SlotKind;
pub use lat_fields::{LayoutFault as SlotFault, Param, Params};
pub use parts::{write_slot_head, write_slot_pad, write_start_fields};
pub use read::read_slot;
pub use reason::{RejectReason, StopReason};
pub use slot::Slot;
pub use write::{slot_len, slot_ok, write_slot};
