//! The messages of a circuit: read, tested and written as whole payloads; and the timing of an end, which STARTs state.
#![tactic(auto)]

mod check;
mod kind;
pub mod laws;
mod message;
mod read;
mod read_head;
mod read_run;
mod read_start;
mod reason;
mod slots;
mod timing;
mod write;

pub use check::message_ok;
pub use kind::MessageKind;
pub use lat_fields::LayoutFault as FrameFault;
pub use message::{Head, Limits, Message, StartInfo, WideHead};
pub use read::read_message;
pub use reason::CircuitEnd;
pub use slots::Slots;
pub use timing::Timing;
pub use write::{
    write_message, write_numbers, write_plain_head, write_run_head, write_slots, write_stop,
    write_wide_head,
};
