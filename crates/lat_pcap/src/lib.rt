//! Files in the classic pcap form: a header, and a record for each Ethernet frame that was captured. Frames of the type
//! 60-04 are written to one and read from one; others are counted. `docs/FORMATS.md`, "Pcap files", has the form.
#![tactic(auto)]

mod contents;
mod fault;
mod frame;
mod head;
pub mod laws;
mod number;
mod reading;
mod record;
mod writing;

pub use contents::{Contents, Frames};
pub use fault::{Part, Wrong};
pub use frame::Frame;
pub use head::{Head, Order, Precision};
pub use reading::read;
pub use writing::{MOMENTS, file_header, frame_record};
