//! What all layouts are made of: bytes, numbers of two bytes, counted texts, counted names and parameters, read from
//! left to right with the first bad field, and written; the rule on the bytes behind a message, and the version of the
//! protocol.
#![tactic(auto)]

mod fault;
mod params;
mod params_read;
mod params_write;
mod read;
mod version;
mod write;

pub use fault::LayoutFault;
pub use params::{Param, Params};
pub use params_read::params_of;
pub use params_write::{params_len, params_ok, write_param, write_params};
pub use read::{byte_of, copy_of, counted_of, ends_right, known, name_of, number_of, wanted};
pub use version::VERSION;
pub use write::{LEAST_PAYLOAD, write_counted, write_number, write_padding};
