//! The texts that every command prints in the same form, and the lines that a command reads, with the words, numbers,
//! names and digits in them.
#![tactic(auto)]

mod address;
mod bytes;
mod digits;
mod fault;
mod flag;
mod form;
mod lines;
mod name;
mod name_read;
mod numbers;
mod words;

pub use address::address_onto;
pub use bytes::{address_of, byte_of, bytes_of, mask_of, payload_of};
pub use digits::{byte_onto, hex_onto};
pub use fault::LineFault;
pub use flag::flag_text;
pub use form::wrong_line;
pub use lines::first_line;
pub use name::name_onto;
pub use name_read::name_of;
pub use numbers::{moment_of, number_within};
pub use words::{behind_word, first_word};
