//! What is printed of a file in the classic pcap form: of each frame of the type 60-04 when it was captured, its two
//! stations and what its payload says; how many other frames there are; and the first part of the file that is wrong.
//! `docs/FORMATS.md`, "Pcap files", has the lines.
#![tactic(auto)]

mod frame;
mod indent;
mod print;

pub use print::dump;
