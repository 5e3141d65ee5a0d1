//! Explanations: why an input, an event or words are refused; what was expected, and what was found.
#![tactic(auto)]

mod awaited;
mod before;
mod file;
mod form;
mod found;
pub mod laws;
mod line;
mod refused;
mod walk;
mod wanted;
mod words;

pub use awaited::Input;
pub use file::file_explained;
pub use line::line_explained;
pub use refused::{number_told, refused_explained};
pub use words::words_explained;
