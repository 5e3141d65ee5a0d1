//! Answers in words.

use lat_base::Memory;
use lat_text::hex_onto;
use std::alloc::{AllocError, Global};

/// Adds a word and bytes.
pub fn bytes_onto(
    alloc: Global,
    text: &mut String,
    word: &str,
    bytes: &[u8],
) -> Result<(), Memory> {
    write!(text, "{word} ")?;
    hex_onto(alloc, text, bytes)?;
    Ok(text.push_str("\n")?)
}

/// Adds whether a call was done.
pub fn done_onto(text: &mut String, done: bool) -> Result<(), AllocError> {
    text.push_str(if done { "done\n" } else { "failed\n" })
}

/// Adds how many bytes a write took.
pub fn took_onto(text: &mut String, took: Option<usize>) -> Result<(), AllocError> {
    match took {
        Some(count) => write!(text, "took {count}\n"),
        None => text.push_str("failed\n"),
    }
}
