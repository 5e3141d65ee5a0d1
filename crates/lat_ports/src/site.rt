//! What the lines of a block are done at.

use lat_base::Memory;
use lat_script::{Part, ScriptFault, refused_onto};
use std::alloc::Global;

/// What the lines of a block are done at.
pub trait Site: Drop {
    /// Does a line, and prints what it is answered.
    fn act(&mut self, alloc: Global, line: &str, text: &mut String) -> Result<(), ScriptFault>;
}

/// Does each line of a block but the first, and prints it with its answer.
pub fn play_lines<D: Site>(
    alloc: Global,
    site: &mut D,
    block: Part,
    text: &mut String,
) -> Result<(), Memory> {
    for (at, line) in block.text.lines().enumerate() {
        write!(text, "> {line}\n")?;
        if at > 0 {
            let done = site.act(alloc, line, text);
            refused_onto(text, block.first.saturating_add(at as u64), done)?;
        }
    }
    Ok(())
}

/// The first line of a block.
pub fn first_of(block: Part<'_>) -> &str {
    block.text.lines().next().unwrap_or("")
}
