//! The blocks of a script, in order.

use crate::{cell, daemon, switch, tariff};
use lat_base::Memory;
use lat_script::{Part, ScriptFault, line_behind, refused_onto};
use std::alloc::Global;

// A block without a title: one that begins with `cell` is a cell's, one that begins with `latd` has the words of daemons, one that
// begins with `help` is of their help, and any other is a node's with a tariff.
fn play_block(alloc: Global, block: Part, text: &mut String) -> Result<(), ScriptFault> {
    if block.text.starts_with("cell ") {
        cell::play_block(alloc, block, text)
    } else if block.text.starts_with("latd") {
        Ok(daemon::play_block(alloc, block.text, text)?)
    } else if block.text.starts_with("help\n") {
        Ok(daemon::help_block(alloc, block.text, text)?)
    } else {
        tariff::play_block(alloc, block, text)
    }
}

// A block with a title is a schedule over a switch; behind any other an empty line is printed.
fn block_onto(alloc: Global, block: Part, text: &mut String) -> Result<(), Memory> {
    if block.text.starts_with("#") {
        return switch::block_onto(alloc, block.text, text);
    }
    let done = play_block(alloc, block, text);
    refused_onto(text, block.first, done)?;
    Ok(text.push_str("\n")?)
}

/// What a script does, printed.
pub fn played(alloc: Global, script: &str) -> Result<String, Memory> {
    let mut text = String::new(alloc);
    let mut first = 1;
    for block in script.split("---\n") {
        block_onto(alloc, Part { first, text: block }, &mut text)?;
        first = line_behind(first, block, "---\n");
    }
    Ok(text)
}
