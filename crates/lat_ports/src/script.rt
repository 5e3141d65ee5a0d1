//! The blocks of a script, in order.

use crate::callers::play_callers;
use crate::carriers::{play_frames, play_sends};
use crate::editor::play_editor;
use crate::line_ends::{play_line, play_opened};
use crate::names::NameReading;
use crate::ports::play_ports;
use crate::readers::play_reader;
use crate::site::{first_of, play_lines};
use crate::telnet::TelnetClient;
use lat_base::Memory;
use lat_script::{Part, ScriptFault, line_behind, no_command, refused_onto, word};
use std::alloc::Global;

// A block over the outside.
fn play_outside(alloc: Global, block: Part, text: &mut String) -> Result<(), ScriptFault> {
    match word(first_of(block), 0) {
        "callers" => play_callers(alloc, block, text),
        "ports" => play_ports(alloc, block, text),
        "sends" => play_sends(alloc, block, text),
        "frames" => play_frames(alloc, block, text),
        "lines" => play_opened(alloc, block, text),
        "line" => play_line(alloc, block, text),
        "reader" => play_reader(alloc, block, text),
        _ => Err(no_command(0)),
    }
}

// What a block does, printed.
fn play(alloc: Global, block: Part, text: &mut String) -> Result<(), ScriptFault> {
    match word(first_of(block), 0) {
        "names" => Ok(play_lines(alloc, &mut NameReading, block, text)?),
        "telnet" => Ok(play_lines(alloc, &mut TelnetClient::new(), block, text)?),
        "editor" => play_editor(alloc, block, text),
        _ => play_outside(alloc, block, text),
    }
}

/// What a script does, printed.
pub fn played(alloc: Global, script: &str) -> Result<String, Memory> {
    let mut text = String::new(alloc);
    let mut first = 1;
    for block in script.split("---\n") {
        let done = play(alloc, Part { first, text: block }, &mut text);
        refused_onto(&mut text, first, done)?;
        text.push_str("\n")?;
        first = line_behind(first, block, "---\n");
    }
    Ok(text)
}
