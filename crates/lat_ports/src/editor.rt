//! Blocks over the editor of the lines that are typed.

use crate::print::bytes_onto;
use crate::site::{Site, first_of, play_lines};
use lat_base::Memory;
use lat_script::{Part, ScriptFault, bytes, filling, no_command, short, word};
use lat_terminal::{Editor, Stop};
use std::alloc::Global;

/// An editor, the prompt before its lines, and all that was shown.
#[derive(Drop)]
struct Typed {
    editor: Editor,
    prompt: Vec<u8>,
    shown: Vec<u8>,
}

fn stop_word(stop: Stop) -> &'static str {
    match stop {
        Stop::All => "all",
        Stop::Line => "line",
        Stop::Room => "room",
    }
}

impl Typed {
    fn feed(&mut self, alloc: Global, keys: &[u8], text: &mut String) -> Result<(), Memory> {
        let before = self.shown.len();
        let fed = self
            .editor
            .feed(self.prompt.as_slice(), keys, &mut self.shown);
        let (used, stop) = (fed.used, stop_word(fed.stop));
        write!(text, "used {used} {stop}\n")?;
        let (_, shown) = self.shown.as_slice().split_at(before.min(self.shown.len()));
        bytes_onto(alloc, text, "shown", shown)?;
        bytes_onto(alloc, text, "line", self.editor.line())
    }
}

impl Site for Typed {
    fn act(&mut self, alloc: Global, line: &str, text: &mut String) -> Result<(), ScriptFault> {
        let keys = match word(line, 0) {
            "type" => bytes(alloc, line, 1)?,
            "keys" => filling(alloc, line, 1)?,
            _ => return Err(no_command(0)),
        };
        Ok(self.feed(alloc, keys.as_slice(), text)?)
    }
}

/// Plays a block over an editor.
pub fn play_editor(alloc: Global, block: Part, text: &mut String) -> Result<(), ScriptFault> {
    let first = first_of(block);
    let room = usize::from(short(first, 1)?);
    let mut site = Typed {
        editor: Editor::make(),
        prompt: bytes(alloc, first, 2)?,
        shown: Vec::with_capacity(alloc, room)?,
    };
    Ok(play_lines(alloc, &mut site, block, text)?)
}
