//! The blocks of a script, in order.

ghost use Rattle.std.specs.Prelude.{◌≡◌};

use crate::play::{Play, Side};
use crate::post::Post;
use crate::setup::Setup;
use crate::station::Station;
use lat_base::Memory;
use lat_node::{FreeLines, NodeCore};
use lat_script::{Part, ScriptFault, is_command, line_behind, refused_onto, word};
use lat_server::ServerCore;
use std::alloc::Global;

impl<S: Station, N: Station> Play<S, N> {
    // What one line does.
    fn act(&mut self, alloc: Global, line: &str, text: &mut String) -> Result<(), ScriptFault> {
        match word(line, 0) {
            "s" => self.event(alloc, Side::Server, line, text),
            "n" => self.event(alloc, Side::Node, line, text),
            "deliver" => self.deliver(alloc, line, text),
            "inject" => self.inject(alloc, line, text),
            "announcers" => self.announcers(alloc, line, text),
            "askers" => self.askers(alloc, line, text),
            "draw" => self.draw(alloc, line, text),
            "pump" => self.pump(alloc, line, text),
            _ => self.tell(line, text),
        }
    }

    fn act_all(&mut self, alloc: Global, lines: Part, text: &mut String) -> Result<(), Memory> {
        for (at, line) in lines.text.lines().enumerate() {
            if is_command(line, text)? {
                let done = self.act(alloc, line, text);
                refused_onto(text, lines.first.saturating_add(at as u64), done)?;
            }
        }
        Ok(())
    }
}

// Plays the lines behind `go`.
fn play_cores<S: Station, N: Station>(
    alloc: Global,
    setup: &Setup,
    server: S,
    node: N,
    lines: Part,
    text: &mut String,
) -> Result<(), Memory>
    requires server { S.valid server × (S.count server ≡ setup.now.server.lines) }
    requires node { N.valid node × (N.count node ≡ setup.now.node.lines) }
{
    let mut play = Play {
        server: Post::new(server, setup.server.own, setup.server.lines),
        node: Post::new(node, setup.node.own, setup.node.lines),
        frames: Vec::new(alloc),
        latest: 0,
    };
    play.act_all(alloc, lines, text)
}

// Makes both cores; the node rates by the lines that are left.
fn play(alloc: Global, setup: &Setup, lines: Part, text: &mut String) -> Result<(), Memory> {
    let server = ServerCore::make(alloc, &setup.server)?;
    let node = NodeCore::make(alloc, &setup.node, FreeLines)?;
    play_cores(alloc, setup, server, node, lines, text)
}

// What the lines before `go` say.
fn setup_of(alloc: Global, lines: Part, text: &mut String) -> Result<Setup, Memory> {
    let mut setup = Setup::usual(alloc)?;
    for (at, line) in lines.text.lines().enumerate() {
        if is_command(line, text)? {
            let done = setup.told(alloc, line);
            refused_onto(text, lines.first.saturating_add(at as u64), done)?;
        }
    }
    Ok(setup)
}

fn block_onto(alloc: Global, block: Part, text: &mut String) -> Result<(), Memory> {
    let first = block.first;
    match block.text.split_once("\ngo\n") {
        Some((head, lines)) => {
            let setup = setup_of(alloc, Part { first, text: head }, text)?;
            text.push_str("> go\n")?;
            let lines = Part {
                first: line_behind(first, head, "\ngo\n"),
                text: lines,
            };
            play(alloc, &setup, lines, text)
        }
        None => Ok(text.push_str("no go\n")?),
    }
}

/// What is printed of a script.
pub fn played(alloc: Global, script: &str) -> Result<String, Memory> {
    let mut text = String::new(alloc);
    let mut first = 1;
    for (place, block) in script.split("\n\n").enumerate() {
        if place > 0 {
            text.push_str("\n")?;
        }
        block_onto(alloc, Part { first, text: block }, &mut text)?;
        first = line_behind(first, block, "\n\n");
    }
    Ok(text)
}
