//! A core that is told events, and what it sends to no circuit.

use lat_base::{Addr, Bytes, Core, Event, Memory, OutBox, OutFrame};
use lat_script::{Part, ScriptFault, bytes, no_command, refused_onto, word};
use lat_text::{address_onto, hex_onto};
use std::alloc::Global;
use std::marker::Model;

/// The station that everything comes from.
const PEER: Addr = Addr([0xaa, 0x00, 0x04, 0x00, 0x01, 0x04]);

/// A core that may be called at any time.
#[derive(Drop)]
pub struct Play<C: Core> {
    core: C,
}

impl<C: Core> Model for Play<C> {
    ghost Value = { C };

    ghost view = { λ a. a.core };

    ghost invariant = { λ a. C.valid a.core };
}

// Prints a frame that belongs to no circuit.
fn print(alloc: Global, frame: &OutFrame, text: &mut String) -> Result<(), Memory> {
    if frame.circuit != 0 {
        return Ok(());
    }
    address_onto(text, frame.to)?;
    text.push_str(" ")?;
    hex_onto(alloc, text, frame.payload.bytes())?;
    Ok(text.push_str("\n")?)
}

impl<C: Core> Play<C> {
    /// A node that has done nothing.
    pub fn new(core: C) -> Play<C>
        requires { C.valid core }
    {
        Play { core }
    }

    // One event, and what goes out.
    fn tell(&mut self, alloc: Global, event: &Event, text: &mut String) -> Result<(), Memory> {
        let mut out = OutBox::make(alloc)?;
        self.core.step(alloc, event, &mut out)?;
        for frame in out.frames() {
            print(alloc, frame, text)?;
        }
        Ok(())
    }

    // What one line does.
    fn act(&mut self, alloc: Global, line: &str, text: &mut String) -> Result<(), ScriptFault> {
        match word(line, 0) {
            "announce" => Ok(self.tell(alloc, &Event::Announce, text)?),
            "hear" => {
                let heard = Event::Heard {
                    from: PEER,
                    payload: Bytes::copy(alloc, &bytes(alloc, line, 1)?)?,
                    now: 0,
                };
                Ok(self.tell(alloc, &heard, text)?)
            }
            _ => Err(no_command(0)),
        }
    }

    /// What each of the lines does, but the first.
    pub fn act_all(&mut self, alloc: Global, lines: Part, text: &mut String) -> Result<(), Memory> {
        for (at, line) in lines.text.lines().enumerate() {
            write!(text, "> {line}\n")?;
            if at > 0 {
                let done = self.act(alloc, line, text);
                refused_onto(text, lines.first.saturating_add(at as u64), done)?;
            }
        }
        Ok(())
    }
}
