//! Blocks over the halves of a carrier.

use crate::failing::failing;
use crate::print::{bytes_onto, done_onto};
use crate::site::{Site, first_of, play_lines};
use lat_base::{EVERYONE, Memory, Payload};
use lat_outside::{Failed, Got, HeardFrame, MemRx, MemTx, Rx, Tx};
use lat_script::{Part, ScriptFault, bytes, no_command, word};
use lat_text::address_onto;
use std::alloc::Global;

/// The sending half.
#[derive(Drop)]
struct Sending<'a> {
    tx: MemTx<'a>,
}

impl Site for Sending<'_> {
    fn act(&mut self, alloc: Global, line: &str, text: &mut String) -> Result<(), ScriptFault> {
        if word(line, 0) != "send" {
            return Err(no_command(0));
        }
        let payload = bytes(alloc, line, 1)?;
        let done = self.tx.send(EVERYONE, payload.as_slice());
        Ok(done_onto(text, done.is_ok())?)
    }
}

// All frames that were tried.
fn tried_onto(alloc: Global, text: &mut String, tx: &MemTx<'_>) -> Result<(), Memory> {
    let Some(frames) = tx.frames() else {
        return Err(Memory);
    };
    for frame in frames {
        bytes_onto(alloc, text, "tried", frame.payload.as_slice())?;
    }
    Ok(())
}

/// Plays a block over a sending half.
pub fn play_sends(alloc: Global, block: Part, text: &mut String) -> Result<(), ScriptFault> {
    let failing = failing(alloc, first_of(block), 1)?;
    let mut site = Sending {
        tx: MemTx::new(alloc, failing.as_slice()),
    };
    play_lines(alloc, &mut site, block, text)?;
    Ok(tried_onto(alloc, text, &site.tx)?)
}

/// The receiving half.
#[derive(Drop)]
struct Receiving<'a> {
    rx: MemRx<'a>,
}

fn recv_onto(alloc: Global, rx: &mut MemRx<'_>, text: &mut String) -> Result<(), Memory> {
    let mut buf = [0; 1500];
    match rx.recv(&mut buf) {
        Ok(Got::Frame { from, len }) => {
            address_onto(text, from)?;
            bytes_onto(alloc, text, "", &buf[..usize::from(len)])
        }
        Ok(Got::Quiet) => Ok(text.push_str("quiet\n")?),
        Err(Failed) => Ok(text.push_str("failed\n")?),
    }
}

impl Site for Receiving<'_> {
    fn act(&mut self, alloc: Global, line: &str, text: &mut String) -> Result<(), ScriptFault> {
        match word(line, 0) {
            "frame" => {
                bytes(alloc, line, 1)?;
                Ok(())
            }
            "recv" => Ok(recv_onto(alloc, &mut self.rx, text)?),
            _ => Err(no_command(0)),
        }
    }
}

// The frame of a line, with its first 1,500 bytes.
fn frame_of(alloc: Global, line: &str) -> Result<HeardFrame, ScriptFault> {
    let bytes = bytes(alloc, line, 1)?;
    let (front, _) = bytes.as_slice().split_at(bytes.len().min(1500));
    let mut payload = Payload::empty();
    payload.append(front);
    Ok(HeardFrame {
        from: EVERYONE,
        payload,
    })
}

// The frames of a block. A line that is refused has none.
fn frames_of(alloc: Global, block: Part) -> Result<Vec<HeardFrame>, Memory> {
    let mut frames = Vec::new(alloc);
    for line in block.text.lines() {
        if word(line, 0) == "frame" {
            match frame_of(alloc, line) {
                Ok(frame) => frames.push(frame)?,
                Err(ScriptFault::Memory) => return Err(Memory),
                Err(_) => {}
            }
        }
    }
    Ok(frames)
}

/// Plays a block over a receiving half.
pub fn play_frames(alloc: Global, block: Part, text: &mut String) -> Result<(), ScriptFault> {
    let failing = failing(alloc, first_of(block), 1)?;
    let frames = frames_of(alloc, block)?;
    let mut site = Receiving {
        rx: MemRx::new(frames.as_slice(), failing.as_slice()),
    };
    Ok(play_lines(alloc, &mut site, block, text)?)
}
