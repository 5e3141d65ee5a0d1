//! Both cores, and the frames that they have made.

use crate::event::event_of;
use crate::post::Post;
use crate::print::frame_onto;
use crate::station::Station;
use lat_base::{Addr, Event, Memory, OutBox, Payload};
use lat_script::{Pair, ScriptFault, answer_onto, choice};
use std::alloc::Global;

/// The one core or the other.
#[derive(Clone, Copy)]
pub enum Side {
    Server,
    Node,
}

/// The core that this word means.
pub fn side_at(line: &str, place: u8) -> Result<Side, ScriptFault> {
    if choice(Pair::Cores, line, place)? {
        Ok(Side::Server)
    } else {
        Ok(Side::Node)
    }
}

/// A frame that was made.
#[derive(Drop)]
pub struct Frame {
    pub by: Side,
    pub to: Addr,
    pub payload: Payload,
}

/// A server and a node.
#[derive(Drop)]
pub struct Play<S: Station, N: Station> {
    pub server: Post<S>,
    pub node: Post<N>,
    pub frames: Vec<Frame>,
    /// The latest moment that a core was given.
    pub latest: u64,
}

impl<S: Station, N: Station> Play<S, N> {
    /// Tells a core an event, and prints the answer and the frames that it makes.
    pub fn step(
        &mut self,
        alloc: Global,
        side: Side,
        event: &Event,
        text: &mut String,
    ) -> Result<(), Memory> {
        let mut out = OutBox::make(alloc)?;
        let answer = match side {
            Side::Server => self.server.step(alloc, event, &mut out)?,
            Side::Node => self.node.step(alloc, event, &mut out)?,
        };
        answer_onto(alloc, text, &answer)?;
        self.keep(alloc, side, &out, text)
    }

    // Keeps and prints the frames of a step.
    fn keep(
        &mut self,
        alloc: Global,
        by: Side,
        out: &OutBox,
        text: &mut String,
    ) -> Result<(), Memory> {
        for frame in out.frames() {
            frame_onto(alloc, text, self.frames.len(), frame)?;
            self.frames.push(Frame {
                by,
                to: frame.to,
                payload: frame.payload.copy(),
            })?;
        }
        Ok(())
    }

    /// The event that a line tells a core.
    pub fn event(
        &mut self,
        alloc: Global,
        side: Side,
        line: &str,
        text: &mut String,
    ) -> Result<(), ScriptFault> {
        let event = event_of(alloc, line, self.server.own())?;
        if let Event::Time { now } = &event {
            self.latest = self.latest.max(*now);
        }
        Ok(self.step(alloc, side, &event, text)?)
    }
}
