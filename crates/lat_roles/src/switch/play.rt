//! A switch and a node, and the frames between them.

ghost use Rattle.std.specs.Prelude.{◌≡◌, []};

use crate::switch::print::shown_onto;
use lat_base::{Addr, Answer, Bytes, Core, Event, Memory, OutBox, Payload};
use lat_node::{NodeCore, RatingRule};
use lat_schedule::{WorldEvent, event_onto};
use lat_script::answer_onto;
use lat_switch::SwitchCore;
use std::alloc::Global;
use std::collections::VecDeque;
use std::marker::Model;

/// So many frames are delivered after an event at most.
const MOST: usize = 10_000;

/// A core that may be called at any time, with its address.
#[derive(Drop)]
pub struct Post<C: Core> {
    core: C,
    own: Addr,
}

impl<C: Core> Model for Post<C> {
    ghost Value = { C };

    ghost view = { λ a. a.core };

    ghost invariant = { λ a. C.valid a.core };
}

impl<C: Core> Post<C> {
    /// A core at this address, which has done nothing.
    pub fn new(core: C, own: Addr) -> Post<C>
        requires { C.valid core }
    {
        Post { core, own }
    }

    fn step(&mut self, alloc: Global, event: &Event, out: &mut OutBox) -> Result<Answer, Memory>
        requires { out.old ≡ [] }
    {
        self.core.step(alloc, event, out)
    }

    /// The core, to be asked.
    pub fn core(&self) -> &C
        ensures { C.valid result.now }
    {
        &self.core
    }
}

/// A frame on its way.
#[derive(Drop)]
struct Frame {
    by_switch: bool,
    to: Addr,
    payload: Payload,
}

/// A switch and a node.
#[derive(Drop)]
pub struct Play<H: RatingRule> {
    switch: Post<SwitchCore>,
    node: Post<NodeCore<H>>,
    frames: VecDeque<Frame>,
    /// The latest moment that one of them was given.
    latest: u64,
}

impl<H: RatingRule> Play<H> {
    /// The switch and the node, before their first event.
    pub fn new(alloc: Global, switch: Post<SwitchCore>, node: Post<NodeCore<H>>) -> Play<H> {
        Play {
            switch,
            node,
            frames: VecDeque::new(alloc),
            latest: 0,
        }
    }

    // Tells one of them an event, and keeps its frames.
    fn step(&mut self, alloc: Global, at_switch: bool, event: &Event) -> Result<Answer, Memory> {
        let mut out = OutBox::make(alloc)?;
        let answer = if at_switch {
            self.switch.step(alloc, event, &mut out)?
        } else {
            self.node.step(alloc, event, &mut out)?
        };
        for frame in out.frames() {
            self.frames.push_back(Frame {
                by_switch: at_switch,
                to: frame.to,
                payload: frame.payload.copy(),
            })?;
        }
        Ok(answer)
    }

    // Delivers a frame to the other one, where it is for it.
    fn deliver(&mut self, alloc: Global, frame: &Frame) -> Result<(), Memory> {
        let (from, to) = if frame.by_switch {
            (self.switch.own, self.node.own)
        } else {
            (self.node.own, self.switch.own)
        };
        if frame.to != to && !frame.to.is_everyone() {
            return Ok(());
        }
        let event = Event::Heard {
            from,
            payload: Bytes::copy(alloc, frame.payload.bytes())?,
            now: self.latest,
        };
        self.step(alloc, !frame.by_switch, &event)?;
        Ok(())
    }

    fn deliver_all(&mut self, alloc: Global) -> Result<(), Memory> {
        for _ in 0..MOST {
            let Some(frame) = self.frames.pop_front() else {
                return Ok(());
            };
            self.deliver(alloc, &frame)?;
        }
        Ok(())
    }

    /// Tells one of them the event, prints what comes of it, and delivers all frames.
    pub fn told(
        &mut self,
        alloc: Global,
        event: &WorldEvent,
        text: &mut String,
    ) -> Result<(), Memory> {
        let WorldEvent::Local {
            server,
            event: told,
        } = event
        else {
            return Ok(());
        };
        text.push_str("> ")?;
        event_onto(alloc, text, event)?;
        if let Event::Time { now } = told {
            self.latest = self.latest.max(*now);
        }
        let answer = self.step(alloc, *server, told)?;
        answer_onto(alloc, text, &answer)?;
        if *server && let Some(line) = line_of(told) {
            shown_onto(text, self.switch.core(), line)?;
        }
        self.deliver_all(alloc)
    }
}

// The line that an event is for.
fn line_of(event: &Event) -> Option<u8> {
    match event {
        Event::Connect { line, .. }
        | Event::Put { line, .. }
        | Event::Set { line, .. }
        | Event::Take { line, .. }
        | Event::Attend { line, .. }
        | Event::Close { line } => Some(*line),
        _ => None,
    }
}
