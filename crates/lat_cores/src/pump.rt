//! Bytes both ways over frames that are lost, delivered and repeated by a pattern.

use crate::hear::hand;
use crate::play::Play;
use crate::post::Post;
use crate::station::Station;
use lat_base::{Addr, Answer, Bytes, Event, Memory, OutBox, Payload};
use lat_script::{Came, ScriptFault, byte_of, number, word};
use std::alloc::Global;

/// How many bytes are put at each end.
const BYTES: u64 = 1000;

/// How many rounds there are at most.
const ROUNDS: u64 = 20_000;

// Whence frames come, and when.
#[derive(Clone, Copy)]
struct Way {
    from: Addr,
    now: u64,
}

// How frames are delivered, and what became of them.
#[derive(Drop)]
struct Pump<'x> {
    // The digits of a number, which say in turn how often a frame is delivered.
    pattern: &'x [u8],
    turns: usize,
    made: u64,
    delivered: u64,
    // The frames of the last step.
    out: OutBox,
}

impl<'x> Pump<'x> {
    // How often the next frame is delivered.
    fn times(&mut self) -> u8 {
        if self.pattern.is_empty() {
            return 1;
        }
        let place = self.turns % self.pattern.len();
        self.turns = place + 1;
        self.pattern[place].saturating_sub(b'0')
    }

    // Counts the frames of the last step, and keeps those to an address.
    fn note(&mut self, to: Addr, frames: &mut Vec<Payload>) -> Result<(), Memory> {
        for frame in self.out.frames() {
            self.made = self.made.saturating_add(1);
            if frame.to == to {
                frames.push(frame.payload.copy())?;
            }
        }
        Ok(())
    }

    // Gives a core a moment, and keeps its frames to an address.
    fn pass<C: Station>(
        &mut self,
        alloc: Global,
        post: &mut Post<C>,
        now: u64,
        to: Addr,
        frames: &mut Vec<Payload>,
    ) -> Result<(), Memory> {
        self.out.clear();
        post.step(alloc, &Event::Time { now }, &mut self.out)?;
        self.note(to, frames)
    }

    // Delivers a frame as often as it is its turn, and keeps what the core sends back.
    fn deliver<C: Station>(
        &mut self,
        alloc: Global,
        way: Way,
        payload: &Payload,
        post: &mut Post<C>,
        back: &mut Vec<Payload>,
    ) -> Result<(), Memory> {
        for _ in 0..self.times() {
            hand(
                alloc,
                post,
                way.from,
                payload.bytes(),
                way.now,
                &mut self.out,
            )?;
            self.delivered = self.delivered.saturating_add(1);
            self.note(way.from, back)?;
        }
        Ok(())
    }

    // Delivers frames in order, and forgets them.
    fn deliver_all<C: Station>(
        &mut self,
        alloc: Global,
        way: Way,
        frames: &mut Vec<Payload>,
        post: &mut Post<C>,
        back: &mut Vec<Payload>,
    ) -> Result<(), Memory> {
        for payload in frames.iter() {
            self.deliver(alloc, way, payload, post, back)?;
        }
        frames.clear();
        Ok(())
    }
}

fn put_all<C: Station>(alloc: Global, post: &mut Post<C>, out: &mut OutBox) -> Result<(), Memory> {
    let mut bytes = Vec::new(alloc);
    for number in 0..BYTES {
        bytes.push(byte_of(number))?;
    }
    out.clear();
    let bytes = Bytes::copy(alloc, &bytes)?;
    post.step(alloc, &Event::Put { line: 1, bytes }, out)?;
    Ok(())
}

// Takes what has come to line 1 of a core.
fn take_all<C: Station>(
    alloc: Global,
    post: &mut Post<C>,
    out: &mut OutBox,
    came: &mut Came,
) -> Result<(), Memory> {
    out.clear();
    let taking = Event::Take { line: 1, n: 4096 };
    if let Answer::Took(items) = post.step(alloc, &taking, out)? {
        for item in items.as_slice() {
            came.look(*item);
        }
    }
    Ok(())
}

// The frames that are under way to each core, and the items that came to it.
#[derive(Drop)]
struct Under {
    to_server: Vec<Payload>,
    to_node: Vec<Payload>,
    at_server: Came,
    at_node: Came,
}

impl<S: Station, N: Station> Play<S, N> {
    // One round: a moment, the frames, and takes.
    fn round(&mut self, alloc: Global, pump: &mut Pump, under: &mut Under) -> Result<(), Memory> {
        let (server, node) = (self.server.own(), self.node.own());
        let moments = self.server.moment().max(self.node.moment());
        let now = moments.saturating_add(80);
        self.latest = self.latest.max(now);
        pump.pass(alloc, &mut self.server, now, node, &mut under.to_node)?;
        pump.pass(alloc, &mut self.node, now, server, &mut under.to_server)?;
        let way = Way { from: server, now };
        pump.deliver_all(
            alloc,
            way,
            &mut under.to_node,
            &mut self.node,
            &mut under.to_server,
        )?;
        let way = Way { from: node, now };
        pump.deliver_all(
            alloc,
            way,
            &mut under.to_server,
            &mut self.server,
            &mut under.to_node,
        )?;
        let out = &mut pump.out;
        take_all(alloc, &mut self.server, out, &mut under.at_server)?;
        take_all(alloc, &mut self.node, out, &mut under.at_node)
    }

    // Rounds until all items have come; tells how many there were.
    fn rounds(&mut self, alloc: Global, pump: &mut Pump, under: &mut Under) -> Result<u64, Memory> {
        for rounds in 0..ROUNDS {
            if under.at_server.items >= BYTES && under.at_node.items >= BYTES {
                return Ok(rounds);
            }
            self.round(alloc, pump, under)?;
        }
        Ok(ROUNDS)
    }

    /// Pumps bytes both ways. The word behind the command is a number, whose digits are the pattern.
    pub fn pump(
        &mut self,
        alloc: Global,
        line: &str,
        text: &mut String,
    ) -> Result<(), ScriptFault> {
        number(line, 1)?;
        let none = Came { items: 0, wrong: 0 };
        let mut pump = Pump {
            pattern: word(line, 1).as_bytes(),
            turns: 0,
            made: 0,
            delivered: 0,
            out: OutBox::make(alloc)?,
        };
        let mut under = Under {
            to_server: Vec::new(alloc),
            to_node: Vec::new(alloc),
            at_server: none,
            at_node: none,
        };
        put_all(alloc, &mut self.server, &mut pump.out)?;
        put_all(alloc, &mut self.node, &mut pump.out)?;
        let rounds = self.rounds(alloc, &mut pump, &mut under)?;
        let (made, delivered) = (pump.made, pump.delivered);
        write!(text, "rounds {rounds} frames {made} delivered {delivered}")?;
        Ok(came_onto(text, &under)?)
    }
}

// What came.
fn came_onto(text: &mut String, under: &Under) -> Result<(), Memory> {
    let (up, down) = (under.at_node.items, under.at_server.items);
    let wrong = under.at_node.wrong.saturating_add(under.at_server.wrong);
    write!(text, " items {up} {down}")?;
    if wrong == 0 {
        text.push_str(" in order\n")?;
    } else {
        write!(text, " wrong {wrong}\n")?;
    }
    Ok(())
}
