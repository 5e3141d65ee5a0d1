//! A core that sends each byte round: one that is put goes out behind its line's number, and what such a frame brings waits at
//! the line that it names. Lines 1 and 2 always have a session.

ghost use Rattle.std.specs.Prelude.{◌≡◌, [], OnErr, OnOk, IfOk};
ghost use Rattle.lat_tests.specs.Echoes.{Echoes, fresh_echoes, byte_at, with_byte, bytes_of, echo_heard, echo_waiting, put_answer};

use lat_base::{
    Answer, CircuitLook, Core, Correspondent, EVERYONE, Event, Item, Items, LineLook, Mark, Memory,
    Name, NodeLook, OutBox, OutFrame, Payload, ServiceLook, SessionState, WaiterLook,
};
use std::alloc::Global;
use std::marker::Model;

/// A core of two lines, with the byte that waits at each: 0 where none does.
#[derive(Drop)]
pub struct Echo {
    one: u8,
    two: u8,
    closed: u32,
    moment: u64,
}

impl Model for Echo {
    ghost use Rattle.lat_tests.specs.Echoes.{Echoes};

    ghost Value = { Echoes };

    ghost view = { λ a. record { one = a.one; two = a.two; closed = a.closed; moment = a.moment } };
}

impl Echo {
    /// One that was told nothing yet.
    pub fn new() -> Echo
        ensures { result ≡ fresh_echoes }
    {
        Echo {
            one: 0,
            two: 0,
            closed: 0,
            moment: 0,
        }
    }

    fn byte_at(&self, line: u8) -> u8
        ensures { result ≡ byte_at self.now line }
    {
        match line {
            1 => self.one,
            2 => self.two,
            _ => 0,
        }
    }

    fn set(&mut self, line: u8, byte: u8)
        ensures { self.new ≡ with_byte self.old line byte }
    {
        match line {
            1 => self.one = byte,
            2 => self.two = byte,
            _ => {}
        }
    }

    fn hear(&mut self, payload: &[u8])
        ensures { self.new ≡ echo_heard self.old payload.now }
    {
        if let [line, byte] = payload {
            self.set(*line, *byte);
        }
    }
}

fn items(alloc: Global, byte: u8) -> Result<Items, Memory>
    ensures { IfOk result (λ items. items ≡ bytes_of byte) }
{
    let mut items = Items::new(alloc);
    if byte != 0 {
        items.push(Item::Byte(byte))?;
    }
    Ok(items)
}

fn put(line: u8, bytes: &[u8], out: &mut OutBox) -> Answer
    requires { out.old ≡ [] }
    ensures { result ≡ put_answer bytes.now }
{
    let [byte, ..] = bytes else {
        return Answer::Closed;
    };
    let mut payload = Payload::empty();
    payload.push(line);
    payload.push(*byte);
    out.push(OutFrame {
        to: EVERYONE,
        payload,
        circuit: 0,
        mark: Mark::Plain,
    });
    Answer::Put(1)
}

impl Core for Echo {
    ghost use Rattle.std.specs.Prelude.{◌≡◌, true, None};
    ghost use Rattle.lat_tests.specs.Echoes.{Echoes, fresh_echoes, echo_next, echo_answer, echo_look, echo_waiting};

    ghost State = { Echoes };

    ghost made = { λ s. s ≡ fresh_echoes };

    ghost opening = { λ c. fresh_echoes };

    ghost valid = { λ c. Unit {0} };

    ghost stands = { λ c s. c ≡ s };

    ghost next = { echo_next };

    ghost answer = { echo_answer };

    ghost frames = { λ s e frames. Unit {0} };

    ghost look_of = { echo_look };

    ghost correspondent_of = { λ s line. None };

    ghost moment_of = { λ s. s.moment };

    ghost finished_of = { λ s. s.closed };

    ghost living_of = { λ s. 0 };

    ghost drained_of = { λ s. true };

    ghost circuit_of = { λ s at. None };

    ghost node_of = { λ s at. None };

    ghost service_of = { λ s node at. None };

    ghost offered_of = { λ s at. None };

    ghost waiter_of = { λ s service at. None };

    ghost ids_left_of = { λ s. 0 };

    ghost records_left_of = { λ s. None };

    ghost ready = { echo_waiting };

    fn step(&mut self, alloc: Global, event: &Event, out: &mut OutBox) -> Result<Answer, Memory> {
        match event {
            Event::Heard { payload, .. } => {
                self.hear(payload.as_slice());
                Ok(Answer::Ignored)
            }
            Event::Time { now } => {
                self.moment = *now;
                Ok(Answer::Done)
            }
            Event::Put { line, bytes } => Ok(put(*line, bytes.as_slice(), out)),
            Event::Take { n: 0, .. } => Ok(Answer::Closed),
            Event::Take { line, .. } => {
                let items = items(alloc, self.byte_at(*line))?;
                self.set(*line, 0);
                Ok(Answer::Took(items))
            }
            Event::Close { .. } => {
                self.closed = self.closed.saturating_add(1);
                Ok(Answer::Done)
            }
            _ => Ok(Answer::NotHere),
        }
    }

    fn look(&self, line: u8) -> LineLook {
        LineLook {
            newest: 1,
            state: SessionState::Live,
            waiting: if self.byte_at(line) == 0 { 0 } else { 1 },
            room: 4096,
            end: None,
        }
    }

    fn correspondent(&self, _line: u8) -> Option<Correspondent> {
        None
    }

    fn moment(&self) -> u64 {
        self.moment
    }

    fn finished(&self) -> u32 {
        self.closed
    }

    fn living(&self) -> u8 {
        0
    }

    fn is_drained(&self) -> bool {
        true
    }

    fn circuit(&self, _at: usize) -> Option<CircuitLook> {
        None
    }

    fn node(&self, _at: usize) -> Option<NodeLook> {
        None
    }

    fn service(&self, _node: usize, _at: usize) -> Option<ServiceLook> {
        None
    }

    fn offered(&self, _at: usize) -> Option<Name> {
        None
    }

    fn waiter(&self, _service: &Name, _at: usize) -> Option<WaiterLook> {
        None
    }

    fn ids_left(&self) -> u16 {
        0
    }

    fn records_left(&self) -> Option<u32> {
        None
    }
}
