//! Frames that come to the cores.

ghost use Rattle.std.specs.Prelude.{◌≤◌};

use crate::play::{Play, Side, side_at};
use crate::post::Post;
use crate::station::Station;
use lat_base::{Addr, Answer, Bytes, Event, Memory, Name, OutBox, Payload};
use lat_notices::Action;
use lat_payload::command_frame;
use lat_script::{
    ScriptFault, address, answer_onto, bytes, known_name, name, number, number_within, short, word,
};
use std::alloc::Global;
use std::ops::Range;

/// Where the announcements of `announcers` and the commands of `askers` come from.
const ANNOUNCERS: Addr = Addr([0x02, 0x00, 0x00, 0x00, 0x00, 0x0a]);

/// A core hears a payload; the box is cleared first.
pub fn hand<C: Station>(
    alloc: Global,
    post: &mut Post<C>,
    from: Addr,
    payload: &[u8],
    now: u64,
    out: &mut OutBox,
) -> Result<Answer, Memory> {
    out.clear();
    let event = Event::Heard {
        from,
        payload: Bytes::copy(alloc, payload)?,
        now,
    };
    post.step(alloc, &event, out)
}

impl<S: Station, N: Station> Play<S, N> {
    // The moment that this word is, or the latest so far.
    fn moment_at(&mut self, line: &str, place: u8) -> Result<u64, ScriptFault> {
        if word(line, place) != "" {
            let now = number(line, place)?;
            self.latest = self.latest.max(now);
            return Ok(now);
        }
        Ok(self.latest)
    }

    fn hear(
        &mut self,
        alloc: Global,
        side: Side,
        from: Addr,
        payload: &[u8],
        now: u64,
        text: &mut String,
    ) -> Result<(), Memory> {
        let event = Event::Heard {
            from,
            payload: Bytes::copy(alloc, payload)?,
            now,
        };
        self.step(alloc, side, &event, text)
    }

    // A frame of this number: the core that it comes to, its sender's address and its payload, where it is for that core.
    fn frame_at(&self, number: usize) -> Option<(Side, Addr, Payload)> {
        let frame = self.frames.get(number)?;
        let (side, from, own) = match frame.by {
            Side::Server => (Side::Node, self.server.own(), self.node.own()),
            Side::Node => (Side::Server, self.node.own(), self.server.own()),
        };
        if frame.to != own && !frame.to.is_everyone() {
            return None;
        }
        Some((side, from, frame.payload.copy()))
    }

    /// Delivers a frame.
    pub fn deliver(
        &mut self,
        alloc: Global,
        line: &str,
        text: &mut String,
    ) -> Result<(), ScriptFault> {
        match self.frame_at(number(line, 1)? as usize) {
            Some((side, from, payload)) => {
                let now = self.moment_at(line, 2)?;
                Ok(self.hear(alloc, side, from, payload.bytes(), now, text)?)
            }
            None => Ok(text.push_str("not for it\n")?),
        }
    }

    /// Hands a payload to a core.
    pub fn inject(
        &mut self,
        alloc: Global,
        line: &str,
        text: &mut String,
    ) -> Result<(), ScriptFault> {
        let side = side_at(line, 1)?;
        let from = address(line, 2)?;
        let payload = bytes(alloc, line, 3)?;
        let now = self.moment_at(line, 4)?;
        Ok(self.hear(alloc, side, from, &payload, now, text)?)
    }

    // Hands the server the announcements of so many nodes; its last answer.
    fn announce_all(&mut self, alloc: Global, nodes: u16) -> Result<Answer, Memory> {
        let mut out = OutBox::make(alloc)?;
        let mut last = Answer::Done;
        for number in 0..nodes {
            let payload = announcement(alloc, number)?;
            let (server, now) = (&mut self.server, self.latest);
            last = hand(alloc, server, ANNOUNCERS, &payload, now, &mut out)?;
        }
        Ok(last)
    }

    /// Hands the server the announcements of nodes N1, N2 and so on.
    pub fn announcers(
        &mut self,
        alloc: Global,
        line: &str,
        text: &mut String,
    ) -> Result<(), ScriptFault> {
        let last = self.announce_all(alloc, short(line, 1)?)?;
        Ok(answer_onto(alloc, text, &last)?)
    }

    // Hands the server the commands of node N1, incarnation 1, which asks for one service by these requests below 65,536; its last
    // answer.
    fn ask_all(
        &mut self,
        alloc: Global,
        requests: Range<u64>,
        service: &Name,
    ) -> Result<Answer, Memory>
        requires { requests.end ≤ 65536 }
    {
        let mut out = OutBox::make(alloc)?;
        let mut last = Answer::Done;
        let node = known_name(b"N1");
        for request in requests.start..requests.end {
            let (server, now) = (&mut self.server, self.latest);
            let (to, request) = (server.own(), request as u16);
            let frame = command_frame(to, 1, request, Action::Ask, &node, service);
            let payload = frame.payload.bytes();
            last = hand(alloc, server, ANNOUNCERS, payload, now, &mut out)?;
        }
        Ok(last)
    }

    /// Hands the server the commands of a node's requests from one number up to another, all of one service.
    pub fn askers(
        &mut self,
        alloc: Global,
        line: &str,
        text: &mut String,
    ) -> Result<(), ScriptFault> {
        let requests = number(line, 1)?..number_within(0, 65_536, line, 2)?;
        let service = name(line, 3)?;
        let last = self.ask_all(alloc, requests, &service)?;
        Ok(answer_onto(alloc, text, &last)?)
    }
}

// The announcement of a service X with rating 1 by a node whose name is N and a number, counted from 1; its timer is 30.
fn announcement(alloc: Global, number: u16) -> Result<Vec<u8>, Memory> {
    let count = u32::from(number) + 1;
    let name = format!(in alloc; "N{count}")?;
    let mut payload = Vec::from_slice(alloc, &[0x28, 30, 5, 1, 0, 0, name.len().min(16) as u8])?;
    payload.extend_from_slice(name.as_bytes())?;
    payload.extend_from_slice(&[0, 1, 1, 1, 0x58, 0])?;
    Ok(payload)
}
