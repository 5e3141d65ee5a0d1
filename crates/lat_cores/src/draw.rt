//! Circuit ids, drawn one after the other.

use crate::hear::hand;
use crate::play::Play;
use crate::station::Station;
use lat_base::{Answer, Event, Memory, Name, OutBox, Payload};
use lat_frames::{CircuitEnd, write_stop};
use lat_script::{ScriptFault, answer_onto, name, number};
use std::alloc::Global;

// A STOP of source 0 to this circuit, for want of use.
fn stop(circuit: u16) -> Payload {
    let mut payload = Payload::empty();
    let reason = CircuitEnd::NoUse.bits();
    write_stop(false, false, circuit, 0, reason, &[], &mut payload);
    payload
}

impl<S: Station, N: Station> Play<S, N> {
    /// Connects line 1 so many times, and ends its circuit each time.
    pub fn draw(
        &mut self,
        alloc: Global,
        line: &str,
        text: &mut String,
    ) -> Result<(), ScriptFault> {
        let times = number(line, 1)?;
        let service = name(line, 2)?;
        let mut out = OutBox::make(alloc)?;
        let mut last = Answer::Done;
        for _ in 0..times {
            last = self.draw_one(alloc, service, &mut out)?;
        }
        Ok(answer_onto(alloc, text, &last)?)
    }

    fn draw_one(
        &mut self,
        alloc: Global,
        service: Name,
        out: &mut OutBox,
    ) -> Result<Answer, Memory> {
        out.clear();
        let answer = self
            .server
            .step(alloc, &Event::Connect { line: 1, service }, out)?;
        if let Answer::Connected { circuit, .. } = &answer {
            let from = self.node.own();
            hand(
                alloc,
                &mut self.server,
                from,
                stop(*circuit).bytes(),
                self.latest,
                out,
            )?;
        }
        Ok(answer)
    }
}
