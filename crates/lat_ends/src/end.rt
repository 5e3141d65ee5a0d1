//! One end of a circuit, and its calls in words.

ghost use Rattle.std.specs.Prelude.{◌≡◌, ◌≤◌};

use crate::print::{count_onto, done_onto, due_onto, ended_onto, life_onto, maybe_onto};
use lat_base::{Item, Memory, Name, OutBox, SessionState};
use lat_circuit::Circuit;
use lat_frames::{Message, message_ok};
use lat_script::{
    ScriptFault, byte, byte_within, bytes, filling, heard_onto, name, no_command, number_onto,
    setting, short, state_onto, took_onto, totals_onto, word,
};
use std::alloc::{AllocError, Global};

/// A circuit whose sessions are on its own side.
#[derive(Drop)]
pub struct End {
    pub circuit: Circuit,
    ghost side: { circuit.sessions.master ≡ circuit.facts.master },
}

const NOT_NOW: &str = "not now\n";

impl End {
    /// Gives it a moment.
    pub fn time(
        &mut self,
        now: u64,
        out: &mut OutBox,
        text: &mut String,
    ) -> Result<(), AllocError> {
        if out.len() > 240 || !self.circuit.lives() || now < self.circuit.moment() {
            return text.push_str(NOT_NOW);
        }
        let due = self.circuit.time(now, out);
        due_onto(text, due)
    }

    /// Hears a message.
    pub fn hear(
        &mut self,
        message: &Message,
        now: u64,
        out: &mut OutBox,
        text: &mut String,
    ) -> Result<(), AllocError> {
        if out.len() > 240 || !self.circuit.lives() || now < self.circuit.moment() {
            return text.push_str(NOT_NOW);
        }
        if !message_ok(message) {
            return text.push_str("not writable\n");
        }
        let heard = self.circuit.heard(message, now, out);
        heard_onto(text, heard)
    }

    fn connect(
        &mut self,
        alloc: Global,
        service: &Name,
        text: &mut String,
    ) -> Result<(), AllocError> {
        if !self.circuit.lives() || !self.circuit.is_master() {
            return text.push_str(NOT_NOW);
        }
        match self.circuit.connect(service, None) {
            Ok(id) => write!(text, "connected {id}\n"),
            Err(fault) => done_onto(alloc, text, Err(fault)),
        }
    }

    fn answer(&mut self, alloc: Global, id: u8, text: &mut String) -> Result<(), AllocError> {
        if !self.circuit.lives() || self.circuit.state(id) != SessionState::Asked {
            return text.push_str(NOT_NOW);
        }
        self.circuit.answer_session(id);
        done_onto(alloc, text, Ok(()))
    }

    fn reject(
        &mut self,
        alloc: Global,
        id: u8,
        reason: u8,
        text: &mut String,
    ) -> Result<(), AllocError>
        requires { reason ≤ 15 }
    {
        if !self.circuit.lives() || self.circuit.state(id) != SessionState::Asked {
            return text.push_str(NOT_NOW);
        }
        self.circuit.reject(id, reason);
        done_onto(alloc, text, Ok(()))
    }

    fn put(
        &mut self,
        alloc: Global,
        id: u8,
        bytes: &[u8],
        text: &mut String,
    ) -> Result<(), AllocError> {
        if !self.circuit.lives() {
            return text.push_str(NOT_NOW);
        }
        let answer = self.circuit.put(id, bytes);
        count_onto(alloc, text, answer)
    }

    fn set(
        &mut self,
        alloc: Global,
        id: u8,
        setting: [u8; 5],
        text: &mut String,
    ) -> Result<(), AllocError> {
        if !self.circuit.lives() {
            return text.push_str(NOT_NOW);
        }
        let answer = self.circuit.set(id, setting);
        done_onto(alloc, text, answer)
    }

    fn take(&mut self, alloc: Global, id: u8, most: u16, text: &mut String) -> Result<(), Memory> {
        if !self.circuit.lives() {
            return Ok(text.push_str(NOT_NOW)?);
        }
        let mut items = vec![in alloc; Item::Byte(0); usize::from(most)]?;
        match self.circuit.take(id, &mut items) {
            Ok(count) => Ok(took_onto(alloc, text, &items[..count])?),
            Err(fault) => Ok(done_onto(alloc, text, Err(fault))?),
        }
    }

    fn attend(
        &mut self,
        alloc: Global,
        id: u8,
        flag: u8,
        text: &mut String,
    ) -> Result<(), AllocError> {
        if !self.circuit.lives() {
            return text.push_str(NOT_NOW);
        }
        let answer = self.circuit.attend(id, flag);
        done_onto(alloc, text, answer)
    }

    fn close(&mut self, alloc: Global, id: u8, text: &mut String) -> Result<(), AllocError> {
        if !self.circuit.lives() {
            return text.push_str(NOT_NOW);
        }
        let answer = self.circuit.close(id);
        done_onto(alloc, text, answer)
    }

    // The ask of the least id.
    fn asked(&self, text: &mut String) -> Result<(), AllocError> {
        match self.circuit.asked() {
            Some(asked) => {
                let id = asked.id;
                write!(text, "asked {id}\n")
            }
            None => text.push_str("none\n"),
        }
    }

    /// What it answers to a command that names no end: the calls that one end alone has.
    pub fn own_call(
        &mut self,
        alloc: Global,
        line: &str,
        text: &mut String,
    ) -> Result<(), ScriptFault> {
        match word(line, 0) {
            "connect" => self.connect(alloc, &name(line, 1)?, text)?,
            "answer" => self.answer(alloc, byte(line, 1)?, text)?,
            "reject" => self.reject(alloc, byte(line, 1)?, byte_within(0, 15, line, 2)?, text)?,
            "asked" => self.asked(text)?,
            _ => return Err(no_command(0)),
        }
        Ok(())
    }

    /// What it answers to a command that names it and a session.
    pub fn session_call(
        &mut self,
        alloc: Global,
        line: &str,
        text: &mut String,
    ) -> Result<(), ScriptFault> {
        match word(line, 0) {
            "put" | "fill" | "set" => self.put_call(alloc, line, text)?,
            "attend" => self.attend(alloc, byte(line, 2)?, byte(line, 3)?, text)?,
            "take" => self.take(alloc, byte(line, 2)?, short(line, 3)?, text)?,
            "close" => self.close(alloc, byte(line, 2)?, text)?,
            "state" | "waiting" | "totals" => self.tell_session(line, text)?,
            _ => self.tell(line, text)?,
        }
        Ok(())
    }

    // What it answers to a command that puts items.
    fn put_call(
        &mut self,
        alloc: Global,
        line: &str,
        text: &mut String,
    ) -> Result<(), ScriptFault> {
        let id = byte(line, 2)?;
        match word(line, 0) {
            "put" => self.put(alloc, id, &bytes(alloc, line, 3)?, text)?,
            "set" => self.set(alloc, id, setting(line, 3)?, text)?,
            "fill" => self.put(alloc, id, &filling(alloc, line, 3)?, text)?,
            _ => return Err(no_command(0)),
        }
        Ok(())
    }

    // How a session stands, what waits there, and its totals.
    fn tell_session(&self, line: &str, text: &mut String) -> Result<(), ScriptFault> {
        let id = byte(line, 2)?;
        match word(line, 0) {
            "state" => state_onto(text, self.circuit.state(id))?,
            "waiting" => number_onto(text, u64::from(self.circuit.waiting(id)))?,
            "totals" => {
                let (given, used) = self.circuit.totals(id);
                totals_onto(text, u64::from(given), u64::from(used))?;
                text.push_str("\n")?;
            }
            _ => return Err(no_command(0)),
        }
        Ok(())
    }

    // What else it tells.
    fn tell(&self, line: &str, text: &mut String) -> Result<(), ScriptFault> {
        match word(line, 0) {
            "held" => maybe_onto(text, Some(self.circuit.held()))?,
            "lives" => life_onto(text, self.circuit.ended_by())?,
            "mark" => maybe_onto(text, self.circuit.mark(byte(line, 2)?))?,
            "ended" => ended_onto(text, self.circuit.ended(byte(line, 2)?))?,
            "peer" => maybe_onto(text, Some(self.circuit.peer(byte(line, 2)?)))?,
            _ => return Err(no_command(0)),
        }
        Ok(())
    }
}
