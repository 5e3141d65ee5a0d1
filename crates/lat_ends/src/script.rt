//! The lines of a script, in order.

ghost use Rattle.std.specs.Prelude.{◌≡◌, []};
ghost use Rattle.lat_frames.specs.Timings.{IsTiming};

use crate::end::End;
use crate::make::{Setup, answered, called, room_used_again, setup_of};
use crate::print::frame_onto;
use crate::rounds::{Round, rounds_onto};
use lat_base::{Memory, OutBox, Payload};
use lat_frames::{FrameFault, Message, message_ok, read_message};
use lat_script::{
    Pair, ScriptFault, bad_onto, byte, bytes, choice, is_command, no_command, number, refused_onto,
    short, short_within, word,
};
use std::alloc::Global;

// A frame that was made.
#[derive(Drop)]
struct Frame {
    by_master: bool,
    payload: Payload,
}

// Both ends, and all frames so far.
#[derive(Drop)]
struct Play {
    setup: Setup,
    master: Option<End>,
    slave: Option<End>,
    frames: Vec<Frame>,
    ghost master_timing: { IsTiming setup.master.timing },
    ghost slave_timing: { IsTiming setup.slave.timing },
}

const NO_CIRCUIT: &str = "no circuit\n";

// The one end or the other.
fn pick<'x>(
    one: &'x mut Option<End>,
    other: &'x mut Option<End>,
    is_one: bool,
) -> &'x mut Option<End> {
    if is_one { one } else { other }
}

// Whether a line names the master, and not the slave.
fn is_master(line: &str) -> Result<bool, ScriptFault> {
    choice(Pair::Ends, line, 1)
}

// Whether this is a command that names an end.
fn names_end(command: &str) -> bool {
    matches!(
        command,
        "put"
            | "fill"
            | "set"
            | "attend"
            | "take"
            | "close"
            | "state"
            | "mark"
            | "waiting"
            | "totals"
            | "ended"
            | "peer"
            | "held"
            | "lives"
    )
}

// The moment that this word is; where there is no word the end's own, or 0 without an end.
fn moment_of(line: &str, place: u8, end: &Option<End>) -> Result<u64, ScriptFault> {
    match end {
        _ if word(line, place) != "" => number(line, place),
        Some(end) => Ok(end.circuit.moment()),
        None => Ok(0),
    }
}

impl Play {
    // Keeps and prints the frames of a call.
    fn keep(
        &mut self,
        alloc: Global,
        by_master: bool,
        out: &OutBox,
        text: &mut String,
    ) -> Result<(), Memory> {
        for frame in out.frames() {
            frame_onto(alloc, text, self.frames.len(), frame)?;
            self.frames.push(Frame {
                by_master,
                payload: frame.payload.copy(),
            })?;
        }
        Ok(())
    }

    fn call(&mut self, alloc: Global, line: &str, text: &mut String) -> Result<(), ScriptFault> {
        let id = short_within(1, 65_535, line, 1)?;
        let mut out = OutBox::make(alloc)?;
        self.master = Some(called(alloc, &self.setup.master, id, &mut out)?);
        text.push_str("called\n")?;
        Ok(self.keep(alloc, true, &out, text)?)
    }

    fn room(&mut self, alloc: Global, sessions: u8, text: &mut String) -> Result<(), Memory> {
        let mut out = OutBox::make(alloc)?;
        let (before, after) = room_used_again(alloc, &self.setup.master, sessions, &mut out)?;
        write!(text, "held {before}, then {after}\n")?;
        Ok(())
    }

    fn time(&mut self, alloc: Global, line: &str, text: &mut String) -> Result<(), ScriptFault> {
        let by_master = is_master(line)?;
        let now = number(line, 2)?;
        let end = pick(&mut self.master, &mut self.slave, by_master);
        let Some(end) = end else {
            return Ok(text.push_str(NO_CIRCUIT)?);
        };
        let mut out = OutBox::make(alloc)?;
        end.time(now, &mut out, text)?;
        Ok(self.keep(alloc, by_master, &out, text)?)
    }

    // Makes a slave where a START calls it.
    fn answer(
        &mut self,
        alloc: Global,
        message: &Message,
        now: u64,
        out: &mut OutBox,
        text: &mut String,
    ) -> Result<(), Memory>
        requires { out.old ≡ [] }
    {
        match message {
            Message::Start {
                master: true,
                from,
                info,
                ..
            } if message_ok(message) => {
                self.slave = Some(answered(alloc, &self.setup.slave, *from, info, now, out)?);
                Ok(text.push_str("answered\n")?)
            }
            _ => Ok(text.push_str(NO_CIRCUIT)?),
        }
    }

    // The message that one end's peer made comes to it.
    fn hear(
        &mut self,
        alloc: Global,
        by_master: bool,
        message: &Message,
        now: u64,
        text: &mut String,
    ) -> Result<(), Memory> {
        let mut out = OutBox::make(alloc)?;
        let end = pick(&mut self.slave, &mut self.master, by_master);
        match end {
            Some(end) if !by_master || end.circuit.lives() => {
                end.hear(message, now, &mut out, text)?;
            }
            _ if by_master => self.answer(alloc, message, now, &mut out, text)?,
            _ => text.push_str(NO_CIRCUIT)?,
        }
        self.keep(alloc, !by_master, &out, text)
    }

    fn hear_payload(
        &mut self,
        alloc: Global,
        by_master: bool,
        payload: &[u8],
        now: u64,
        text: &mut String,
    ) -> Result<(), Memory> {
        match read_message(alloc, payload) {
            Ok(message) => self.hear(alloc, by_master, &message, now, text),
            Err(FrameFault::Bad(bad)) => Ok(bad_onto(text, bad)?),
            Err(FrameFault::Memory) => Err(Memory),
        }
    }

    fn deliver(&mut self, alloc: Global, line: &str, text: &mut String) -> Result<(), ScriptFault> {
        let Some(frame) = self.frames.get(number(line, 1)? as usize) else {
            return Ok(text.push_str("no frame\n")?);
        };
        let (by_master, payload) = (frame.by_master, frame.payload.copy());
        let end = if by_master { &self.slave } else { &self.master };
        let now = moment_of(line, 2, end)?;
        Ok(self.hear_payload(alloc, by_master, payload.bytes(), now, text)?)
    }

    fn inject(&mut self, alloc: Global, line: &str, text: &mut String) -> Result<(), ScriptFault> {
        let by_master = !is_master(line)?;
        let payload = bytes(alloc, line, 2)?;
        let end = if by_master { &self.slave } else { &self.master };
        let now = moment_of(line, 3, end)?;
        Ok(self.hear_payload(alloc, by_master, &payload, now, text)?)
    }

    // The calls that one end alone has.
    fn own_call(
        &mut self,
        alloc: Global,
        of_master: bool,
        line: &str,
        text: &mut String,
    ) -> Result<(), ScriptFault> {
        let end = pick(&mut self.master, &mut self.slave, of_master);
        match end {
            Some(end) => end.own_call(alloc, line, text),
            None => Ok(text.push_str(NO_CIRCUIT)?),
        }
    }

    fn session_call(
        &mut self,
        alloc: Global,
        line: &str,
        text: &mut String,
    ) -> Result<(), ScriptFault> {
        if !names_end(word(line, 0)) {
            return Err(no_command(0));
        }
        let end = pick(&mut self.master, &mut self.slave, is_master(line)?);
        match end {
            Some(end) => end.session_call(alloc, line, text),
            None => Ok(text.push_str(NO_CIRCUIT)?),
        }
    }

    fn rounds(&mut self, alloc: Global, line: &str, text: &mut String) -> Result<(), ScriptFault> {
        let (Some(master), Some(slave)) = (&mut self.master, &mut self.slave) else {
            return Ok(text.push_str(NO_CIRCUIT)?);
        };
        let rounds = number(line, 1)?;
        let round = Round {
            size: byte(line, 2)?,
            take: short(line, 3)?,
        };
        Ok(rounds_onto(alloc, master, slave, rounds, round, text)?)
    }

    // What one command answers.
    fn act(&mut self, alloc: Global, line: &str, text: &mut String) -> Result<(), ScriptFault> {
        match word(line, 0) {
            "call" => self.call(alloc, line, text),
            "room" => Ok(self.room(alloc, byte(line, 1)?, text)?),
            "time" => self.time(alloc, line, text),
            "deliver" => self.deliver(alloc, line, text),
            "hear" => self.inject(alloc, line, text),
            "rounds" => self.rounds(alloc, line, text),
            "connect" => self.own_call(alloc, true, line, text),
            "answer" | "reject" | "asked" => self.own_call(alloc, false, line, text),
            _ => self.session_call(alloc, line, text),
        }
    }
}

// Nothing was made of what this line states.
fn fresh(alloc: Global, line: &str) -> Result<Play, ScriptFault> {
    let setup = setup_of(line)?;
    Ok(Play {
        setup,
        master: None,
        slave: None,
        frames: Vec::new(alloc),
    })
}

fn line_onto(
    alloc: Global,
    play: &mut Option<Play>,
    line: &str,
    text: &mut String,
) -> Result<(), ScriptFault> {
    if word(line, 0) == "ends" {
        *play = Some(fresh(alloc, line)?);
        return Ok(());
    }
    match play {
        Some(play) => play.act(alloc, line, text),
        None => Ok(text.push_str("no ends\n")?),
    }
}

fn command_onto(
    alloc: Global,
    play: &mut Option<Play>,
    number: u64,
    line: &str,
    text: &mut String,
) -> Result<(), Memory> {
    if is_command(line, text)? {
        let done = line_onto(alloc, play, line, text);
        refused_onto(text, number, done)?;
    }
    Ok(())
}

/// What is printed of a script.
pub fn played(alloc: Global, script: &str) -> Result<String, Memory> {
    let mut text = String::new(alloc);
    let mut play = None;
    for (at, line) in script.lines().enumerate() {
        let number = (at as u64).saturating_add(1);
        command_onto(alloc, &mut play, number, line, &mut text)?;
    }
    Ok(text)
}
