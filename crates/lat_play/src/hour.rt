//! An hour as a schedule: eight lines at both ends, each with a session. Both clocks run in steps of 80 ms. On the lines in turn 10
//! bytes go up and 1,920 down, 40 times on each, every frame comes once and in order, and at the end each session is closed.

use std::alloc::{AllocError, Global};

/// How many lines each end has.
const LINES: u64 = 8;

/// How many turns there are, on all lines.
const TURNS: u64 = 320;

/// How far the moments lie apart, in milliseconds.
const STEP: u64 = 80;

/// The lines in front of the first moment.
const FRONT: &str = "lat 1\nserver aa0004000104 TS1 8\nnode aa0004000204 VAX1 8 1 255\n\
    circuit 8 20 64 7 4\nservice VAX\ngo\nn announce\ndeliver 0\n";

// What comes next.
#[derive(Clone, Copy)]
enum Next {
    /// So many moments at both ends.
    Rounds(u8),
    /// So many frames.
    Frames(u8),
    /// The server's line takes what has come.
    Take,
}

use Next::{Frames, Rounds, Take};

/// Behind the connects, until the first turn.
const CONNECTED: [Next; 8] = [
    Frames(2),
    Rounds(1),
    Frames(2),
    Rounds(1),
    Frames(1),
    Rounds(1),
    Frames(1),
    Rounds(8),
];

/// Behind the 10 bytes of a turn.
const UP: [Next; 3] = [Rounds(1), Frames(2), Rounds(2)];

/// Behind its 1,920 bytes, until the next turn.
const DOWN: [Next; 25] = [
    Rounds(1),
    Frames(1),
    Rounds(1),
    Frames(3),
    Rounds(1),
    Frames(2),
    Take,
    Rounds(1),
    Frames(2),
    Rounds(1),
    Frames(3),
    Rounds(1),
    Frames(2),
    Take,
    Rounds(1),
    Frames(2),
    Rounds(2),
    Take,
    Rounds(3),
    Take,
    Rounds(3),
    Take,
    Rounds(3),
    Take,
    Rounds(115),
];

/// Behind the last turn: nothing goes but what keeps the circuit alive, each 20 seconds.
const SILENT: [Next; 13] = [
    Rounds(124),
    Frames(2),
    Rounds(250),
    Frames(2),
    Rounds(250),
    Frames(2),
    Rounds(250),
    Frames(2),
    Rounds(250),
    Frames(2),
    Rounds(250),
    Frames(2),
    Rounds(76),
];

/// Behind the closes.
const CLOSED: [Next; 5] = [Rounds(1), Frames(2), Rounds(1), Frames(1), Rounds(17)];

// The schedule as it grows: its text, its last moment, and the next frame.
#[derive(Drop)]
struct Hour {
    text: String,
    moment: u64,
    frame: u64,
}

impl Hour {
    // Both ends are told so many moments.
    fn rounds(&mut self, count: u8) -> Result<(), AllocError> {
        for _ in 0..count {
            let moment = self.moment.saturating_add(STEP);
            write!(self.text, "s time {moment}\nn time {moment}\n")?;
            self.moment = moment;
        }
        Ok(())
    }

    // So many frames come.
    fn frames(&mut self, count: u8) -> Result<(), AllocError> {
        for _ in 0..count {
            let frame = self.frame;
            write!(self.text, "deliver {frame}\n")?;
            self.frame = frame.saturating_add(1);
        }
        Ok(())
    }

    // All of these, in order, with the takes at this line.
    fn go(&mut self, all: &[Next], line: u64) -> Result<(), AllocError> {
        for next in all {
            match next {
                Rounds(count) => self.rounds(*count)?,
                Frames(count) => self.frames(*count)?,
                Take => write!(self.text, "s take {line} 4096\n")?,
            }
        }
        Ok(())
    }

    // So many bytes 61 hex.
    fn bytes(&mut self, count: u16) -> Result<(), AllocError> {
        for _ in 0..count {
            self.text.push_str("61")?;
        }
        self.text.push_str("\n")
    }

    fn turn(&mut self, line: u64) -> Result<(), AllocError> {
        write!(self.text, "s put {line} ")?;
        self.bytes(10)?;
        self.go(&UP, line)?;
        write!(self.text, "n take {line} 4096\nn put {line} ")?;
        self.bytes(1920)?;
        self.go(&DOWN, line)
    }

    fn turns(&mut self) -> Result<(), AllocError> {
        for turn in 0..TURNS {
            self.turn(turn % LINES + 1)?;
        }
        Ok(())
    }

    // Each line of the server is told this.
    fn each(&mut self, verb: &str, behind: &str) -> Result<(), AllocError> {
        for place in 0..LINES {
            let line = place + 1;
            write!(self.text, "s {verb} {line}{behind}\n")?;
        }
        Ok(())
    }
}

/// The text of the schedule.
pub fn hour_of(alloc: Global) -> Result<String, AllocError> {
    let mut hour = Hour {
        text: String::from_str(alloc, FRONT)?,
        moment: 0,
        frame: 1,
    };
    hour.each("connect", " VAX")?;
    hour.go(&CONNECTED, 0)?;
    hour.turns()?;
    hour.go(&SILENT, 0)?;
    hour.each("close", "")?;
    hour.go(&CLOSED, 0)?;
    hour.text.push_str("end\n")?;
    Ok(hour.text)
}
