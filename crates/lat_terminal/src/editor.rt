//! The editor of the lines that are typed in local mode.

ghost use Rattle.std.specs.Prelude.{◌≡◌, ◌≤◌, ◌<◌, ◌+◌, ◌-◌, ◌++◌, [], length, take, vec_capacity, vec_len};
ghost use Rattle.lat_terminal.specs.Editors.{echo_all, echo_bytes, ends_at, fresh_typing, line_after, line_echo, lines_all, stopped_line, typing_after, typing_echo, typing_next};

use crate::echo::{Echo, MOST_SHOWN};
use crate::key::Key;
use crate::line_state::LineState;
use arrayvec::ArrayVec;
use std::marker::Model;

/// Why the editor took in no more of a piece.
#[derive(Clone, Copy, PartialEq, Eq)]
pub enum Stop {
    /// All of it was taken in, and no line has ended.
    All,
    /// The last byte that was taken in ended the line.
    Line,
    /// No room is left for what the next byte may show.
    Room,
}

/// What the editor did with a piece.
#[derive(Clone, Copy)]
pub struct Fed {
    /// How many of the bytes were taken in.
    pub used: usize,
    /// Why no more of them were.
    pub stop: Stop,
}

/// A line that is being typed, of 128 bytes at most. Contracts see a `Typing`. `docs/PROTOCOL.md`, "Typed lines", has its rules.
#[derive(Drop)]
pub struct Editor {
    line: ArrayVec<u8, 128>,
    state: LineState,
}

impl Model for Editor {
    ghost use Rattle.lat_terminal.specs.Editors.{Typing};

    ghost Value = { Typing };

    ghost view = { λ a. record { line = a.line.items; state = a.state } };
}

// What a key does to a line, and what is shown of it.
fn press(line: &mut ArrayVec<u8, 128>, key: Key, byte: u8) -> Echo
    ensures line { line.new.items ≡ line_after line.old.items key byte }
    ensures echo { result ≡ line_echo line.old.items key byte }
{
    match key {
        Key::Text => {
            if line.is_full() {
                return Echo::Bell;
            }
            line.push(byte);
            Echo::Typed(byte)
        }
        Key::Erase => match line.pop() {
            Some(_) => Echo::Erased,
            None => Echo::Silent,
        },
        Key::Kill => {
            line.clear();
            Echo::Killed
        }
        Key::Reprint => Echo::Reprinted,
        Key::Return | Key::Feed => Echo::Ended,
        Key::Null => Echo::Silent,
        Key::Control => Echo::Bell,
    }
}

impl Editor {
    /// An editor into which nothing was typed.
    pub fn make() -> Editor
        ensures { result ≡ fresh_typing }
    {
        Editor {
            line: ArrayVec::new(),
            state: LineState::Open,
        }
    }

    /// The line as it stands. One that has ended stays until the next key.
    pub fn line(&self) -> &[u8]
        ensures line { result.now ≡ self.now.line }
        ensures short { length result.now ≤ 128 }
    {
        self.line.as_slice()
    }

    /// Takes in a byte, and says what is shown of it.
    pub fn hear(&mut self, byte: u8) -> Echo
        ensures state { self.new ≡ typing_next self.old byte }
        ensures echo { result ≡ typing_echo self.old byte }
    {
        let key = Key::of(byte);
        if self.state.joins(key) {
            self.state = LineState::Ended;
            return Echo::Silent;
        }
        if !self.state.is_open() {
            self.line.clear();
        }
        self.state = LineState::behind(key);
        press(&mut self.line, key, byte)
    }

    // Takes in a byte, puts what is shown of it behind what `out` has, and says whether it ended the line.
    fn type_byte(&mut self, prompt: &[u8], byte: u8, out: &mut Vec<u8>) -> bool
        requires { vec_len out.now + (length prompt.now + 132) ≤ vec_capacity out.now }
        ensures state { self.new ≡ typing_next self.old byte }
        ensures echo { out.new.items ≡ out.old.items ++ echo_bytes prompt.now self.old byte }
        ensures room { vec_capacity out.new ≡ vec_capacity out.old }
        ensures ends { result ≡ ends_at self.old byte }
    {
        let echo = self.hear(byte);
        echo.show(prompt, self.line(), out);
        matches!(echo, Echo::Ended)
    }

    /// Takes in a piece of what is typed, up to the end of a line at most, and puts what is shown of it behind what `out` has.
    /// It stops before `out` has less room than the prompt and `MOST_SHOWN` bytes need, and takes no memory.
    pub fn feed(&mut self, prompt: &[u8], bytes: &[u8], out: &mut Vec<u8>) -> Fed
        ensures used { result.used ≤ length bytes.now }
        ensures state { self.new ≡ typing_after self.old (take result.used bytes.now) }
        ensures echo { out.new.items ≡ out.old.items ++ echo_all prompt.now self.old (take result.used bytes.now) }
        ensures lines { lines_all self.old (take result.used bytes.now) ≡ stopped_line result.stop self.new.line }
        ensures first { result.stop ≡ Stop.Line → lines_all self.old (take (result.used - 1) bytes.now) ≡ [] }
        ensures all { result.stop ≡ Stop.All → result.used ≡ length bytes.now }
        ensures short { result.stop ≡ Stop.Room →
            (result.used < length bytes.now) × (vec_capacity out.new < vec_len out.new + (length prompt.now + 132)) }
        ensures room { vec_capacity out.new ≡ vec_capacity out.old }
    {
        for (at, byte) in bytes.iter().enumerate() {
            if out.capacity() - out.len() < prompt.len() + MOST_SHOWN {
                return Fed {
                    used: at,
                    stop: Stop::Room,
                };
            }
            if self.type_byte(prompt, *byte, out) {
                return Fed {
                    used: at + 1,
                    stop: Stop::Line,
                };
            }
        }
        Fed {
            used: bytes.len(),
            stop: Stop::All,
        }
    }
}
