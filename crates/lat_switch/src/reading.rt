//! How the pieces of a put are read, one by one.

ghost use Rattle.std.specs.Prelude.{◌≡◌, ℕ, ◌≤◌, ◌<◌, ◌+◌, ◌&&◌, false, [], length, nat_eq, IsTrue, List};
ghost use Rattle.lat_base.specs.Answers.{PutFits, TookFits};
ghost use Rattle.lat_base.specs.declared.event.Event.{Event};
ghost use Rattle.lat_base.specs.declared.event.Event.TheVariants as events;
ghost use Rattle.lat_lines.specs.Kept.{IsLine};
ghost use Rattle.lat_server.specs.Kept.{HasSpare, Spends};
ghost use Rattle.lat_switch.specs.Kept.{IsValid, IsSame};
ghost use Rattle.lat_switch.specs.Pieces.{size_of, sizes};
ghost use Rattle.lat_switch.specs.Progress.{HasRead};
ghost use Rattle.lat_switch.specs.Reading.{Reading, accepted, is_closed, connects_own, reads, reads_run, reads_all, read_answer};
ghost use Rattle.lat_switch.specs.Stands.{HasCome, GoesAlong};
ghost use Rattle.lat_switch.specs.Switch.{Course, line_on};

use crate::piece::Piece;
use crate::switch::SwitchCore;
use lat_base::{Answer, Bytes, Event, OutBox};
use std::collections::VecDeque;

/// How far the bytes of a put were read.
#[derive(Clone, Copy)]
pub(crate) struct Progress {
    /// How many bytes.
    count: u16,
    goes_on: bool,
    /// Whether the put of the first byte was answered `Closed`.
    refused: bool,
}

fn accepted(answer: &Answer) -> u16
    ensures { result ≡ accepted answer.now }
{
    match answer {
        Answer::Put(n) => *n,
        _ => 0,
    }
}

fn is_closed(answer: &Answer) -> bool
    ensures { result ≡ is_closed answer.now }
{
    matches!(answer, Answer::Closed)
}

fn is_refused(count: u16, answer: &Answer) -> bool
    ensures { result ≡ (nat_eq count 0 && is_closed answer.now) }
{
    count == 0 && is_closed(answer)
}

fn size_of(bytes: &Bytes) -> usize
    ensures { result ≡ length bytes.now }
{
    bytes.as_slice().len()
}

fn are_all(taken: u16, size: usize) -> bool
    ensures { result ≡ nat_eq taken size }
{
    taken as usize == size
}

impl Progress {
    // One byte more was read.
    fn one_more(self) -> Progress
        requires { self.count < 65535 }
        ensures { result ≡ record self { count = self.count + 1 } }
    {
        Progress {
            count: self.count + 1,
            ..self
        }
    }

    // One byte more was read, the last one.
    fn last_one(self) -> Progress
        requires { self.count < 65535 }
        ensures { result ≡ record self { count = self.count + 1; goes_on = false } }
    {
        Progress {
            goes_on: false,
            ..self.one_more()
        }
    }

    /// What a put is answered that was read so far.
    pub(crate) fn answer(self) -> Answer
        ensures value { (r : Reading) → self.count ≡ r.count → self.refused ≡ r.refused →
            result ≡ read_answer r }
        ensures put { (line : ℕ) (bytes : List ℕ) → self.count ≤ length bytes →
            PutFits result (events.Put line bytes) }
        ensures took { (ready : ℕ → ℕ) (e : Event) → TookFits ready result e }
    {
        if self.refused {
            return Answer::Closed;
        }
        Answer::Put(self.count)
    }
}

impl SwitchCore {
    /// Reads the pieces of a put, in order. At most one of them connects, and there must be memory for its circuit.
    pub(crate) fn read(&mut self, line: u8, pieces: VecDeque<Piece>, out: &mut OutBox) -> Progress
        requires valid { IsValid self.old }
        requires line { IsLine (length self.old.lines) line }
        requires empty { out.old ≡ [] }
        requires memory { HasSpare 1 self.old.inner }
        requires size { sizes pieces.items ≤ 65535 }
        ensures valid { IsValid self.new }
        ensures same { IsSame self.old self.new }
        ensures reads { (c : Course) → HasCome c self.old out.old →
            HasRead (reads_all line pieces.items c) self.new result out.new }
        ensures count { result.count ≤ sizes pieces.items }
    {
        let mut pieces = pieces;
        let mut progress = Progress {
            count: 0,
            goes_on: true,
            refused: false,
        };
        while let Some(piece) = pieces.pop_front() {
            progress = self.read_piece(line, piece, progress, out);
        }
        progress
    }

    // Reads one piece. Once reading has ended, nothing more is read.
    fn read_piece(
        &mut self,
        line: u8,
        piece: Piece,
        progress: Progress,
        out: &mut OutBox,
    ) -> Progress
        requires valid { IsValid self.old }
        requires line { IsLine (length self.old.lines) line }
        requires empty { IsTrue progress.goes_on → out.old ≡ [] }
        requires memory { IsTrue progress.goes_on → HasSpare 1 self.old.inner }
        requires size { progress.count + size_of piece ≤ 65535 }
        ensures valid { IsValid self.new }
        ensures same { IsSame self.old self.new }
        ensures reads { (r : Reading) → HasRead r self.old progress out.old →
            HasRead (reads line r piece) self.new result out.new }
        ensures count { result.count ≤ progress.count + size_of piece }
        ensures quiet { IsTrue result.goes_on → out.new ≡ [] }
        ensures memory { IsTrue result.goes_on → HasSpare 1 self.new.inner }
    {
        if !progress.goes_on {
            return progress;
        }
        match piece {
            Piece::Run(bytes) => self.read_run(line, bytes, progress.count, out),
            Piece::Next => {
                self.show_next(line);
                progress.one_more()
            }
            Piece::Connect => {
                self.connect_own(line, out);
                progress.last_one()
            }
        }
    }

    // Puts a run on the shown inner line, so many bytes having been read before.
    fn read_run(&mut self, line: u8, bytes: Bytes, count: u16, out: &mut OutBox) -> Progress
        requires valid { IsValid self.old }
        requires line { IsLine (length self.old.lines) line }
        requires empty { out.old ≡ [] }
        requires size { count + length bytes ≤ 65535 }
        ensures valid { IsValid self.new }
        ensures same { IsSame self.old self.new }
        ensures reads { (r : Reading) → count ≡ r.count → HasCome r.course self.old out.old →
            HasRead (reads_run line r bytes) self.new result out.new }
        ensures count { result.count ≤ count + length bytes }
        ensures quiet { out.new ≡ [] }
        ensures spare { Spends 0 self.old.inner self.new.inner }
    {
        let size = size_of(&bytes);
        let shown = self.line_at(line).shown();
        let event = Event::Put { line: shown, bytes };
        let answer = self.tell(&event, out);
        let taken = accepted(&answer);
        let read = count + taken;
        Progress {
            count: read,
            goes_on: are_all(taken, size),
            refused: is_refused(count, &answer),
        }
    }

    // Connects one more session to the line's own service, where it has one.
    fn connect_own(&mut self, line: u8, out: &mut OutBox)
        requires valid { IsValid self.old }
        requires line { IsLine (length self.old.lines) line }
        requires memory { HasSpare 1 self.old.inner }
        requires empty { out.old ≡ [] }
        ensures valid { IsValid self.new }
        ensures same { IsSame self.old self.new }
        ensures does { GoesAlong (λ c. connects_own line c (line_on line c.state).service) self.old self.new out.old out.new }
    {
        let Some(service) = self.line_at(line).service() else {
            return;
        };
        let _ = self.connect(line, &service, out);
    }
}
