//! What is kept of a client: the line that was begun, and what the client is owed.

ghost use Rattle.std.specs.Prelude.{◌≡◌, ◌⊎◌, ◌≤◌, ◌<◌, [], ◌∷◌, ◌++◌, length, drop, string_bytes, IfOk, OnOk, OnErr, Err};
ghost use Rattle.lat_control.specs.Answered.{AnsweredMore, Said};
ghost use Rattle.lat_control.specs.Lines.{line_at, lines_after, begun_after, begun_next, without_return};
ghost use Rattle.lat_control.specs.Sessions.{fresh_talk};

use crate::answers::Answers;
use crate::farewell::Farewell;
use arrayvec::ArrayVec;
use lat_base::Memory;
use lat_tale::Tale;
use std::alloc::Global;
use std::marker::Model;

/// The most bytes of a line, its line feed and a carriage return in front of it not counted.
pub const MOST_LINE: usize = 256;

/// The most bytes that a client may be owed: 1 MiB.
pub const MOST_OWED: usize = 1_048_576;

/// So many bytes of a line tell whether it is too long.
const KEPT: usize = 258;

const LONG_TEXT: &str = "? a line of at most 256 bytes expected\n";

/// What is kept of a client. Contracts see the line that was begun, whole, though no more than 258 bytes of it are kept; and
/// what the client is owed.
#[derive(Drop)]
pub struct Session {
    kept: ArrayVec<u8, 258>,
    begun: Tale<u8>,
    owed: Vec<u8>,
}

impl Model for Session {
    ghost use Rattle.std.specs.Prelude.{◌≡◌, take};
    ghost use Rattle.lat_control.specs.Sessions.{Talk};

    ghost Value = { Talk };

    ghost view = { λ a. record { begun = a.begun.items; owed = a.owed.items } };

    ghost invariant = { λ a. a.kept.items ≡ take 258 a.begun.items };
}

// A line without the carriage return at its end, if one is there.
fn without_return(line: &[u8]) -> &[u8]
    ensures { result.now ≡ without_return line.now }
{
    if !line.is_empty() && line[line.len() - 1] == b'\r' {
        return &line[..line.len() - 1];
    }
    line
}

// What a line is answered.
fn answer_to<A: Answers>(alloc: Global, answers: &mut A, line: &[u8]) -> Result<String, Memory>
    ensures { IfOk result (λ text. Said A.says line.now (string_bytes text)) }
{
    if line.len() > MOST_LINE {
        return Ok(String::from_str(alloc, LONG_TEXT)?);
    }
    answers.answer(alloc, line)
}

// An answer more is owed, with an empty line behind it.
fn owe(owed: &mut Vec<u8>, text: &[u8]) -> Result<(), Memory>
    ensures { OnOk result (owed.new.items ≡ owed.old.items ++ (text.now ++ 10 ∷ [])) }
{
    owed.extend_from_slice(text)?;
    owed.push(b'\n')?;
    Ok(())
}

impl Session {
    /// Nothing is kept, and nothing owed.
    pub fn make(alloc: Global) -> Session
        ensures { result ≡ fresh_talk }
    {
        Session {
            kept: ArrayVec::new(),
            begun: Tale::new(),
            owed: Vec::new(alloc),
        }
    }

    /// What the client is owed.
    pub fn owed(&self) -> &[u8]
        ensures { result.now ≡ self.now.owed }
    {
        self.owed.as_slice()
    }

    /// So many bytes of what it is owed were written.
    pub fn wrote(&mut self, count: usize)
        requires { count ≤ length self.old.owed }
        ensures { self.new ≡ record self.old { owed = drop count self.old.owed } }
    {
        self.owed.drain(..count);
    }

    // The line has ended: it is answered.
    fn end_line<A: Answers>(&mut self, alloc: Global, answers: &mut A) -> Result<(), Memory>
        ensures begun { OnOk result (self.new.begun ≡ []) }
        ensures owed { OnOk result (AnsweredMore A.says (without_return self.old.begun ∷ []) self.old.owed self.new.owed) }
    {
        let line = without_return(self.kept.as_slice());
        let text = answer_to(alloc, answers, line)?;
        owe(&mut self.owed, text.as_bytes())?;
        self.kept.clear();
        self.begun = Tale::new();
        Ok(())
    }

    // The line has one more byte.
    #[tactic(auto, using(crate::proofs::KeptLines::kept_more, crate::proofs::KeptLines::kept_full))]
    fn put(&mut self, byte: u8)
        ensures { self.new ≡ record self.old { begun = self.old.begun ++ byte ∷ [] } }
    {
        if self.kept.len() < KEPT {
            self.kept.push(byte);
        }
        self.begun = self.begun.and(&byte);
    }

    // Takes in a byte, and answers the line that it ends.
    fn hear<A: Answers>(&mut self, alloc: Global, answers: &mut A, byte: u8) -> Result<(), Memory>
        ensures begun { OnOk result (self.new.begun ≡ begun_next self.old.begun byte) }
        ensures owed { OnOk result (AnsweredMore A.says (line_at self.old.begun byte) self.old.owed self.new.owed) }
    {
        if byte == b'\n' {
            return self.end_line(alloc, answers);
        }
        self.put(byte);
        Ok(())
    }

    /// Takes in what a client gave, and answers each line that has ended. `Full` exactly where more than 1 MiB is owed behind one
    /// of the answers, `Memory` where none is found for one; behind both the session is over. Never another.
    pub fn feed<A: Answers>(
        &mut self,
        alloc: Global,
        answers: &mut A,
        bytes: &[u8],
    ) -> Result<(), Farewell>
        ensures begun { OnOk result (self.new.begun ≡ begun_after self.old.begun bytes.now) }
        ensures owed { OnOk result (AnsweredMore A.says (lines_after self.old.begun bytes.now) self.old.owed self.new.owed) }
        ensures most { OnOk result (length self.old.owed ≤ 1048576 → length self.new.owed ≤ 1048576) }
        ensures full { result ≡ Err Farewell.Full → 1048576 < length self.new.owed }
        ensures others { OnErr result ((result ≡ Err Farewell.Full) ⊎ (result ≡ Err Farewell.Memory)) }
    {
        for byte in bytes {
            if self.hear(alloc, answers, *byte).is_err() {
                return Err(Farewell::Memory);
            }
            if self.owed.len() > MOST_OWED {
                return Err(Farewell::Full);
            }
        }
        Ok(())
    }
}
