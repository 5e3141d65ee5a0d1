//! The top call.

ghost use Rattle.std.specs.Prelude.{◌≡◌, ◌≢◌, ◌⊎◌, ◌<◌, ◌≤◌, None, Option, List, ℕ, map, length, codes, IfOk, IfSome, OnErr, Err, true, false, string_bytes};
ghost use Rattle.lat_outside.specs.Causes.{Rose};
ghost use Rattle.lat_outside.specs.declared.whole.ReadEnd.TheVariants as ends;
ghost use Rattle.lat_wire.specs.Rates.{RatesWhatIsLeft};
ghost use Rattle.lat_cmd.specs.Answers.{plain, answer_of, answer_to, input_of};
ghost use Rattle.lat_cmd.specs.Commands.{command_of, reads, IsBounded, IsStatusOf};
ghost use Rattle.lat_cmd.specs.Befores.{shown, before_of};
ghost use Rattle.lat_cmd.specs.Explanations.{explained, TellsEnd, TellsRun};
ghost use Rattle.lat_cmd.specs.Help.{words_answer};
ghost use Rattle.lat_cmd.specs.Laws.{ObeysLaw, KeepsPromises};
ghost use Rattle.lat_cmd.specs.Outcomes.{IsEarly, IsOutcome, WritesAnswer, Answers, WorldWhereDone};
ghost use Rattle.lat_explain.specs.RefusedExplained.{bytes_explained};
ghost use Rattle.lat_explain.specs.WordsExplained.{words_explained};
ghost use Rattle.lat_cmd.specs.Runs.{IsRead, IsRunOf};

use crate::answer::answered;
use crate::command::{Command, command_of};
use crate::end::{RunEnd, end_with};
use crate::explain::{explained, limit_explained, tell_end, tell_why, words_told};
use crate::help::words_answer;
use crate::outcome::Outcome;
use lat_base::Memory;
use lat_node::RatingRule;
use lat_outside::{ReadEnd, Sink, Source, read_all};
use std::alloc::Global;

/// How many bytes of input are read at most.
pub const INPUT_BYTES: usize = 16_777_216;

// What the command reads: all that the source has left, or nothing.
fn input_of<S: Source>(alloc: Global, command: Command, src: &mut S) -> Result<Vec<u8>, ReadEnd>
    ensures all { IfOk result (λ input. IsRead command (S.left src.old) input.items) }
    ensures limit { result ≡ Err ends.Limit →
        IfSome (input_of command (S.left src.old)) (λ xs. 16777216 < length xs) }
    ensures fault { result ≡ Err ends.Fault → Rose (S.faults src.old) (S.faults src.new) }
    ensures later { S.faults src.old ≤ S.faults src.new }
    ensures reads { OnErr result (reads command ≡ true) }
    ensures unread { reads command ≡ false → src.new ≡ src.old }
{
    if command.reads() {
        read_all(alloc, src, INPUT_BYTES)
    } else {
        Ok(Vec::new(alloc))
    }
}

// Writes the outcome of a command to an input, and why it isn't all that was asked for.
fn write_outcome<K: Sink, E: Sink, H: RatingRule>(
    alloc: Global,
    command: Command,
    input: &[u8],
    outcome: Outcome<H>,
    out: &mut K,
    err: &mut E,
) -> RunEnd<H>
    requires outcome { IsOutcome (answer_to command input.now) outcome }
    requires before { shown outcome.before ≡ before_of command input.now }
    ensures tells { WritesAnswer (answer_to command input.now) result (K.written out.old) (K.written out.new) }
    ensures told { TellsEnd result.status
        (explained command input.now (answer_to command input.now).status (answer_to command input.now).text
        (before_of command input.now))
        (E.written err.old) (E.written err.new) (E.faults err.old) (E.faults err.new) }
    ensures quiet { result.status ≡ 0 → err.new ≡ err.old }
    ensures status { (result.status ≡ (answer_to command input.now).status) ⊎ (result.status ≡ 5) }
    ensures fault { result.status ≡ 5 → Rose (K.faults out.old) (K.faults out.new) }
    ensures later { (K.faults out.old ≤ K.faults out.new) × (E.faults err.old ≤ E.faults err.new) }
{
    let Outcome {
        status,
        text,
        world,
        before,
    } = outcome;
    let why = explained(alloc, command, input, status, text.as_str(), before);
    let end = end_with(out, status, text.as_str(), world);
    tell_why(err, end.status, &why);
    end
}

// Writes the answer of a command to an input.
fn write_answer<K: Sink, E: Sink, H: RatingRule>(
    alloc: Global,
    command: Command,
    rule: H,
    input: &[u8],
    out: &mut K,
    err: &mut E,
) -> RunEnd<H>
    requires fact { H.fact rule }
    requires rates { RatesWhatIsLeft (H.may rule) }
    requires bounded { IsBounded command }
    ensures run { (left : Option (List ℕ)) →
        IsRead command left input.now →
        IsRunOf command left result (K.written out.old) (K.written out.new) }
    ensures status { result.status ≢ 4 }
    ensures write { result.status ≡ 5 → Rose (K.faults out.old) (K.faults out.new) }
    ensures unwritten { result.status ≡ 9 → out.new ≡ out.old }
    ensures told { (left : Option (List ℕ)) →
        IsRead command left input.now →
        TellsRun command left result.status
        (E.written err.old) (E.written err.new) (E.faults err.old) (E.faults err.new) }
    ensures quiet { result.status ≡ 0 → err.new ≡ err.old }
    ensures later { (K.faults out.old ≤ K.faults out.new) × (E.faults err.old ≤ E.faults err.new) }
{
    match answered(alloc, command, rule, input) {
        Ok(outcome) => write_outcome(alloc, command, input, outcome, out, err),
        Err(Memory) => lost(err, 9),
    }
}

// A run that ended before it wrote.
fn lost<E: Sink, H: RatingRule>(err: &mut E, status: u8) -> RunEnd<H>
    requires { IsEarly status }
    ensures end { result ≡ record { status = status; world = None } }
    ensures told { (why : List ℕ) → TellsEnd result.status why
        (E.written err.old) (E.written err.new) (E.faults err.old) (E.faults err.new) }
    ensures later { E.faults err.old ≤ E.faults err.new }
{
    tell_end(err, status, "");
    RunEnd::of(status)
}

// An input that is too long.
fn too_long<K: Sink, E: Sink, H: RatingRule>(alloc: Global, out: &mut K, err: &mut E) -> RunEnd<H>
    ensures tells { WritesAnswer (plain (6, codes "limit bytes\n")) result (K.written out.old) (K.written out.new) }
    ensures told { TellsEnd result.status bytes_explained
        (E.written err.old) (E.written err.new) (E.faults err.old) (E.faults err.new) }
    ensures status { (result.status ≡ 6) ⊎ (result.status ≡ 5) }
    ensures fault { result.status ≡ 5 → Rose (K.faults out.old) (K.faults out.new) }
    ensures later { (K.faults out.old ≤ K.faults out.new) × (E.faults err.old ≤ E.faults err.new) }
{
    let why = limit_explained(alloc);
    let end = end_with(out, 6, "limit bytes\n", None);
    tell_why(err, end.status, &why);
    end
}

// Reads what a command reads, and writes its answer.
fn obeyed<S: Source, K: Sink, E: Sink, H: RatingRule>(
    alloc: Global,
    command: Command,
    rule: H,
    src: &mut S,
    out: &mut K,
    err: &mut E,
) -> RunEnd<H>
    requires fact { H.fact rule }
    requires rates { RatesWhatIsLeft (H.may rule) }
    requires bounded { IsBounded command }
    ensures run { IsRunOf command (S.left src.old) result (K.written out.old) (K.written out.new) }
    ensures unread { reads command ≡ false → src.new ≡ src.old }
    ensures read { result.status ≡ 4 → Rose (S.faults src.old) (S.faults src.new) }
    ensures write { result.status ≡ 5 → Rose (K.faults out.old) (K.faults out.new) }
    ensures unwritten { IsEarly result.status → out.new ≡ out.old }
    ensures told { TellsRun command (S.left src.old) result.status
        (E.written err.old) (E.written err.new) (E.faults err.old) (E.faults err.new) }
    ensures quiet { result.status ≡ 0 → err.new ≡ err.old }
    ensures later { (S.faults src.old ≤ S.faults src.new)
        × ((K.faults out.old ≤ K.faults out.new) × (E.faults err.old ≤ E.faults err.new)) }
{
    match input_of(alloc, command, src) {
        Ok(input) => write_answer(alloc, command, rule, &input, out, err),
        Err(ReadEnd::Fault) => lost(err, 4),
        Err(ReadEnd::Limit) => too_long(alloc, out, err),
        Err(ReadEnd::Memory) => lost(err, 9),
    }
}

// Words that are no command: what is printed of the program itself, where they ask for it.
fn said<K: Sink, E: Sink, H: RatingRule>(
    alloc: Global,
    words: &[String],
    out: &mut K,
    err: &mut E,
) -> RunEnd<H>
    ensures answer { WritesAnswer (plain (words_answer (map string_bytes words.now)))
        result (K.written out.old) (K.written out.new) }
    ensures told { TellsEnd result.status (words_explained (map string_bytes words.now))
        (E.written err.old) (E.written err.new) (E.faults err.old) (E.faults err.new) }
    ensures status { (result.status ≡ 0) ⊎ ((result.status ≡ 1) ⊎ (result.status ≡ 5)) }
    ensures quiet { result.status ≡ 0 → err.new ≡ err.old }
    ensures fault { result.status ≡ 5 → Rose (K.faults out.old) (K.faults out.new) }
    ensures later { (K.faults out.old ≤ K.faults out.new) × (E.faults err.old ≤ E.faults err.new) }
{
    let (status, text) = words_answer(words);
    let why = words_told(alloc, words);
    let end = end_with(out, status, text, None);
    tell_why(err, end.status, &why);
    end
}

/// Does all that the program does with these words behind its name, and answers its status (`docs/USE.md`):
///
/// - 0: the whole output of the command was written, or what the words asked of the program itself;
/// - 1: the words are no command; nothing was read, and `words` was written;
/// - 2: the input isn't of the command's form; `line N form` was written, N the first wrong line, counted from 1; of `pcap`
///   what stands in front of the first wrong part, and `bad PART PLACE`;
/// - 3: an event of the schedule, or of a round, is refused; the line that says why was written, of `trace` behind all that
///   happened before it, and of `draw` as the last words of the picture;
/// - 4: a read failed; nothing was written;
/// - 5: a write failed; a prefix of the output was written;
/// - 6: the input has more than 16,777,216 bytes, the schedule more than 100,000 events (of `draw` 2,000), or its world sent too
///   many frames; the line that says so was written;
/// - 9: no memory was found; nothing was written.
///
/// Beside each status but 0 an explanation is written to `err`, the standard error; at 0 nothing is. It reads the source to its
/// end before it writes, and makes its whole output first; `gen` and `bench` read nothing. It makes at most one world, and hands
/// it back where it answers 0. The rule of rating, the node's, has one answer: the least of 255 and the lines that are left.
pub fn run<S: Source, K: Sink, E: Sink, H: RatingRule>(
    alloc: Global,
    words: &[String],
    rule: H,
    src: &mut S,
    out: &mut K,
    err: &mut E,
) -> RunEnd<H>
    requires fact { H.fact rule }
    requires rates { RatesWhatIsLeft (H.may rule) }

    // The words are no command: nothing is read; what they ask of the program itself is written, or that they are wrong, and what
    // was expected is told.
    ensures words { command_of (map string_bytes words.now) ≡ None →
        WritesAnswer (plain (words_answer (map string_bytes words.now)))
        result (K.written out.old) (K.written out.new)
        × (TellsEnd result.status (words_explained (map string_bytes words.now))
        (E.written err.old) (E.written err.new) (E.faults err.old) (E.faults err.new)
        × (src.new ≡ src.old)) }

    // They are one: unless a read or a write fails or no memory is found, the answer to the input, and the world that it tells of.
    ensures answer { IfSome (command_of (map string_bytes words.now)) (λ c.
        IfSome (input_of c (S.left src.old)) (λ input.
        Answers (answer_of c input) result (K.written out.old) (K.written out.new))) }
    ensures status { IfSome (command_of (map string_bytes words.now)) (λ c.
        IsStatusOf c result.status) }
    ensures world { IfSome (command_of (map string_bytes words.now)) (λ c.
        WorldWhereDone c result.status result.world) }
    ensures unread { IfSome (command_of (map string_bytes words.now)) (λ c.
        reads c ≡ false → src.new ≡ src.old) }

    // Beside a status that isn't 0 the explanation is told, and beside 0 nothing.
    ensures told { IfSome (command_of (map string_bytes words.now)) (λ c.
        TellsRun c (S.left src.old) result.status
        (E.written err.old) (E.written err.new) (E.faults err.old) (E.faults err.new)) }
    ensures quiet { result.status ≡ 0 → err.new ≡ err.old }

    // What it prints of a circuit is `none`, or `audit` finds it legal; and where nothing was lost, enough rounds bring all that
    // was put, and are refused for the number of frames alone. To the schedule that it generates `replay` answers 0, with the
    // report of the world that is handed back.
    ensures law { IfSome (command_of (map string_bytes words.now)) (λ c.
        ObeysLaw c (S.left src.old) result.status (K.written out.old) (K.written out.new)) }

    // The world that it hands back stands for two machines that keep what both ends are promised, order, credits, grants and one
    // span; and a frame of no layout changes nothing.
    ensures promises { IfSome result.world (λ k. KeepsPromises k) }

    // Each fault has its cause, and want of memory or a failed read writes nothing.
    ensures read { result.status ≡ 4 → Rose (S.faults src.old) (S.faults src.new) }
    ensures write { result.status ≡ 5 → Rose (K.faults out.old) (K.faults out.new) }
    ensures unwritten { IsEarly result.status → out.new ≡ out.old }
    ensures later { (S.faults src.old ≤ S.faults src.new)
        × ((K.faults out.old ≤ K.faults out.new) × (E.faults err.old ≤ E.faults err.new)) }
{
    match command_of(words) {
        Some(command) => obeyed(alloc, command, rule, src, out, err),
        None => said(alloc, words, out, err),
    }
}
