//! The call that does all that the program `latd` does.

ghost use Rattle.std.specs.Prelude.{◌≡◌, ◌≢◌, ◌⊎◌, map, string_bytes, [], Ok};
ghost use Rattle.lat_history.specs.Ledgers.{AreBlanks};
ghost use Rattle.std.specs.Io.KnownBytes.{Appends};
ghost use Rattle.lat_words.specs.Reader.{words_of};
ghost use Rattle.lat_words.specs.declared.settings.Words.TheVariants as asks;
ghost use Rattle.lat_live.specs.declared.ran.Ran.TheVariants as ran;
ghost use Rattle.lat_live.specs.Printed.{AppendsPart, IsOwn, RoseIn};
ghost use Rattle.lat_live.specs.Served.{AreNoRun, AreRight, AreWrong, AskedOf, BackOf, HasPrinted, IsFaultOf, IsNotRun, IsRefusal, IsRoleOf, RefusedOf, refusal, version_text};

use crate::logging::Log;
use crate::ran::Served;
use crate::roles::serve_in_role;
use crate::said::say;
use lat_cell::Blanks;
use lat_outside::{Clock, Gate, PortOpener, Sink};
use lat_words::{Words, WordsFault, help_text, read_words};
use std::alloc::Global;
use std::sync::Wait;
use std::sync::ledger::Ledger;
use std::thread::Threads;

/// What is printed of the version.
const VERSION: &str = "latd 5.1\n";

// Says how the daemon is called.
fn help<S: Sink>(alloc: Global, out: &mut S) -> u8
    ensures status { (result ≡ 0) ⊎ ((result ≡ 5) ⊎ (result ≡ 9)) }
    ensures fault { result ≡ 5 → RoseIn S.faults out.old out.new }
    ensures silent { result ≡ 9 → S.written out.new ≡ S.written out.old }
{
    match help_text(alloc) {
        Ok(text) => say(out, text.as_str(), 0),
        Err(_) => 9,
    }
}

/// Does all that the program `latd` does: reads the words, the program's name first; opens the carrier and then the lines by rising
/// number; runs all workers of a cell at once, round the core that the words tell of, until each has ended; and prints what came of
/// it. What it has to say meanwhile goes to its log. The time at which it starts, in tenths of a second from any moment on that is the same at each start, gives the id of its
/// first circuit and a node's incarnation, so that it isn't taken for the daemon that ran before it. It may wait, and its return
/// isn't promised.
///
/// Where the words ask for help or for the version, that is written, and the status is 0. The status is 1 where the words aren't
/// right, with `words` written, and what is wrong is handed back; 4 only where the opener's count of faults rose, and 9 for want of
/// memory, with nothing written; 5 only where the sink's count of faults rose; else that of the last text. Where a cell is handed
/// back, what was written and the status are those that `print_end` gives of this cell, these shares and these ends, and the shares
/// are those of all its seats. `Ran::Not` comes only at 1, 4 and 9, and at 0 and 5 where the words don't ask that it runs.
pub fn serve<
    O: PortOpener,
    K: Clock + Copy + Send,
    G: Gate + Sync,
    W: Sink + Send,
    S: Sink,
    E: Ledger + Sync,
    B: Ledger + Sync,
    R: Threads + Wait + Sync,
>(
    rt: &R,
    alloc: Global,
    words: &[String],
    tenths: u64,
    blanks: Blanks,
    opener: &mut O,
    clock: K,
    gate: &G,
    log: Log<'_, W>,
    out: &mut S,
) -> Served<O::T, O::C, E, B>
    requires blanks { AreBlanks blanks E.name E.parts B.name B.parts }
    ensures wrong { result.status ≡ 1 → AreWrong (map string_bytes words.now) }
    ensures refused { AreWrong (map string_bytes words.now) → IsRefusal result.status }
    ensures told { IsFaultOf (words_of (map string_bytes words.now)) result.status result.wrong }
    ensures written { result.status ≡ 1 → Appends (S.written out.old) (S.written out.new) refusal }
    ensures part { AreWrong (map string_bytes words.now) → result.status ≡ 5 →
        AppendsPart (S.written out.old) (S.written out.new) refusal }
    ensures version { words_of (map string_bytes words.now) ≡ Ok asks.Version → result.status ≡ 0 →
        Appends (S.written out.old) (S.written out.new) version_text }
    ensures unopened { AreNoRun (map string_bytes words.now) → O.asked opener.new ≡ O.asked opener.old }
    ensures opener { result.status ≡ 4 → RoseIn O.faults opener.old opener.new }
    ensures port { RefusedOf (map string_bytes words.now) tenths (O.asked opener.old) (O.asked opener.new)
        result.status result.refused }
    ensures asked { result.ran ≢ ran.Not →
        AskedOf (map string_bytes words.now) tenths (O.asked opener.old) (O.asked opener.new) }
    ensures sink { result.status ≡ 5 → RoseIn S.faults out.old out.new }
    ensures silent { result.status ≡ 4 → S.written out.new ≡ S.written out.old }
    ensures memory { result.status ≡ 9 → S.written out.new ≡ S.written out.old }
    ensures right { AreRight (map string_bytes words.now) →
        IsOwn result.status
        ⊎ (RoseIn O.faults opener.old opener.new ⊎ RoseIn S.faults out.old out.new) }
    ensures not { result.ran ≡ ran.Not → IsNotRun (map string_bytes words.now) result.status }
    ensures empty { result.ran ≡ ran.Not →
        (result.shares ≡ []) × (result.ends ≡ []) × (result.lines ≡ []) }
    ensures role { IsRoleOf (map string_bytes words.now) result.ran }
    ensures ended { HasPrinted S.written S.faults out.old out.new result }
    ensures back { BackOf O.C.visits (map string_bytes words.now) result }
{
    match read_words(alloc, words) {
        Ok(Words::Run(settings)) => {
            serve_in_role(
                rt, alloc, &settings, tenths, blanks, opener, clock, gate, log, out,
            )
        }
        Ok(Words::Help) => Served::nothing(alloc, help(alloc, out), None),
        Ok(Words::Version) => Served::nothing(alloc, say(out, VERSION, 0), None),
        Err(WordsFault::Memory) => Served::nothing(alloc, 9, None),
        Err(fault) => Served::nothing(alloc, say(out, "words\n", 1), Some(fault)),
    }
}
