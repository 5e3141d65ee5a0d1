//! A core is told the events of a record, and each answer is compared.

ghost use Rattle.std.specs.Prelude.{◌≡◌, ◌<◌, [], Ok, None, bytes_eq, length, option_map, IfOk, IfSome, OnOk, string_bytes};
ghost use Rattle.lat_print.specs.AnswerWords.{answer_words};
ghost use Rattle.lat_rerun.specs.Reruns.{differs_from, first_of, run_to};

use lat_base::{Answer, Core, Memory, OutBox};
use lat_print::answer_onto;
use lat_record::Entry;
use std::alloc::{AllocError, Global};

// The words of an answer.
fn words_of(alloc: Global, answer: &Answer) -> Result<String, AllocError>
    ensures { IfOk result (λ words. string_bytes words ≡ answer_words answer.now) }
{
    let mut words = String::new(alloc);
    answer_onto(alloc, &mut words, answer)?;
    Ok(words)
}

// Tells the core an event, and answers whether its answer has the words that stand there.
fn answers_so<C: Core>(
    alloc: Global,
    core: &mut C,
    entry: &Entry,
    out: &mut OutBox,
) -> Result<bool, Memory>
    requires valid { C.valid core.old }
    requires empty { out.old ≡ [] }
    ensures valid { C.valid core.new }
    ensures empty { out.new ≡ [] }
    ensures same { IfOk result (λ same.
        (s : C.State) → C.stands core.old s → same ≡ bytes_eq entry.now.answer (answer_words (C.answer s entry.now.event))) }
    ensures state { OnOk result ((s : C.State) →
        C.stands core.old s → C.stands core.new (C.next s entry.now.event)) }
{
    let answer = core.step(alloc, &entry.event, out)?;
    out.clear();
    let words = words_of(alloc, &answer)?;
    Ok(entry.answer.as_slice() == words.as_bytes())
}

// The first of the entries, and those behind it.
fn first_of(entries: &[Entry]) -> Option<(&Entry, &[Entry])>
    ensures value { option_map (λ r. (r.0.now, r.1.now)) result ≡ first_of entries.now }
    ensures shorter { IfSome result (λ r. length r.1.now < length entries.now) }
{
    match entries {
        [entry, behind @ ..] => Some((entry, behind)),
        [] => None,
    }
}

/// Tells the core these events, one after another, as long as each answer has the words that stand there. The place of the first
/// one that differs, counted from 0, where one does. `Memory` where none is found.
pub fn compare<C: Core>(
    alloc: Global,
    core: &mut C,
    entries: &[Entry],
) -> Result<Option<usize>, Memory>
    requires valid { C.valid core.old }
    ensures valid { C.valid core.new }
    ensures differs { IfOk result (λ found. (s : C.State) →
        C.stands core.old s → found ≡ differs_from C.next C.answer 0 s entries.now) }
    ensures state { result ≡ Ok None → (s : C.State) →
        C.stands core.old s → C.stands core.new (run_to C.next s entries.now) }
    ensures place { IfOk result (λ found. IfSome found (λ place. place < length entries.now)) }
{
    let mut out = OutBox::make(alloc)?;
    let mut rest = entries;
    let mut place = 0;
    while let Some((entry, behind)) = first_of(rest) {
        let same = answers_so(alloc, core, entry, &mut out)?;
        if !same {
            return Ok(Some(place));
        }
        place += 1;
        rest = behind;
    }
    Ok(None)
}
