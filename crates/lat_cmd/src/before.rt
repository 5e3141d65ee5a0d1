//! The last event that a core refused in front of one that names a frame which isn't there.

ghost use Rattle.std.specs.Prelude.{◌≡◌, ◌++◌, ◌-◌, ◌∷◌, [], Some, None, OnOk, map, option_map, get_or, codes, decimal, string_bytes, if◌then◌else◌};
ghost use Rattle.lat_text.specs.Line as texts;
ghost use Rattle.lat_replay.specs.Played.{State, StandsAt};
ghost use Rattle.lat_wire.specs.Notes.{note_shown};
ghost use Rattle.lat_cmd.specs.Befores.{shown, is_refusal, refusal_info, last_refusal, before_why, before_told};

use lat_node::RatingRule;
use lat_replay::World;
use lat_schedule::LineNumbers;
use lat_wire::{Note, Noted, Refusal, Refused};
use std::alloc::AllocError;

/// Its line, and how it was refused.
#[derive(Clone, Copy)]
pub(crate) struct Before {
    pub(crate) line: u32,
    pub(crate) refusal: Refusal,
}

// A refusal that is noted, or what was found before.
#[tactic(auto, using(crate::proofs::Refusing::is_refused))]
fn newer(found: Option<(u64, Refusal)>, note: &Note) -> Option<(u64, Refusal)>
    ensures { option_map refusal_info result
        ≡ (if is_refusal (note_shown note.now).answer then Some (note_shown note.now) else option_map refusal_info found) }
{
    match note.noted {
        Noted::Refused(refusal) => Some((note.event, refusal)),
        Noted::Bad(_) | Noted::Broke(_) => found,
    }
}

// The last refusal among notes, with the number of its event.
fn last_refusal(notes: &[Note]) -> Option<(u64, Refusal)>
    ensures { option_map refusal_info result ≡ last_refusal (map note_shown notes.now) None }
{
    let mut found = None;
    for note in notes {
        found = newer(found, note);
    }
    found
}

// The line of an event, counted from 1.
fn line_of(lines: &LineNumbers, event: u64) -> u32
    ensures { result ≡ get_or lines.now (event - 1) 0 }
{
    lines.at((event as usize).saturating_sub(1))
}

/// In front of an event that is refused so, of a schedule whose events have these lines.
pub(crate) fn before_why<H: RatingRule>(
    world: &World<H>,
    lines: &LineNumbers,
    why: Refused,
) -> Option<Before>
    ensures { (t : State) → StandsAt world.now t →
        shown result ≡ before_why lines.now t.machines why }
{
    let Refused::NoFrame { .. } = why else {
        return None;
    };
    let (event, refusal) = last_refusal(world.wire().notes())?;
    let line = line_of(lines, event);
    Some(Before { line, refusal })
}

// The line of a refusal with this word.
fn line_onto(text: &mut String, number: u32, word: &str) -> Result<(), AllocError>
    ensures { OnOk result (string_bytes text.new ≡ string_bytes text.old
        ++ texts.line (codes "lat: line " ∷ decimal number ∷ codes ": refused before it: " ∷ word.now ∷ [])) }
{
    write!(text, "lat: line {number}: refused before it: {word}\n")
}

/// Adds what is told of it.
pub(crate) fn before_onto(text: &mut String, before: Option<Before>) -> Result<(), AllocError>
    ensures { OnOk result (string_bytes text.new
        ≡ string_bytes text.old ++ before_told (shown before)) }
{
    match before {
        Some(before) => line_onto(text, before.line, before.refusal.word()),
        None => Ok(()),
    }
}
