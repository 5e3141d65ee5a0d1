//! What may stand behind the last number of an end's line.

ghost use Rattle.std.specs.Prelude.{◌≡◌, ◌≤◌, IfSome, option_map};
ghost use Rattle.lat_text.specs.Words.{first_word};
ghost use Rattle.lat_schedule.specs.Openings.{plain, before_prompt, first_of, words_of, said_by, opening_of};

use crate::numbers::short_within;
use crate::setup_line::Version;
use lat_text::{behind_word, first_word};

/// How an end begins.
#[derive(Clone, Copy)]
pub struct Opening {
    /// The id of its first circuit, 1 to 65,535.
    pub first: u16,
    pub prompt: bool,
}

// Where no word says otherwise.
fn plain() -> Opening
    ensures { result ≡ plain }
{
    Opening {
        first: 1,
        prompt: false,
    }
}

fn before_prompt(text: &[u8]) -> (&[u8], bool)
    ensures { (result.0.now, result.1) ≡ before_prompt text.now }
{
    match first_word(text) {
        Some((before, last)) if last == "prompt".as_bytes() => (before, true),
        _ => (text, false),
    }
}

// Behind `first `: the id, and `prompt` or not.
fn first_of(text: &[u8]) -> Option<Opening>
    ensures value { result ≡ first_of text.now }
    ensures fits { IfSome result (λ opening. (1 ≤ opening.first) × (opening.first ≤ 65535)) }
{
    let (id, prompt) = before_prompt(text);
    let first = short_within(1, 65535, id)?;
    Some(Opening { first, prompt })
}

// `prompt`, `first N` or `first N prompt`.
fn words_of(text: &[u8]) -> Option<Opening>
    ensures value { result ≡ words_of text.now }
    ensures fits { IfSome result (λ opening. (1 ≤ opening.first) × (opening.first ≤ 65535)) }
{
    if text == "prompt".as_bytes() {
        return Some(Opening {
            first: 1,
            prompt: true,
        });
    }
    first_of(behind_word("first", text)?)
}

fn said_by(text: &[u8]) -> Option<(&[u8], Opening)>
    ensures value { option_map (λ r. (r.0.now, r.1)) result ≡ said_by text.now (first_word text.now) }
    ensures fits { IfSome result (λ r. (1 ≤ r.1.first) × (r.1.first ≤ 65535)) }
{
    match first_word(text) {
        None => Some((text, plain())),
        Some((number, words)) => {
            let opening = words_of(words)?;
            Some((number, opening))
        }
    }
}

/// The last number of an end's line, and what the words behind it say: `first N` and `prompt`, in this order, each or not.
/// The first two versions have no such words.
pub fn opening_of(version: Version, text: &[u8]) -> Option<(&[u8], Opening)>
    ensures value { option_map (λ r. (r.0.now, r.1)) result ≡ opening_of version text.now }
    ensures fits { IfSome result (λ r. (1 ≤ r.1.first) × (r.1.first ≤ 65535)) }
{
    match version {
        Version::One | Version::Two => Some((text, plain())),
        Version::Three => said_by(text),
    }
}
