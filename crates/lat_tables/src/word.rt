//! The words of a line, between which blanks stand.

ghost use Rattle.std.specs.Prelude.{◌≡◌, ◌==◌, ◌<◌, ◌≤◌, IfSome, length, position};
ghost use Rattle.lat_text.specs.Words.{space};
ghost use Rattle.lat_tables.specs.Commands.{next_word, unblanked, word_end};

// A text from its first byte on that is no blank.
fn unblanked(text: &[u8]) -> &[u8]
    ensures { result.now ≡ unblanked text.now }
{
    let mut rest = text;
    while let [b' ', behind @ ..] = rest {
        rest = behind;
    }
    rest
}

/// Whether no word stands in a text.
pub fn is_blank(text: &[u8]) -> bool
    ensures { result ≡ (length (unblanked text.now) == 0) }
{
    unblanked(text).is_empty()
}

// The place of the first blank.
fn blank_at(text: &[u8]) -> Option<usize>
    ensures value { result ≡ position (λ b. b == space) text.now }
    ensures within { IfSome result (λ at. at < length text.now) }
{
    text.iter().position(|byte| *byte == b' ')
}

fn word_end(text: &[u8]) -> usize
    ensures value { result ≡ word_end text.now }
    ensures within { result ≤ length text.now }
{
    match blank_at(text) {
        Some(end) => end,
        None => text.len(),
    }
}

/// The first word of a text, which is empty where it has none, and what stands behind that word.
pub fn next_word(text: &[u8]) -> (&[u8], &[u8])
    ensures { (result.0.now, result.1.now) ≡ next_word text.now }
{
    let rest = unblanked(text);
    rest.split_at(word_end(rest))
}
