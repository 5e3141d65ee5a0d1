//! The words of a line.

ghost use Rattle.std.specs.Prelude.{◌≡◌, ◌==◌, ◌<◌, position, option_map, length, IfSome};
ghost use Rattle.lat_text.specs.Words.{space, first_word, behind_word};

fn word_end(text: &[u8]) -> Option<usize>
    ensures { result ≡ position (λ b. b == space) text.now }
{
    text.iter().position(|byte| *byte == b' ')
}

/// The word in front of a text's first space, and the text behind that space. None where it has no space.
pub fn first_word(text: &[u8]) -> Option<(&[u8], &[u8])>
    ensures { option_map (λ r. (r.0.now, r.1.now)) result ≡ first_word text.now }
{
    let end = word_end(text)?;
    let (word, _) = text.split_at(end);
    let (_, behind) = text.split_at(end + 1);
    Some((word, behind))
}

/// What stands behind this word and a space, where a text begins with them.
pub fn behind_word<'a>(word: &str, text: &'a [u8]) -> Option<&'a [u8]>
    ensures { option_map (λ r. r.now) result ≡ behind_word word.now text.now }
{
    let (first, behind) = first_word(text)?;
    if first == word.as_bytes() {
        Some(behind)
    } else {
        None
    }
}
