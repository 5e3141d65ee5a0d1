//! The words of a typed line.

ghost use Rattle.std.specs.Prelude.{◌≡◌, ◌==◌, not, position};
ghost use Rattle.std.specs.Str.{str_eq_ignore_ascii_case};
ghost use Rattle.lat_local.specs.Words.{begins, blank, next_word, split_word, without_blanks};

fn word_start(text: &[u8]) -> Option<usize>
    ensures { result ≡ position (λ b. not (b == blank)) text.now }
{
    text.iter().position(|byte| *byte != b' ')
}

fn word_end(text: &[u8]) -> Option<usize>
    ensures { result ≡ position (λ b. b == blank) text.now }
{
    text.iter().position(|byte| *byte == b' ')
}

fn without_blanks(text: &[u8]) -> &[u8]
    ensures { result.now ≡ without_blanks text.now }
{
    match word_start(text) {
        Some(at) => {
            let (_, rest) = text.split_at(at);
            rest
        }
        None => &[],
    }
}

fn split_word(text: &[u8]) -> (&[u8], &[u8])
    ensures { (result.0.now, result.1.now) ≡ split_word text.now }
{
    match word_end(text) {
        Some(at) => text.split_at(at),
        None => (text, &[]),
    }
}

/// The first word of a text, empty where it has none, and the text behind it. Words stand between blanks.
pub(crate) fn next_word(text: &[u8]) -> (&[u8], &[u8])
    ensures { (result.0.now, result.1.now) ≡ next_word text.now }
{
    split_word(without_blanks(text))
}

/// Whether the two are the same without regard to case.
pub(crate) fn is_same(word: &[u8], whole: &[u8]) -> bool
    ensures { result ≡ str_eq_ignore_ascii_case word.now whole.now }
{
    word.eq_ignore_ascii_case(whole)
}

/// Whether the whole word begins with this one, without regard to case.
pub(crate) fn begins(word: &[u8], whole: &[u8]) -> bool
    ensures { result ≡ begins word.now whole.now }
{
    if word.len() <= whole.len() {
        let (front, _) = whole.split_at(word.len());
        is_same(word, front)
    } else {
        false
    }
}
