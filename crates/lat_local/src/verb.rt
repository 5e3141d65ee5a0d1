//! The first words of commands.

ghost use Rattle.std.specs.Prelude.{◌≡◌, find};
ghost use Rattle.std.specs.Option.{option_copied};
ghost use Rattle.lat_local.specs.Verbs.{all_verbs, verb_of, verb_word};
ghost use Rattle.lat_local.specs.Words.{begins};

use crate::words::begins;

/// The first word of a command.
#[derive(Clone, Copy, PartialEq, Eq)]
pub(crate) enum Verb {
    Connect,
    Disconnect,
    Help,
    Logout,
    Resume,
    Show,
}

impl Verb {
    fn word(self) -> &'static str
        ensures { result.now ≡ verb_word self }
    {
        match self {
            Verb::Connect => "connect",
            Verb::Disconnect => "disconnect",
            Verb::Help => "help",
            Verb::Logout => "logout",
            Verb::Resume => "resume",
            Verb::Show => "show",
        }
    }
}

fn is_cut(word: &[u8], verb: &Verb) -> bool
    ensures { result ≡ begins word.now (verb_word verb.now) }
{
    begins(word, verb.word().as_bytes())
}

fn verb_at<'a>(verbs: &'a [Verb], word: &[u8]) -> Option<&'a Verb>
    ensures { option_copied result ≡ find (λ v. begins word.now (verb_word v)) verbs.now }
{
    verbs.iter().find(|verb| is_cut(word, verb))
}

/// The verb that begins with this word.
pub(crate) fn verb_of(word: &[u8]) -> Option<Verb>
    ensures { result ≡ verb_of word.now }
{
    let verbs = [
        Verb::Connect,
        Verb::Disconnect,
        Verb::Help,
        Verb::Logout,
        Verb::Resume,
        Verb::Show,
    ];
    verb_at(&verbs, word).copied()
}
