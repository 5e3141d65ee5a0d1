//! The words for what an end is told.

ghost use Rattle.std.specs.Prelude.{◌≡◌, true, IsTrue};
ghost use Rattle.lat_schedule.specs.declared.setup_line.Version.TheVariants.{Three};
ghost use Rattle.lat_schedule.specs.Verbs.{verb_of, is_third, may_say, verb_word};

use crate::setup_line::Version;

/// What an end is told: the word behind its letter, where something stands behind that word.
#[derive(Clone, Copy)]
pub enum Verb {
    Connect,
    Put,
    Set,
    Take,
    Attend,
    Close,
    Time,
    Request,
    Cancel,
    Avoid,
    Ready,
}

impl Verb {
    /// The verb of a word. None where the word is none.
    pub fn of(word: &[u8]) -> Option<Verb>
        ensures { result ≡ verb_of word.now }
    {
        if word == "put".as_bytes() {
            Some(Verb::Put)
        } else if word == "take".as_bytes() {
            Some(Verb::Take)
        } else if word == "time".as_bytes() {
            Some(Verb::Time)
        } else if word == "connect".as_bytes() {
            Some(Verb::Connect)
        } else if word == "set".as_bytes() {
            Some(Verb::Set)
        } else if word == "attend".as_bytes() {
            Some(Verb::Attend)
        } else if word == "close".as_bytes() {
            Some(Verb::Close)
        } else if word == "request".as_bytes() {
            Some(Verb::Request)
        } else if word == "cancel".as_bytes() {
            Some(Verb::Cancel)
        } else if word == "avoid".as_bytes() {
            Some(Verb::Avoid)
        } else if word == "ready".as_bytes() {
            Some(Verb::Ready)
        } else {
            None
        }
    }

    /// Its word.
    pub fn word(self) -> &'static str
        ensures { result.now ≡ verb_word self }
    {
        match self {
            Verb::Connect => "connect",
            Verb::Put => "put",
            Verb::Set => "set",
            Verb::Take => "take",
            Verb::Attend => "attend",
            Verb::Close => "close",
            Verb::Time => "time",
            Verb::Request => "request",
            Verb::Cancel => "cancel",
            Verb::Avoid => "avoid",
            Verb::Ready => "ready",
        }
    }

    /// Whether this end may be told it in a text of this version: a server alone connects, and avoids and readies in the
    /// third; a node alone requests and cancels.
    pub fn may_be_told(self, version: Version, server: bool) -> bool
        ensures value { result ≡ may_say version server self }
        ensures third { result ≡ true → IsTrue (may_say Three server self) }
    {
        match self {
            Verb::Connect => server,
            Verb::Avoid | Verb::Ready => is_third(version) && server,
            Verb::Request | Verb::Cancel => !server,
            _ => true,
        }
    }
}

/// Whether a text of this version tells of a halt, of an avoid and of lines that get or aren't ready.
pub fn is_third(version: Version) -> bool
    ensures { result ≡ is_third version }
{
    match version {
        Version::One | Version::Two => false,
        Version::Three => true,
    }
}
