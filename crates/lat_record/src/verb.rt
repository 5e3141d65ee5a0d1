//! The first words of events.

ghost use Rattle.std.specs.Prelude.{◌≡◌};
ghost use Rattle.lat_record.specs.EntryRead.{called, verb_of};

/// What an event is, by its first word.
#[derive(Clone, Copy)]
pub enum Verb {
    Heard,
    Time,
    Connect,
    Put,
    Set,
    Take,
    Attend,
    Close,
    Request,
    Cancel,
    Announce,
    Avoid,
    Ready,
    Halt,
}

// The verbs of lines and requests.
fn called(word: &[u8]) -> Option<Verb>
    ensures { result ≡ called word.now }
{
    if word == "connect".as_bytes() {
        Some(Verb::Connect)
    } else if word == "set".as_bytes() {
        Some(Verb::Set)
    } else if word == "attend".as_bytes() {
        Some(Verb::Attend)
    } else if word == "close".as_bytes() {
        Some(Verb::Close)
    } else if word == "request".as_bytes() {
        Some(Verb::Request)
    } else if word == "cancel".as_bytes() {
        Some(Verb::Cancel)
    } else if word == "avoid".as_bytes() {
        Some(Verb::Avoid)
    } else if word == "ready".as_bytes() {
        Some(Verb::Ready)
    } else {
        None
    }
}

impl Verb {
    /// The verb of a word. None where the word is none.
    pub fn of(word: &[u8]) -> Option<Verb>
        ensures { result ≡ verb_of word.now }
    {
        if word == "heard".as_bytes() {
            Some(Verb::Heard)
        } else if word == "put".as_bytes() {
            Some(Verb::Put)
        } else if word == "take".as_bytes() {
            Some(Verb::Take)
        } else if word == "time".as_bytes() {
            Some(Verb::Time)
        } else if word == "announce".as_bytes() {
            Some(Verb::Announce)
        } else if word == "halt".as_bytes() {
            Some(Verb::Halt)
        } else {
            called(word)
        }
    }
}
