//! The words of what a core answers.

ghost use Rattle.std.specs.Prelude.{◌≡◌, ◌++◌, OnOk, string_bytes};
ghost use Rattle.lat_print.specs.AnswerWords.{answer_words, bad_words, connected_words, kept_of_words};

use crate::heard::heard_onto;
use crate::items::items_onto;
use crate::kept::kept_onto;
use lat_base::{Answer, Bad, Kept};
use std::alloc::{AllocError, Global};

fn bad_onto(text: &mut String, bad: Bad) -> Result<(), AllocError>
    ensures { OnOk result (string_bytes text.new ≡ string_bytes text.old ++ bad_words bad) }
{
    let (field, at) = (bad.field.word(), bad.at);
    write!(text, "bad {field} {at}")
}

fn connected_onto(text: &mut String, circuit: u16, session: u8) -> Result<(), AllocError>
    ensures { OnOk result (string_bytes text.new
        ≡ string_bytes text.old ++ connected_words circuit session) }
{
    write!(text, "connected circuit {circuit} session {session}")
}

fn request_onto(text: &mut String, kept: Kept) -> Result<(), AllocError>
    ensures { OnOk result (string_bytes text.new ≡ string_bytes text.old ++ kept_of_words kept) }
{
    text.push_str("kept ")?;
    kept_onto(text, kept)
}

/// Adds the words of what a core answers to an event, without a line feed. `docs/FORMATS.md`, "Answers", has them.
/// After want of memory a part of them may stand in the text.
pub fn answer_onto(alloc: Global, text: &mut String, answer: &Answer) -> Result<(), AllocError>
    ensures { OnOk result (string_bytes text.new
        ≡ string_bytes text.old ++ answer_words answer.now) }
{
    match answer {
        Answer::Circuit(heard) => heard_onto(text, *heard),
        Answer::Started(id) => write!(text, "started {id}"),
        Answer::Kept(kept) => request_onto(text, *kept),
        Answer::Bad(bad) => bad_onto(text, *bad),
        Answer::Connected { circuit, session } => connected_onto(text, *circuit, *session),
        Answer::Put(count) => write!(text, "put {count}"),
        Answer::Took(items) => {
            text.push_str("took ")?;
            items_onto(alloc, text, items.as_slice())
        }
        Answer::StartRefused => text.push_str("start-refused"),
        Answer::Announced => text.push_str("announced"),
        Answer::DirectoryFull => text.push_str("directory-full"),
        Answer::NotKept => text.push_str("not-kept"),
        Answer::Noted => text.push_str("noted"),
        Answer::Apart => text.push_str("apart"),
        Answer::Solicited => text.push_str("solicited"),
        Answer::Ignored => text.push_str("ignored"),
        Answer::Done => text.push_str("done"),
        Answer::NoLine => text.push_str("no-line"),
        Answer::Busy => text.push_str("busy"),
        Answer::NoService => text.push_str("no-service"),
        Answer::SessionsFull => text.push_str("sessions-full"),
        Answer::CircuitsFull => text.push_str("circuits-full"),
        Answer::IdsOut => text.push_str("ids-out"),
        Answer::Closed => text.push_str("closed"),
        Answer::Full => text.push_str("full"),
        Answer::IdUsed => text.push_str("id-used"),
        Answer::NotHere => text.push_str("not-here"),
        Answer::Halted => text.push_str("halted"),
    }
}
