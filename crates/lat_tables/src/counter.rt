//! The counters' names.

ghost use Rattle.std.specs.Prelude.{◌≡◌, ◌++◌, OnOk, string_bytes};
ghost use Rattle.lat_tables.specs.CounterNames.{counter_text, counter_word};

use lat_base::Field;
use std::alloc::AllocError;

/// What is counted. `docs/FORMATS.md`, "The control socket", says what each counts.
#[derive(Clone, Copy)]
pub enum Counter {
    Events,
    Heard,
    Sent,
    SentAgain,
    Stray,
    Foreign,
    StartsRefused,
    BytesPut,
    ItemsTaken,
    SessionsClosed,
    SessionsCircuit,
    SessionsUnseen,
    RejectedService,
    RejectedRequest,
    RejectedRoom,
    RejectedOther,
    IdsLeft,
    RecordsLeft,
    /// Frames whose first bad field it is.
    Bad(Field),
}

// The whole name of a counter, or what stands before the field.
fn counter_word(counter: Counter) -> &'static str
    ensures { result.now ≡ counter_word counter }
{
    match counter {
        Counter::Events => "events",
        Counter::Heard => "frames-heard",
        Counter::Sent => "frames-sent",
        Counter::SentAgain => "frames-sent-again",
        Counter::Stray => "frames-stray",
        Counter::Foreign => "frames-foreign",
        Counter::StartsRefused => "starts-refused",
        Counter::BytesPut => "bytes-put",
        Counter::ItemsTaken => "items-taken",
        Counter::SessionsClosed => "sessions-closed",
        Counter::SessionsCircuit => "sessions-circuit",
        Counter::SessionsUnseen => "sessions-unseen",
        Counter::RejectedService => "rejected-no-such-service",
        Counter::RejectedRequest => "rejected-no-such-request",
        Counter::RejectedRoom => "rejected-no-room",
        Counter::RejectedOther => "rejected-otherwise",
        Counter::IdsLeft => "circuit-ids-left",
        Counter::RecordsLeft => "request-records-left",
        Counter::Bad(_) => "bad-",
    }
}

/// Adds the name of a counter. After want of memory a part of it may stand in the text.
pub fn counter_onto(text: &mut String, counter: Counter) -> Result<(), AllocError>
    ensures { OnOk result (string_bytes text.new ≡ string_bytes text.old ++ counter_text counter) }
{
    text.push_str(counter_word(counter))?;
    match counter {
        Counter::Bad(field) => text.push_str(field.word()),
        _ => Ok(()),
    }
}
