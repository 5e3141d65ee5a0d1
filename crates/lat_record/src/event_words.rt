//! The words of events in print.

ghost use Rattle.std.specs.Prelude.{◌≡◌, ◌++◌, OnOk, string_bytes};
ghost use Rattle.lat_record.specs.EventWords.{event_words, heard_words, request_words};
ghost use Rattle.lat_schedule.specs.EventText.{told_text};

use lat_base::{Addr, Event, Name};
use lat_text::{address_onto, byte_onto, flag_text, hex_onto, name_onto};
use std::alloc::{AllocError, Global};

fn heard_onto(
    alloc: Global,
    text: &mut String,
    from: Addr,
    payload: &[u8],
    now: u64,
) -> Result<(), AllocError>
    ensures { OnOk result (string_bytes text.new
        ≡ string_bytes text.old ++ heard_words from payload.now now) }
{
    write!(text, "heard {now} ")?;
    address_onto(text, from)?;
    text.push_str(" ")?;
    hex_onto(alloc, text, payload)
}

fn request_onto(text: &mut String, to: Addr, id: u16, service: &Name) -> Result<(), AllocError>
    ensures { OnOk result (string_bytes text.new
        ≡ string_bytes text.old ++ request_words to id service.now) }
{
    write!(text, "request {id} ")?;
    name_onto(text, service)?;
    text.push_str(" ")?;
    address_onto(text, to)
}

fn connect_onto(text: &mut String, line: u8, service: &Name) -> Result<(), AllocError>
    ensures { OnOk result (string_bytes text.new
        ≡ string_bytes text.old ++ told_text (Event.Connect line service.now)) }
{
    write!(text, "connect {line} ")?;
    name_onto(text, service)
}

fn put_onto(alloc: Global, text: &mut String, line: u8, bytes: &[u8]) -> Result<(), AllocError>
    ensures { OnOk result (string_bytes text.new
        ≡ string_bytes text.old ++ told_text (Event.Put line bytes.now)) }
{
    write!(text, "put {line} ")?;
    hex_onto(alloc, text, bytes)
}

fn set_onto(alloc: Global, text: &mut String, line: u8, setting: &[u8]) -> Result<(), AllocError>
    ensures { OnOk result (string_bytes text.new
        ≡ string_bytes text.old ++ told_text (Event.Set line setting.now)) }
{
    write!(text, "set {line} ")?;
    hex_onto(alloc, text, setting)
}

fn attend_onto(text: &mut String, line: u8, flag: u8) -> Result<(), AllocError>
    ensures { OnOk result (string_bytes text.new
        ≡ string_bytes text.old ++ told_text (Event.Attend line flag)) }
{
    write!(text, "attend {line} ")?;
    byte_onto(text, flag)
}

fn ready_onto(text: &mut String, line: u8, ready: bool) -> Result<(), AllocError>
    ensures { OnOk result (string_bytes text.new
        ≡ string_bytes text.old ++ told_text (Event.Ready line ready)) }
{
    let flag = flag_text(ready);
    write!(text, "ready {line} {flag}")
}

/// Adds the words of an event to a text: those of a schedule behind the letter of an end, where it has them. After want of
/// memory a part of them may stand in the text.
pub(crate) fn words_onto(alloc: Global, text: &mut String, event: &Event) -> Result<(), AllocError>
    ensures { OnOk result (string_bytes text.new
        ≡ string_bytes text.old ++ event_words event.now) }
{
    match event {
        Event::Heard { from, payload, now } => {
            heard_onto(alloc, text, *from, payload.as_slice(), *now)
        }
        Event::Time { now } => write!(text, "time {now}"),
        Event::Connect { line, service } => connect_onto(text, *line, service),
        Event::Put { line, bytes } => put_onto(alloc, text, *line, bytes.as_slice()),
        Event::Set { line, setting } => set_onto(alloc, text, *line, setting),
        Event::Take { line, n } => write!(text, "take {line} {n}"),
        Event::Attend { line, flag } => attend_onto(text, *line, *flag),
        Event::Close { line } => write!(text, "close {line}"),
        Event::Request { to, id, service } => request_onto(text, *to, *id, service),
        Event::Cancel { id } => write!(text, "cancel {id}"),
        Event::Announce => text.push_str("announce"),
        Event::Avoid { line } => write!(text, "avoid {line}"),
        Event::Ready { line, ready } => ready_onto(text, *line, *ready),
        Event::Halt => text.push_str("halt"),
    }
}
