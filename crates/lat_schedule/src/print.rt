//! The lines of events in print.

ghost use Rattle.std.specs.Prelude.{◌≡◌, ◌++◌, OnOk, string_bytes, codes};
ghost use Rattle.lat_schedule.specs.EventText.{letter, numbered, told_text, local_text, inject_text, event_text};

use crate::event::WorldEvent;
use crate::verb::Verb;
use lat_base::{Addr, Event};
use lat_text::{address_onto, byte_onto, flag_text, hex_onto, name_onto};
use std::alloc::{AllocError, Global};

fn letter(server: bool) -> &'static str
    ensures { result.now ≡ letter server }
{
    if server { "s" } else { "n" }
}

// A verb and a number.
fn numbered_onto(text: &mut String, verb: Verb, number: u64) -> Result<(), AllocError>
    ensures { OnOk result (string_bytes text.new ≡ string_bytes text.old ++ numbered verb number) }
{
    let word = verb.word();
    write!(text, "{word} {number}")
}

// A verb, a line and a space.
fn line_onto(text: &mut String, verb: Verb, line: u8) -> Result<(), AllocError>
    ensures { OnOk result (string_bytes text.new
        ≡ string_bytes text.old ++ (numbered verb line ++ codes " ")) }
{
    numbered_onto(text, verb, u64::from(line))?;
    text.push_str(" ")
}

// What stands behind the letter of an end.
fn told_onto(alloc: Global, text: &mut String, event: &Event) -> Result<(), AllocError>
    ensures { OnOk result (string_bytes text.new ≡ string_bytes text.old ++ told_text event.now) }
{
    match event {
        Event::Heard { .. } => Ok(()),
        Event::Time { now } => numbered_onto(text, Verb::Time, *now),
        Event::Connect { line, service } => {
            line_onto(text, Verb::Connect, *line)?;
            name_onto(text, service)
        }
        Event::Put { line, bytes } => {
            line_onto(text, Verb::Put, *line)?;
            hex_onto(alloc, text, bytes.as_slice())
        }
        Event::Set { line, setting } => {
            line_onto(text, Verb::Set, *line)?;
            hex_onto(alloc, text, setting)
        }
        Event::Take { line, n } => {
            line_onto(text, Verb::Take, *line)?;
            write!(text, "{n}")
        }
        Event::Attend { line, flag } => {
            line_onto(text, Verb::Attend, *line)?;
            byte_onto(text, *flag)
        }
        Event::Close { line } => numbered_onto(text, Verb::Close, u64::from(*line)),
        Event::Request { id, service, .. } => {
            numbered_onto(text, Verb::Request, u64::from(*id))?;
            text.push_str(" ")?;
            name_onto(text, service)
        }
        Event::Cancel { id } => numbered_onto(text, Verb::Cancel, u64::from(*id)),
        Event::Announce => text.push_str("announce"),
        Event::Avoid { line } => numbered_onto(text, Verb::Avoid, u64::from(*line)),
        Event::Ready { line, ready } => {
            line_onto(text, Verb::Ready, *line)?;
            text.push_str(flag_text(*ready))
        }
        Event::Halt => text.push_str("halt"),
    }
}

fn inject_onto(
    alloc: Global,
    text: &mut String,
    server: bool,
    from: Addr,
    payload: &[u8],
) -> Result<(), AllocError>
    ensures { OnOk result (string_bytes text.new
        ≡ string_bytes text.old ++ inject_text server from payload.now) }
{
    let end = letter(server);
    write!(text, "inject {end} ")?;
    address_onto(text, from)?;
    text.push_str(" ")?;
    hex_onto(alloc, text, payload)?;
    text.push_str("\n")
}

fn local_onto(
    alloc: Global,
    text: &mut String,
    server: bool,
    event: &Event,
) -> Result<(), AllocError>
    ensures { OnOk result (string_bytes text.new
        ≡ string_bytes text.old ++ local_text server event.now) }
{
    text.push_str(letter(server))?;
    text.push_str(" ")?;
    told_onto(alloc, text, event)?;
    text.push_str("\n")
}

/// Adds the line of an event to a text. What is heard has no line of its own: behind the letter of the end stands nothing
/// then. After want of memory a part of it may stand in the text.
pub fn event_onto(alloc: Global, text: &mut String, event: &WorldEvent) -> Result<(), AllocError>
    ensures { OnOk result (string_bytes text.new ≡ string_bytes text.old ++ event_text event.now) }
{
    match event {
        WorldEvent::Local { server, event } => local_onto(alloc, text, *server, event),
        WorldEvent::Deliver { index } => write!(text, "deliver {index}\n"),
        WorldEvent::Inject {
            server,
            from,
            payload,
        } => inject_onto(alloc, text, *server, *from, payload.as_slice()),
    }
}
