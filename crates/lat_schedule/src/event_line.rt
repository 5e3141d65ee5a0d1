//! The line of an event.

ghost use Rattle.std.specs.Prelude.{◌≡◌, ◌≤◌, Bool, true, false, IsTrue, IfOk, IfSome, length};
ghost use Rattle.lat_text.specs.Reads.{Reads};
ghost use Rattle.lat_schedule.specs.EventLines.{
  line_of,
  id_of,
  setting_of,
  flag_of,
  end_of,
  connect_of,
  put_of,
  set_of,
  take_of,
  attend_of,
  close_of,
  time_of,
  cancel_of,
  avoid_of,
  bit_of,
  ready_of,
  request_of,
  told_of,
  local_of,
  deliver_of,
  inject_of,
  worded_of,
  halt_of,
  plain_of,
  event_of,
};
ghost use Rattle.lat_schedule.specs.Verbs.{may_say};
ghost use Rattle.lat_schedule.specs.declared.setup_line.Version.TheVariants.{Three};
ghost use Rattle.lat_base.specs.declared.addr.Addr.{Addr};
ghost use Rattle.lat_schedule.specs.Events.{IsTold, IsEvent};

use crate::event::WorldEvent;
use crate::numbers::{byte_within, short_within};
use crate::setup_line::Version;
use crate::verb::{Verb, is_third};
use hex::FromHex;
use lat_base::{Addr, Bytes, Event};
use lat_text::{
    LineFault, address_of, byte_of, bytes_of, first_word, moment_of, name_of, number_within,
    payload_of,
};
use std::alloc::Global;

fn line_of(text: &[u8]) -> Option<u8>
    ensures value { result ≡ line_of text.now }
    ensures most { IfSome result (λ line. line ≤ 255) }
{
    byte_within(0, 255, text)
}

fn id_of(text: &[u8]) -> Option<u16>
    ensures value { result ≡ id_of text.now }
    ensures most { IfSome result (λ id. id ≤ 65535) }
{
    short_within(0, 65535, text)
}

fn setting_of(text: &[u8]) -> Option<[u8; 5]>
    ensures value { result ≡ setting_of text.now }
    ensures five { IfSome result (λ setting. length setting ≡ 5) }
{
    <[u8; 5] as FromHex>::from_hex(text).ok()
}

fn flag_of(text: &[u8]) -> Option<u8>
    ensures { result ≡ flag_of text.now }
{
    match text {
        [high, low] => byte_of(*high, *low),
        _ => None,
    }
}

// `s` or `n`
fn end_of(word: &[u8]) -> Option<bool>
    ensures { result ≡ end_of word.now }
{
    if word == "s".as_bytes() {
        Some(true)
    } else if word == "n".as_bytes() {
        Some(false)
    } else {
        None
    }
}

// `LINE NAME`
fn connect_of(text: &[u8]) -> Option<Event>
    ensures reads { result ≡ connect_of text.now }
    ensures told { IfSome result (λ event. (to : Addr) → IsTold to true event) }
{
    let (line, service) = first_word(text)?;
    let line = line_of(line)?;
    let service = name_of(service)?;
    Some(Event::Connect { line, service })
}

// `LINE BYTES`
fn put_of(alloc: Global, text: &[u8]) -> Result<Event, LineFault>
    ensures reads { Reads (λ event. event) result (put_of text.now) }
    ensures told { IfOk result (λ event. (to : Addr) (server : Bool) → IsTold to server event) }
{
    let (line, digits) = first_word(text).ok_or(LineFault::Form)?;
    let line = line_of(line).ok_or(LineFault::Form)?;
    let bytes = bytes_of(alloc, 2, 8192, digits)?;
    let bytes = Bytes::copy(alloc, &bytes)?;
    Ok(Event::Put { line, bytes })
}

// `LINE BYTES`, ten digits
fn set_of(text: &[u8]) -> Option<Event>
    ensures reads { result ≡ set_of text.now }
    ensures told { IfSome result (λ event. (to : Addr) (server : Bool) → IsTold to server event) }
{
    let (line, setting) = first_word(text)?;
    let line = line_of(line)?;
    let setting = setting_of(setting)?;
    Some(Event::Set { line, setting })
}

// `LINE N`
fn take_of(text: &[u8]) -> Option<Event>
    ensures reads { result ≡ take_of text.now }
    ensures told { IfSome result (λ event. (to : Addr) (server : Bool) → IsTold to server event) }
{
    let (line, n) = first_word(text)?;
    let line = line_of(line)?;
    let n = short_within(0, 4096, n)?;
    Some(Event::Take { line, n })
}

// `LINE BYTES`, two digits
fn attend_of(text: &[u8]) -> Option<Event>
    ensures reads { result ≡ attend_of text.now }
    ensures told { IfSome result (λ event. (to : Addr) (server : Bool) → IsTold to server event) }
{
    let (line, flag) = first_word(text)?;
    let line = line_of(line)?;
    let flag = flag_of(flag)?;
    Some(Event::Attend { line, flag })
}

// `ID NAME`, a request to the server at this address
fn request_of(to: Addr, text: &[u8]) -> Option<Event>
    ensures reads { result ≡ request_of to text.now }
    ensures told { IfSome result (IsTold to false) }
{
    let (id, service) = first_word(text)?;
    let id = id_of(id)?;
    let service = name_of(service)?;
    Some(Event::Request { to, id, service })
}

// `LINE`
fn close_of(text: &[u8]) -> Option<Event>
    ensures reads { result ≡ close_of text.now }
    ensures told { IfSome result (λ event. (to : Addr) (server : Bool) → IsTold to server event) }
{
    let line = line_of(text)?;
    Some(Event::Close { line })
}

// `T`
fn time_of(text: &[u8]) -> Option<Event>
    ensures reads { result ≡ time_of text.now }
    ensures told { IfSome result (λ event. (to : Addr) (server : Bool) → IsTold to server event) }
{
    let now = moment_of(text)?;
    Some(Event::Time { now })
}

// `ID`
fn cancel_of(text: &[u8]) -> Option<Event>
    ensures reads { result ≡ cancel_of text.now }
    ensures told { IfSome result (λ event. (to : Addr) → IsTold to false event) }
{
    let id = id_of(text)?;
    Some(Event::Cancel { id })
}

// `LINE`
fn avoid_of(text: &[u8]) -> Option<Event>
    ensures reads { result ≡ avoid_of text.now }
    ensures told { IfSome result (λ event. (to : Addr) → IsTold to true event) }
{
    let line = line_of(text)?;
    Some(Event::Avoid { line })
}

// `0` or `1`
fn bit_of(word: &[u8]) -> Option<bool>
    ensures { result ≡ bit_of word.now }
{
    if word == "1".as_bytes() {
        Some(true)
    } else if word == "0".as_bytes() {
        Some(false)
    } else {
        None
    }
}

// `LINE FLAG`
fn ready_of(text: &[u8]) -> Option<Event>
    ensures reads { result ≡ ready_of text.now }
    ensures told { IfSome result (λ event. (to : Addr) → IsTold to true event) }
{
    let (line, ready) = first_word(text)?;
    let line = line_of(line)?;
    let ready = bit_of(ready)?;
    Some(Event::Ready { line, ready })
}

// What stands behind a verb that this end may be told.
fn told_of(
    alloc: Global,
    to: Addr,
    server: bool,
    verb: Verb,
    text: &[u8],
) -> Result<Event, LineFault>
    requires { IsTrue (may_say Three server verb) }
    ensures reads { Reads (λ event. event) result (told_of to verb text.now) }
    ensures told { IfOk result (IsTold to server) }
{
    match verb {
        Verb::Connect => connect_of(text).ok_or(LineFault::Form),
        Verb::Put => put_of(alloc, text),
        Verb::Set => set_of(text).ok_or(LineFault::Form),
        Verb::Take => take_of(text).ok_or(LineFault::Form),
        Verb::Attend => attend_of(text).ok_or(LineFault::Form),
        Verb::Close => close_of(text).ok_or(LineFault::Form),
        Verb::Time => time_of(text).ok_or(LineFault::Form),
        Verb::Request => request_of(to, text).ok_or(LineFault::Form),
        Verb::Cancel => cancel_of(text).ok_or(LineFault::Form),
        Verb::Avoid => avoid_of(text).ok_or(LineFault::Form),
        Verb::Ready => ready_of(text).ok_or(LineFault::Form),
    }
}

// Behind the letter of an end: a verb that it may be told, and what goes with it.
fn local_of(
    alloc: Global,
    version: Version,
    to: Addr,
    server: bool,
    text: &[u8],
) -> Result<WorldEvent, LineFault>
    ensures reads { Reads (λ event. event) result (local_of version to server text.now) }
    ensures event { IfOk result (IsEvent to) }
{
    let (word, rest) = first_word(text).ok_or(LineFault::Form)?;
    let verb = Verb::of(word).ok_or(LineFault::Form)?;
    if !verb.may_be_told(version, server) {
        return Err(LineFault::Form);
    }
    let event = told_of(alloc, to, server, verb, rest)?;
    Ok(WorldEvent::Local { server, event })
}

// Behind `deliver `: the number of a frame.
fn deliver_of(text: &[u8]) -> Option<WorldEvent>
    ensures reads { result ≡ deliver_of text.now }
    ensures event { IfSome result (λ event. (to : Addr) → IsEvent to event) }
{
    let index = number_within(0, 999_999_999, text)?;
    Some(WorldEvent::Deliver { index })
}

// Behind `inject `: `E ADDR HEX`
fn inject_of(alloc: Global, text: &[u8]) -> Result<WorldEvent, LineFault>
    ensures reads { Reads (λ event. event) result (inject_of text.now) }
    ensures event { IfOk result (λ event. (to : Addr) → IsEvent to event) }
{
    let (end, rest) = first_word(text).ok_or(LineFault::Form)?;
    let (station, digits) = first_word(rest).ok_or(LineFault::Form)?;
    let server = end_of(end).ok_or(LineFault::Form)?;
    let from = address_of(station).ok_or(LineFault::Form)?;
    let payload = payload_of(alloc, digits)?;
    let payload = Bytes::copy(alloc, &payload)?;
    Ok(WorldEvent::Inject {
        server,
        from,
        payload,
    })
}

// An event line of several words that isn't said by itself.
fn worded_of(
    alloc: Global,
    version: Version,
    to: Addr,
    line: &[u8],
) -> Result<WorldEvent, LineFault>
    ensures reads { Reads (λ event. event) result (worded_of version to line.now) }
    ensures event { IfOk result (IsEvent to) }
{
    let (word, rest) = first_word(line).ok_or(LineFault::Form)?;
    if word == "deliver".as_bytes() {
        return deliver_of(rest).ok_or(LineFault::Form);
    }
    if word == "inject".as_bytes() {
        return inject_of(alloc, rest);
    }
    let server = end_of(word).ok_or(LineFault::Form)?;
    local_of(alloc, version, to, server, rest)
}

// `s halt` or `n halt`
fn halt_of(line: &[u8]) -> Option<WorldEvent>
    ensures reads { result ≡ halt_of line.now }
    ensures event { IfSome result (λ event. (to : Addr) → IsEvent to event) }
{
    let event = Event::Halt;
    if line == "s halt".as_bytes() {
        let server = true;
        Some(WorldEvent::Local { server, event })
    } else if line == "n halt".as_bytes() {
        let server = false;
        Some(WorldEvent::Local { server, event })
    } else {
        None
    }
}

// A line that says all without a further word.
fn plain_of(version: Version, line: &[u8]) -> Option<WorldEvent>
    ensures reads { result ≡ plain_of version line.now }
    ensures event { IfSome result (λ event. (to : Addr) → IsEvent to event) }
{
    if line == "n announce".as_bytes() {
        Some(WorldEvent::Local {
            server: false,
            event: Event::Announce,
        })
    } else if is_third(version) {
        halt_of(line)
    } else {
        None
    }
}

/// The event that a line says in a text of this version. Requests go to the server at this address. Takes memory for its
/// bytes.
pub fn event_of(
    alloc: Global,
    version: Version,
    to: Addr,
    line: &[u8],
) -> Result<WorldEvent, LineFault>
    ensures reads { Reads (λ event. event) result (event_of version to line.now) }
    ensures event { IfOk result (IsEvent to) }
{
    match plain_of(version, line) {
        Some(event) => Ok(event),
        None => worded_of(alloc, version, to, line),
    }
}
