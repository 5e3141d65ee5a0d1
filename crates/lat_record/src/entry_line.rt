//! The line of an event and its answer.

ghost use Rattle.std.specs.Prelude.{◌≡◌, option_map};
ghost use Rattle.lat_text.specs.Numbers.{number_within};
ghost use Rattle.lat_text.specs.Reads.{Reads};
ghost use Rattle.lat_record.specs.EntryRead.{hex_of, heard_of, time_of, connect_of, put_of, set_of, take_of, attend_of, close_of, request_of, cancel_of, avoid_of, ready_of, line_of, bit_of, flag_of, setting_of, told_of, entry_of};

use crate::entry::Entry;
use crate::verb::Verb;
use hex::{FromHex, FromHexError};
use lat_base::{Bytes, Event};
use lat_text::{LineFault, address_of, behind_word, byte_of, first_word, name_of, number_within};
use std::alloc::Global;

/// The bytes that hex digits write, or `-` for no byte. Takes memory for them.
pub fn hex_of(alloc: Global, text: &[u8]) -> Result<Bytes, LineFault>
    ensures { Reads (λ bytes. bytes) result (hex_of text.now) }
{
    if text == "-".as_bytes() {
        return Ok(Bytes::of(Vec::new(alloc)));
    }
    if text.is_empty() {
        return Err(LineFault::Form);
    }
    match hex::decode(alloc, text) {
        Ok(bytes) => Ok(Bytes::of(bytes)),
        Err(FromHexError::OutOfMemory) => Err(LineFault::Memory),
        Err(_) => Err(LineFault::Form),
    }
}

fn line_of(text: &[u8]) -> Option<u8>
    ensures { result ≡ line_of text.now }
{
    let number = number_within(0, 255, text)?;
    Some(number as u8)
}

fn short_of(text: &[u8]) -> Option<u16>
    ensures { result ≡ number_within 0 65535 text.now }
{
    let number = number_within(0, 65_535, text)?;
    Some(number as u16)
}

fn setting_of(text: &[u8]) -> Option<[u8; 5]>
    ensures { result ≡ setting_of text.now }
{
    <[u8; 5] as FromHex>::from_hex(text).ok()
}

fn flag_of(text: &[u8]) -> Option<u8>
    ensures { result ≡ flag_of text.now }
{
    match text {
        [high, low] => byte_of(*high, *low),
        _ => None,
    }
}

fn bit_of(word: &[u8]) -> Option<bool>
    ensures { result ≡ bit_of word.now }
{
    if word == "1".as_bytes() {
        Some(true)
    } else if word == "0".as_bytes() {
        Some(false)
    } else {
        None
    }
}

// `T ADDR HEX`
fn heard_of(alloc: Global, text: &[u8]) -> Result<(Event, &[u8]), LineFault>
    ensures { Reads (λ r. (r.0, r.1.now)) result (heard_of text.now) }
{
    let (moment, text) = first_word(text).ok_or(LineFault::Form)?;
    let (station, text) = first_word(text).ok_or(LineFault::Form)?;
    let (digits, behind) = first_word(text).ok_or(LineFault::Form)?;
    let now = number_within(0, u64::MAX, moment).ok_or(LineFault::Form)?;
    let from = address_of(station).ok_or(LineFault::Form)?;
    let payload = hex_of(alloc, digits)?;
    Ok((Event::Heard { from, payload, now }, behind))
}

// `T`
fn time_of(text: &[u8]) -> Option<(Event, &[u8])>
    ensures { option_map (λ r. (r.0, r.1.now)) result ≡ time_of text.now }
{
    let (moment, behind) = first_word(text)?;
    let now = number_within(0, u64::MAX, moment)?;
    Some((Event::Time { now }, behind))
}

// `LINE NAME`
fn connect_of(text: &[u8]) -> Option<(Event, &[u8])>
    ensures { option_map (λ r. (r.0, r.1.now)) result ≡ connect_of text.now }
{
    let (line, text) = first_word(text)?;
    let (service, behind) = first_word(text)?;
    let line = line_of(line)?;
    let service = name_of(service)?;
    Some((Event::Connect { line, service }, behind))
}

// `LINE HEX`
fn put_of(alloc: Global, text: &[u8]) -> Result<(Event, &[u8]), LineFault>
    ensures { Reads (λ r. (r.0, r.1.now)) result (put_of text.now) }
{
    let (line, text) = first_word(text).ok_or(LineFault::Form)?;
    let (digits, behind) = first_word(text).ok_or(LineFault::Form)?;
    let line = line_of(line).ok_or(LineFault::Form)?;
    let bytes = hex_of(alloc, digits)?;
    Ok((Event::Put { line, bytes }, behind))
}

// `LINE HEX`, ten digits
fn set_of(text: &[u8]) -> Option<(Event, &[u8])>
    ensures { option_map (λ r. (r.0, r.1.now)) result ≡ set_of text.now }
{
    let (line, text) = first_word(text)?;
    let (digits, behind) = first_word(text)?;
    let line = line_of(line)?;
    let setting = setting_of(digits)?;
    Some((Event::Set { line, setting }, behind))
}

// `LINE N`
fn take_of(text: &[u8]) -> Option<(Event, &[u8])>
    ensures { option_map (λ r. (r.0, r.1.now)) result ≡ take_of text.now }
{
    let (line, text) = first_word(text)?;
    let (n, behind) = first_word(text)?;
    let line = line_of(line)?;
    let n = short_of(n)?;
    Some((Event::Take { line, n }, behind))
}

// `LINE HEX`, two digits
fn attend_of(text: &[u8]) -> Option<(Event, &[u8])>
    ensures { option_map (λ r. (r.0, r.1.now)) result ≡ attend_of text.now }
{
    let (line, text) = first_word(text)?;
    let (digits, behind) = first_word(text)?;
    let line = line_of(line)?;
    let flag = flag_of(digits)?;
    Some((Event::Attend { line, flag }, behind))
}

// `LINE`
fn close_of(text: &[u8]) -> Option<(Event, &[u8])>
    ensures { option_map (λ r. (r.0, r.1.now)) result ≡ close_of text.now }
{
    let (line, behind) = first_word(text)?;
    let line = line_of(line)?;
    Some((Event::Close { line }, behind))
}

// `ID NAME ADDR`
fn request_of(text: &[u8]) -> Option<(Event, &[u8])>
    ensures { option_map (λ r. (r.0, r.1.now)) result ≡ request_of text.now }
{
    let (id, text) = first_word(text)?;
    let (service, text) = first_word(text)?;
    let (station, behind) = first_word(text)?;
    let id = short_of(id)?;
    let service = name_of(service)?;
    let to = address_of(station)?;
    Some((Event::Request { to, id, service }, behind))
}

// `ID`
fn cancel_of(text: &[u8]) -> Option<(Event, &[u8])>
    ensures { option_map (λ r. (r.0, r.1.now)) result ≡ cancel_of text.now }
{
    let (id, behind) = first_word(text)?;
    let id = short_of(id)?;
    Some((Event::Cancel { id }, behind))
}

// `LINE`
fn avoid_of(text: &[u8]) -> Option<(Event, &[u8])>
    ensures { option_map (λ r. (r.0, r.1.now)) result ≡ avoid_of text.now }
{
    let (line, behind) = first_word(text)?;
    let line = line_of(line)?;
    Some((Event::Avoid { line }, behind))
}

// `LINE FLAG`
fn ready_of(text: &[u8]) -> Option<(Event, &[u8])>
    ensures { option_map (λ r. (r.0, r.1.now)) result ≡ ready_of text.now }
{
    let (line, text) = first_word(text)?;
    let (flag, behind) = first_word(text)?;
    let line = line_of(line)?;
    let ready = bit_of(flag)?;
    Some((Event::Ready { line, ready }, behind))
}

// What stands behind a verb: the event, and what is left behind its words.
fn told_of(alloc: Global, verb: Verb, text: &[u8]) -> Result<(Event, &[u8]), LineFault>
    ensures { Reads (λ r. (r.0, r.1.now)) result (told_of verb text.now) }
{
    match verb {
        Verb::Heard => heard_of(alloc, text),
        Verb::Time => time_of(text).ok_or(LineFault::Form),
        Verb::Connect => connect_of(text).ok_or(LineFault::Form),
        Verb::Put => put_of(alloc, text),
        Verb::Set => set_of(text).ok_or(LineFault::Form),
        Verb::Take => take_of(text).ok_or(LineFault::Form),
        Verb::Attend => attend_of(text).ok_or(LineFault::Form),
        Verb::Close => close_of(text).ok_or(LineFault::Form),
        Verb::Request => request_of(text).ok_or(LineFault::Form),
        Verb::Cancel => cancel_of(text).ok_or(LineFault::Form),
        Verb::Announce => Ok((Event::Announce, text)),
        Verb::Avoid => avoid_of(text).ok_or(LineFault::Form),
        Verb::Ready => ready_of(text).ok_or(LineFault::Form),
        Verb::Halt => Ok((Event::Halt, text)),
    }
}

/// The event that a line says, and the words of its answer. Takes memory for both.
pub fn entry_of(alloc: Global, line: &[u8]) -> Result<Entry, LineFault>
    ensures { Reads (λ entry. entry) result (entry_of line.now) }
{
    let (word, text) = first_word(line).ok_or(LineFault::Form)?;
    let verb = Verb::of(word).ok_or(LineFault::Form)?;
    let (event, behind) = told_of(alloc, verb, text)?;
    let words = behind_word("->", behind).ok_or(LineFault::Form)?;
    let answer = Bytes::copy(alloc, words)?;
    Ok(Entry { event, answer })
}
