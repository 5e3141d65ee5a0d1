//! The other lines in front of the events.

ghost use Rattle.std.specs.Prelude.{◌≡◌, ◌≤◌, ◌<◌, false, length, IfSome, IfOk, nat_eq, option_map};
ghost use Rattle.std.specs.List.{list_any};
ghost use Rattle.lat_frames.specs.Timings.{IsTiming};
ghost use Rattle.lat_lines.specs.Kept.{IsLine};
ghost use Rattle.lat_server.specs.declared.config.Offer.{Offer};
ghost use Rattle.lat_text.specs.Reads.{Reads};
ghost use Rattle.lat_text.specs.Numbers.{number_within};
ghost use Rattle.lat_schedule.specs.SetupLines as schedule;
ghost use Rattle.lat_record.specs.OpeningRead.{timing_of, circuit_of, server_groups_of, node_groups_of, service_of, behind, rule_of, rate_of};

use crate::entry_line::hex_of;
use crate::opening::Rate;
use hex::FromHex;
use lat_base::{Bytes, Name};
use lat_node::Timing;
use lat_server::Offer;
use lat_text::{LineFault, behind_word, first_word, name_of, number_within};
use std::alloc::Global;

fn byte_within(least: u8, most: u8, text: &[u8]) -> Option<u8>
    ensures value { result ≡ number_within least most text.now }
    ensures range { IfSome result (λ n. (least ≤ n) × (n ≤ most)) }
{
    let number = number_within(u64::from(least), u64::from(most), text)?;
    Some(number as u8)
}

fn span_of(word: &[u8]) -> Option<bool>
    ensures { result ≡ schedule.span_of word.now }
{
    if word == "word".as_bytes() {
        Some(true)
    } else if word == "byte".as_bytes() {
        Some(false)
    } else {
        None
    }
}

// Behind `circuit `: `TIMER KEEPALIVE SESSIONS EXTRA CEILING SPAN`
fn timing_of(text: &[u8]) -> Option<Timing>
    ensures value { result ≡ timing_of text.now }
    ensures timing { IfSome result IsTiming }
{
    let (timer, text) = first_word(text)?;
    let (keepalive, text) = first_word(text)?;
    let (sessions, text) = first_word(text)?;
    let (extra, text) = first_word(text)?;
    let (ceiling, span) = first_word(text)?;
    let timer = byte_within(1, 100, timer)?;
    let keepalive = byte_within(1, 255, keepalive)?;
    let sessions = byte_within(1, 64, sessions)?;
    let extra = byte_within(0, 255, extra)?;
    let ceiling = byte_within(1, 15, ceiling)?;
    let wide = span_of(span)?;
    Some(Timing {
        timer,
        keepalive,
        sessions,
        extra,
        ceiling,
        wide,
    })
}

/// The line of the circuits.
pub fn circuit_of(line: &[u8]) -> Option<Timing>
    ensures value { result ≡ circuit_of line.now }
    ensures timing { IfSome result IsTiming }
{
    timing_of(behind_word("circuit", line)?)
}

/// `server-groups HEX`, 32 bytes
pub fn server_groups_of(line: &[u8]) -> Option<[u8; 32]>
    ensures { result ≡ server_groups_of line.now }
{
    let digits = behind_word("server-groups", line)?;
    <[u8; 32] as FromHex>::from_hex(digits).ok()
}

/// `node-groups HEX`, at most 32 bytes. Takes memory for them.
pub fn node_groups_of(alloc: Global, line: &[u8]) -> Result<Bytes, LineFault>
    ensures value { Reads (λ groups. groups) result (node_groups_of line.now) }
    ensures most { IfOk result (λ groups. length groups ≤ 32) }
{
    let digits = behind_word("node-groups", line).ok_or(LineFault::Form)?;
    let groups = hex_of(alloc, digits)?;
    if groups.as_slice().len() > 32 {
        return Err(LineFault::Form);
    }
    Ok(groups)
}

// Whether the line is in one of these offers.
fn is_offered(line: u8, offers: &[Offer]) -> bool
    ensures { result ≡ list_any (λ (o : Offer). nat_eq o.line line) offers.now }
{
    offers.iter().any(|offer| offer.line == line)
}

/// `offer LINE NAME`, of a line of so many that is in none of these offers.
pub fn offer_of(lines: u8, others: &[Offer], line: &[u8]) -> Option<Offer>
    ensures value { result ≡ schedule.offer_of lines others.now line.now }
    ensures line { IfSome result (λ offer. IsLine lines offer.line) }
    ensures free { IfSome result (λ offer.
        list_any (λ (o : Offer). nat_eq o.line offer.line) others.now ≡ false) }
{
    let text = behind_word("offer", line)?;
    let (place, service) = first_word(text)?;
    let place = byte_within(1, lines, place)?;
    let service = name_of(service)?;
    if is_offered(place, others) {
        return None;
    }
    Some(Offer {
        line: place,
        service,
    })
}

/// `service NAME`, behind so many others; not a 33rd one.
pub fn service_of(others: usize, line: &[u8]) -> Option<Name>
    ensures value { result ≡ service_of others line.now }
    ensures room { IfSome result (λ service. others < 32) }
{
    let service = name_of(behind_word("service", line)?)?;
    if others < 32 { Some(service) } else { None }
}

// What stands behind these bytes, where a text begins with them.
fn behind<'a>(front: &str, text: &'a [u8]) -> Option<&'a [u8]>
    ensures { option_map (λ r. r.now) result ≡ behind front.now text.now }
{
    if text.len() < front.len() {
        return None;
    }
    let (begins, rest) = text.split_at(front.len());
    if begins == front.as_bytes() {
        Some(rest)
    } else {
        None
    }
}

// `free`, `each:N` or `while-free:N`
fn rule_of(text: &[u8]) -> Option<Rate>
    ensures { result ≡ rule_of text.now }
{
    if text == "free".as_bytes() {
        return Some(Rate::Free);
    }
    if let Some(number) = behind("each:", text) {
        let rating = byte_within(1, 255, number)?;
        return Some(Rate::Each(rating));
    }
    let rating = byte_within(1, 255, behind("while-free:", text)?)?;
    Some(Rate::WhileFree(rating))
}

/// `rate RULE`
pub fn rate_of(line: &[u8]) -> Option<Rate>
    ensures { result ≡ rate_of line.now }
{
    rule_of(behind_word("rate", line)?)
}
