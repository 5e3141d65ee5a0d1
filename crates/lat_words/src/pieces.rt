//! The parts of a value of several parts, between which signs stand.

ghost use Rattle.std.specs.Prelude.{◌≡◌, ◌<◌, true, IfSome, length};
ghost use Rattle.std.specs.List.{list_all};
ghost use Rattle.lat_words.specs.Within.{is_line};
ghost use Rattle.lat_words.specs.Pieces.{last_equals, is_digit, is_digits, port_sign, service_of, rule_by, numbered_rule, rule_of, rate_of, device_of, offer_of};

use crate::groups::sign_at;
use crate::name_texts::named;
use crate::settings::{Offer, Rate, Service};
use crate::values::port_of;
use lat_base::Name;
use lat_text::number_within;

// The last place of `=`.
fn last_equals(text: &[u8]) -> Option<usize>
    ensures value { result ≡ last_equals text.now }
    ensures within { IfSome result (λ at. at < length text.now) }
{
    let mut at = text.len();
    while at > 0 {
        at -= 1;
        if text[at] == b'=' {
            return Some(at);
        }
    }
    None
}

fn is_digit(byte: u8) -> bool
    ensures { result ≡ is_digit byte }
{
    matches!(byte, b'0'..=b'9')
}

fn all_digits(text: &[u8]) -> bool
    ensures { result ≡ list_all is_digit text.now }
{
    text.iter().all(|b| is_digit(*b))
}

// Whether it is digits alone, and one at least.
fn is_digits(text: &[u8]) -> bool
    ensures { result ≡ is_digits text.now }
{
    !text.is_empty() && all_digits(text)
}

// The last place of `=`, where digits alone stand behind it.
fn port_sign(text: &[u8]) -> Option<usize>
    ensures value { result ≡ port_sign text.now }
    ensures within { IfSome result (λ at. at < length text.now) }
{
    let sign = last_equals(text)?;
    if is_digits(&text[sign + 1..]) {
        Some(sign)
    } else {
        None
    }
}

/// The service that `NAME` or `NAME=PORT` writes. What stands behind the last `=` is a port where it is digits alone.
pub(crate) fn service_of(text: &[u8]) -> Option<Service>
    ensures { result ≡ service_of text.now }
{
    match port_sign(text) {
        None => Some(Service {
            name: named(text)?,
            port: None,
        }),
        Some(sign) => Some(Service {
            name: named(&text[..sign])?,
            port: Some(port_of(&text[sign + 1..])?),
        }),
    }
}

fn rule_by(word: &[u8], n: u8) -> Option<Rate>
    ensures { result ≡ rule_by word.now n }
{
    if word == "each".as_bytes() {
        Some(Rate::Each(n))
    } else if word == "while-free".as_bytes() {
        Some(Rate::WhileFree(n))
    } else {
        None
    }
}

fn numbered_rule(text: &[u8]) -> Option<Rate>
    ensures { result ≡ numbered_rule text.now }
{
    let colon = sign_at(b':', text)?;
    let n = number_within(1, 255, &text[colon + 1..])?;
    rule_by(&text[..colon], n as u8)
}

fn rule_of(text: &[u8]) -> Option<Rate>
    ensures { result ≡ rule_of text.now }
{
    if text == "free".as_bytes() {
        Some(Rate::Free)
    } else {
        numbered_rule(text)
    }
}

/// The service and the rate that `NAME=RULE` writes.
pub(crate) fn rate_of(text: &[u8]) -> Option<(Name, Rate)>
    ensures { result ≡ rate_of text.now }
{
    let sign = last_equals(text)?;
    let name = named(&text[..sign])?;
    let rate = rule_of(&text[sign + 1..])?;
    Some((name, rate))
}

// The service and the port that `NAME=PORT` writes.
fn device_of(text: &[u8]) -> Option<(Name, u16)>
    ensures { result ≡ device_of text.now }
{
    let sign = last_equals(text)?;
    let name = named(&text[..sign])?;
    let port = port_of(&text[sign + 1..])?;
    Some((name, port))
}

/// The offer that `LINE=NAME=PORT` writes, of so many lines.
pub(crate) fn offer_of(lines: u8, text: &[u8]) -> Option<Offer>
    ensures value { result ≡ offer_of lines text.now }
    ensures line { IfSome result (λ o. is_line lines o ≡ true) }
{
    let sign = sign_at(b'=', text)?;
    let line = number_within(1, u64::from(lines), &text[..sign])?;
    let (name, port) = device_of(&text[sign + 1..])?;
    Some(Offer {
        line: line as u8,
        name,
        port,
    })
}
