//! The values of options that have one value.

ghost use Rattle.std.specs.Prelude.{◌≡◌, ◌≤◌, map, IfOk, IfSome};
ghost use Rattle.lat_words.specs.Values.{role_in, name_in, address_in, number_at, number_needed, number_or, number_if, port_of, level_of, level_in};

use crate::config::Role;
use crate::fault::{Expected, OptionName, Wrong, wrong_at};
use crate::name_texts::named;
use crate::roles::role_of;
use crate::settings::Level;
use lat_base::{Addr, Name};
use lat_text::{address_of, number_within};

pub(crate) fn role_in(texts: &[&str]) -> Result<Role, Wrong>
    ensures { result ≡ role_in (map (λ t. t.now) texts.now) }
{
    match texts {
        [] => Err(wrong_at(OptionName::Role, 0, Expected::Needed)),
        [text] => match role_of(text.as_bytes()) {
            Some(role) => Ok(role),
            None => Err(wrong_at(OptionName::Role, 0, Expected::Role)),
        },
        _ => Err(wrong_at(OptionName::Role, 1, Expected::One)),
    }
}

pub(crate) fn name_in(texts: &[&str]) -> Result<Name, Wrong>
    ensures { result ≡ name_in (map (λ t. t.now) texts.now) }
{
    match texts {
        [] => Err(wrong_at(OptionName::Name, 0, Expected::Needed)),
        [text] => match named(text.as_bytes()) {
            Some(name) => Ok(name),
            None => Err(wrong_at(OptionName::Name, 0, Expected::Name)),
        },
        _ => Err(wrong_at(OptionName::Name, 1, Expected::One)),
    }
}

pub(crate) fn address_in(texts: &[&str]) -> Result<Addr, Wrong>
    ensures { result ≡ address_in (map (λ t. t.now) texts.now) }
{
    match texts {
        [] => Err(wrong_at(OptionName::Address, 0, Expected::Needed)),
        [text] => match address_of(text.as_bytes()) {
            Some(address) => Ok(address),
            None => Err(wrong_at(OptionName::Address, 0, Expected::Address)),
        },
        _ => Err(wrong_at(OptionName::Address, 1, Expected::One)),
    }
}

// The port that a text is.
pub(crate) fn port_of(text: &[u8]) -> Option<u16>
    ensures { result ≡ port_of text.now }
{
    Some(number_within(1, 65_535, text)? as u16)
}

// The number that a value of an option is.
pub(crate) fn number_at(
    option: OptionName,
    place: usize,
    least: u64,
    most: u64,
    text: &str,
) -> Result<u64, Wrong>
    ensures value { result ≡ number_at option place least most text.now }
    ensures within { IfOk result (λ n. (least ≤ n) × (n ≤ most)) }
{
    match number_within(least, most, text.as_bytes()) {
        Some(number) => Ok(number),
        None => Err(wrong_at(option, place, Expected::Number { least, most })),
    }
}

pub(crate) fn number_needed(
    option: OptionName,
    least: u64,
    most: u64,
    texts: &[&str],
) -> Result<u64, Wrong>
    ensures value { result ≡ number_needed option least most (map (λ t. t.now) texts.now) }
    ensures within { IfOk result (λ n. (least ≤ n) × (n ≤ most)) }
{
    match texts {
        [] => Err(wrong_at(option, 0, Expected::Needed)),
        [text] => number_at(option, 0, least, most, text),
        _ => Err(wrong_at(option, 1, Expected::One)),
    }
}

pub(crate) fn number_or(
    option: OptionName,
    least: u64,
    most: u64,
    usual: u64,
    texts: &[&str],
) -> Result<u64, Wrong>
    requires { (least ≤ usual) × (usual ≤ most) }
    ensures value { result ≡ number_or option least most usual (map (λ t. t.now) texts.now) }
    ensures within { IfOk result (λ n. (least ≤ n) × (n ≤ most)) }
{
    match texts {
        [] => Ok(usual),
        [text] => number_at(option, 0, least, most, text),
        _ => Err(wrong_at(option, 1, Expected::One)),
    }
}

pub(crate) fn number_if(
    option: OptionName,
    least: u64,
    most: u64,
    texts: &[&str],
) -> Result<Option<u64>, Wrong>
    ensures value { result ≡ number_if option least most (map (λ t. t.now) texts.now) }
    ensures within { IfOk result (λ r. IfSome r (λ n. (least ≤ n) × (n ≤ most))) }
{
    match texts {
        [] => Ok(None),
        [text] => Ok(Some(number_at(option, 0, least, most, text)?)),
        _ => Err(wrong_at(option, 1, Expected::One)),
    }
}

fn level_of(text: &[u8]) -> Option<Level>
    ensures { result ≡ level_of text.now }
{
    if text == "off".as_bytes() {
        Some(Level::Off)
    } else if text == "error".as_bytes() {
        Some(Level::Error)
    } else if text == "info".as_bytes() {
        Some(Level::Info)
    } else if text == "debug".as_bytes() {
        Some(Level::Debug)
    } else {
        None
    }
}

pub(crate) fn level_in(texts: &[&str]) -> Result<Level, Wrong>
    ensures { result ≡ level_in (map (λ t. t.now) texts.now) }
{
    match texts {
        [] => Ok(Level::Info),
        [text] => match level_of(text.as_bytes()) {
            Some(level) => Ok(level),
            None => Err(wrong_at(OptionName::Log, 0, Expected::Level)),
        },
        _ => Err(wrong_at(OptionName::Log, 1, Expected::One)),
    }
}
