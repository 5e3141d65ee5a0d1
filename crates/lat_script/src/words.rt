//! The words of a line, between which one blank stands. Their places are counted from 0.

ghost use Rattle.std.specs.Prelude.{◌≡◌, ◌==◌, ◌-◌, ◌^◌, ◌≤◌, true, is_ok, Ok, IfOk};
ghost use Rattle.std.specs.List.{before_first, after_first};
ghost use Rattle.lat_base.specs.Names.{name_read};
ghost use Rattle.lat_script.specs.declared.fault.ScriptFault.TheVariants as faults;
ghost use Rattle.lat_script.specs.declared.fault.Wanted.TheVariants as wanted;
ghost use Rattle.lat_script.specs.Words.{blank, word_at, number_at, bytes_at, setting_at, filling_at, address_at, name_at, choice_at, Reads};

use crate::fault::{Pair, ScriptFault, Wanted, one_of, other_of};
use hex::{FromHex, FromHexError};
use lat_base::{Addr, Name};
use lat_text::address_of;
use std::alloc::Global;

// What stands in front of a text's first blank; all of it where it has none.
fn before_blank(text: &str) -> &str
    ensures { result.now ≡ before_first (λ b. b == blank) text.now }
{
    match text.split_once(' ') {
        Some((word, _)) => word,
        None => text,
    }
}

// What stands behind a text's first blank, or no letter where it has none.
fn behind_blank(text: &str) -> &str
    ensures { result.now ≡ after_first (λ b. b == blank) text.now }
{
    match text.split_once(' ') {
        Some((_, behind)) => behind,
        None => "",
    }
}

/// The word at this place, or no letter where there is none.
#[tactic(auto, using(crate::proofs::Places::word_step))]
pub fn word(line: &str, place: u8) -> &str
    ensures { result.now ≡ word_at place line.now }
{
    let mut rest = line;
    for _ in 0..place {
        rest = behind_blank(rest);
    }
    before_blank(rest)
}

/// The number that this word is: so much at least and so much at most.
pub fn number_within(least: u64, most: u64, line: &str, place: u8) -> Result<u64, ScriptFault>
    ensures value { result ≡ number_at least most place line.now }
    ensures least { IfOk result (λ n. least ≤ n) }
    ensures most { IfOk result (λ n. n ≤ most) }
{
    match lat_text::number_within(least, most, word(line, place).as_bytes()) {
        Some(number) => Ok(number),
        None => Err(ScriptFault::Number { place, least, most }),
    }
}

/// The number that this word is.
pub fn number(line: &str, place: u8) -> Result<u64, ScriptFault>
    ensures { result ≡ number_at 0 (2 ^ 64 - 1) place line.now }
{
    number_within(0, u64::MAX, line, place)
}

/// The number that this word is: so much at least and so much at most.
pub fn byte_within(least: u8, most: u8, line: &str, place: u8) -> Result<u8, ScriptFault>
    ensures value { result ≡ number_at least most place line.now }
    ensures least { IfOk result (λ n. least ≤ n) }
    ensures most { IfOk result (λ n. n ≤ most) }
{
    Ok(number_within(u64::from(least), u64::from(most), line, place)? as u8)
}

/// The number of at most 255 that this word is.
pub fn byte(line: &str, place: u8) -> Result<u8, ScriptFault>
    ensures { result ≡ number_at 0 255 place line.now }
{
    byte_within(0, 255, line, place)
}

/// The number that this word is: so much at least and so much at most.
pub fn short_within(least: u16, most: u16, line: &str, place: u8) -> Result<u16, ScriptFault>
    ensures value { result ≡ number_at least most place line.now }
    ensures least { IfOk result (λ n. least ≤ n) }
    ensures most { IfOk result (λ n. n ≤ most) }
{
    Ok(number_within(u64::from(least), u64::from(most), line, place)? as u16)
}

/// The number of at most 65,535 that this word is.
pub fn short(line: &str, place: u8) -> Result<u16, ScriptFault>
    ensures { result ≡ number_at 0 65535 place line.now }
{
    short_within(0, 65_535, line, place)
}

/// The bytes whose hex digits this word is: none where there is no word. Takes memory for them.
pub fn bytes(alloc: Global, line: &str, place: u8) -> Result<Vec<u8>, ScriptFault>
    ensures { Reads (λ bytes. bytes.items) result (bytes_at place line.now) }
{
    match hex::decode(alloc, word(line, place)) {
        Ok(bytes) => Ok(bytes),
        Err(FromHexError::OutOfMemory) => Err(ScriptFault::Memory),
        Err(_) => Err(ScriptFault::Word {
            place,
            wanted: Wanted::Digits,
        }),
    }
}

/// The setting whose ten hex digits this word is.
pub fn setting(line: &str, place: u8) -> Result<[u8; 5], ScriptFault>
    ensures { result ≡ setting_at place line.now }
{
    match <[u8; 5] as FromHex>::from_hex(word(line, place)) {
        Ok(setting) => Ok(setting),
        Err(_) => Err(ScriptFault::Word {
            place,
            wanted: Wanted::Setting,
        }),
    }
}

/// So many bytes 61 hex as this word says, 65,535 at most. Takes memory for them.
pub fn filling(alloc: Global, line: &str, place: u8) -> Result<Vec<u8>, ScriptFault>
    ensures { Reads (λ bytes. bytes.items) result (filling_at place line.now) }
{
    let count = short(line, place)?;
    Ok(vec![in alloc; 0x61; usize::from(count)]?)
}

/// The address whose twelve hex digits this word is.
pub fn address(line: &str, place: u8) -> Result<Addr, ScriptFault>
    ensures { result ≡ address_at place line.now }
{
    match address_of(word(line, place).as_bytes()) {
        Some(address) => Ok(address),
        None => Err(ScriptFault::Word {
            place,
            wanted: Wanted::Address,
        }),
    }
}

/// The name that this word is.
pub fn name(line: &str, place: u8) -> Result<Name, ScriptFault>
    ensures { result ≡ name_at place line.now }
{
    match Name::read(word(line, place).as_bytes()) {
        Ok(name) => Ok(name),
        Err(_) => Err(ScriptFault::Word {
            place,
            wanted: Wanted::Name,
        }),
    }
}

/// Whether this word is the one of two words; a fault where it is neither.
pub fn choice(pair: Pair, line: &str, place: u8) -> Result<bool, ScriptFault>
    ensures { result ≡ choice_at pair place line.now }
{
    let word = word(line, place);
    if word == one_of(pair) {
        return Ok(true);
    }
    if word == other_of(pair) {
        return Ok(false);
    }
    Err(ScriptFault::Choice { place, pair })
}

/// The fault of a line whose word at this place is no command.
pub fn no_command(place: u8) -> ScriptFault
    ensures { result ≡ faults.Word place wanted.Command }
{
    ScriptFault::Word {
        place,
        wanted: Wanted::Command,
    }
}

/// The name that these bytes are.
pub fn known_name(bytes: &[u8]) -> Name
    requires { is_ok (name_read bytes.now) ≡ true }
    ensures { name_read bytes.now ≡ Ok result }
{
    let Ok(name) = Name::read(bytes) else {
        unreachable!()
    };
    name
}
