//! What the words of the daemon ask for.

ghost use Rattle.std.specs.Prelude.{◌≡◌, ◌≤◌, true, IfOk, IfSome, map, string_bytes};
ghost use Rattle.clap.specs.Words.{rows_of, found_of};
ghost use Rattle.lat_words.specs.Options as names;
ghost use Rattle.lat_words.specs.Roles.{is_server};
ghost use Rattle.lat_words.specs.Values as values;
ghost use Rattle.lat_words.specs.declared.fault.OptionName.TheVariants as options;
ghost use Rattle.lat_words.specs.Within.{IsPace, IsStay, IsSettings, RunsWithin};
ghost use Rattle.lat_words.specs.Reader.{pace_in, stay_in, once_in, with_peer, peers_in, station_of, settings_in, value_at, fault_of, asked, words_of, Tells};

use crate::command_line::{command_line, is_said, strange, taken, values_of};
use crate::config::{PEERS, Role, Station};
use crate::fault::{Expected, OptionName, WordsFault, Wrong, wrong_at};
use crate::roles::is_server;
use crate::seats::seats_in;
use crate::settings::{Pace, Settings, Stay, Words};
use crate::values::{
    address_in, level_in, name_in, number_at, number_if, number_needed, number_or, role_in,
};
use arrayvec::ArrayVec;
use clap::ArgMatches;
use lat_base::{Addr, Bytes, Memory, Name};
use std::alloc::Global;

// A number that an option may say, of at most 255, with what is usual.
fn byte_or(
    found: &ArgMatches<'_>,
    option: OptionName,
    least: u8,
    most: u8,
    usual: u8,
) -> Result<u8, Wrong>
    requires { (least ≤ usual) × (usual ≤ most) }
    ensures value { result
        ≡ values.number_or option least most usual (names.values_of option (rows_of (found_of found.now))) }
    ensures within { IfOk result (λ n. (least ≤ n) × (n ≤ most)) }
{
    let texts = values_of(found, option);
    Ok(number_or(
        option,
        u64::from(least),
        u64::from(most),
        u64::from(usual),
        texts,
    )? as u8)
}

fn pace_in(found: &ArgMatches<'_>) -> Result<Pace, Wrong>
    ensures value { result ≡ pace_in (rows_of (found_of found.now)) }
    ensures within { IfOk result IsPace }
{
    let timer = byte_or(found, OptionName::Timer, 1, 100, 8)?;
    let keep_alive = byte_or(found, OptionName::KeepAlive, 10, 255, 20)?;
    let credits = byte_or(found, OptionName::Credits, 1, 15, 4)?;
    let announce = byte_or(found, OptionName::Announce, 10, 180, 30)?;
    Ok(Pace {
        timer,
        keep_alive,
        credits,
        announce,
    })
}

fn sessions_in(texts: &[&str]) -> Result<Option<u32>, Wrong>
    ensures value { result ≡ values.number_if options.Sessions 1 1000000 (map (λ t. t.now) texts.now) }
    ensures within { IfOk result (λ r. IfSome r (λ n. (1 ≤ n) × (n ≤ 1000000))) }
{
    match number_if(OptionName::Sessions, 1, 1_000_000, texts)? {
        Some(sessions) => Ok(Some(sessions as u32)),
        None => Ok(None),
    }
}

// Whether a daemon of this role ends once each line has had one session.
fn once_in(role: Role, said: bool) -> Result<bool, Wrong>
    ensures value { result ≡ once_in role said }
    ensures role { IfOk result (λ once. once ≡ true → is_server role ≡ true) }
{
    if said && !is_server(role) {
        return Err(wrong_at(OptionName::Once, 0, Expected::OtherRole));
    }
    Ok(said)
}

fn stay_in(role: Role, found: &ArgMatches<'_>) -> Result<Stay, Wrong>
    ensures value { result ≡ stay_in role (rows_of (found_of found.now)) }
    ensures within { IfOk result IsStay }
    ensures role { IfOk result (λ stay. stay.once ≡ true → is_server role ≡ true) }
{
    let sessions = sessions_in(values_of(found, OptionName::Sessions))?;
    let once = once_in(role, is_said(found, OptionName::Once))?;
    let linger = byte_or(found, OptionName::Linger, 0, 60, 5)?;
    Ok(Stay {
        sessions,
        once,
        linger,
    })
}

// The peers with the port of one more value.
fn with_peer(
    place: usize,
    mut got: ArrayVec<u16, PEERS>,
    text: &str,
) -> Result<ArrayVec<u16, PEERS>, Wrong>
    ensures { result ≡ with_peer place got text.now }
{
    if got.len() == PEERS {
        return Err(wrong_at(OptionName::Peer, place, Expected::Most(8)));
    }
    let port = number_at(OptionName::Peer, place, 1, 65_535, text)?;
    got.push(port as u16);
    Ok(got)
}

fn peers_in(texts: &[&str]) -> Result<ArrayVec<u16, PEERS>, Wrong>
    ensures { result ≡ peers_in (map (λ t. t.now) texts.now) }
{
    if texts.is_empty() {
        return Err(wrong_at(OptionName::Peer, 0, Expected::Needed));
    }
    let mut got = ArrayVec::new();
    for i in 0..texts.len() {
        got = with_peer(i, got, texts[i])?;
    }
    Ok(got)
}

fn port_in(texts: &[&str]) -> Result<u16, Wrong>
    ensures { result ≡ values.number_needed options.Port 1 65535 (map (λ t. t.now) texts.now) }
{
    Ok(number_needed(OptionName::Port, 1, 65_535, texts)? as u16)
}

fn station_of(
    name: Name,
    address: Addr,
    port: u16,
    found: &ArgMatches<'_>,
) -> Result<Station, Wrong>
    ensures { result ≡ station_of name address port (rows_of (found_of found.now)) }
{
    let peers = peers_in(values_of(found, OptionName::Peer))?;
    Ok(Station {
        name,
        address,
        port,
        peers,
    })
}

// How many entries of the history are kept.
fn history_in(texts: &[&str]) -> Result<u32, Wrong>
    ensures value { result ≡ values.number_or options.History 0 1000000 10000 (map (λ t. t.now) texts.now) }
    ensures within { IfOk result (λ n. n ≤ 1000000) }
{
    Ok(number_or(OptionName::History, 0, 1_000_000, 10_000, texts)? as u32)
}

fn settings_in(found: &ArgMatches<'_>) -> Result<Settings, Wrong>
    ensures value { result ≡ settings_in (rows_of (found_of found.now)) }
    ensures within { IfOk result IsSettings }
{
    let role = role_in(values_of(found, OptionName::Role))?;
    let name = name_in(values_of(found, OptionName::Name))?;
    let address = address_in(values_of(found, OptionName::Address))?;
    let port = port_in(values_of(found, OptionName::Port))?;
    let seats = seats_in(role, found)?;
    let pace = pace_in(found)?;
    let stay = stay_in(role, found)?;
    let log = level_in(values_of(found, OptionName::Log))?;
    let history = history_in(values_of(found, OptionName::History))?;
    let station = station_of(name, address, port, found)?;
    Ok(Settings {
        role,
        station,
        seats,
        pace,
        stay,
        log,
        history,
    })
}

// The value that is wrong, where there is one.
fn value_at(alloc: Global, found: &ArgMatches<'_>, wrong: Wrong) -> Result<Option<Bytes>, Memory>
    ensures { IfOk result (λ value. value ≡ value_at (rows_of (found_of found.now)) wrong) }
{
    if wrong.option.is_flag() {
        return Ok(None);
    }
    match values_of(found, wrong.option).get(wrong.place) {
        Some(text) => Ok(Some(Bytes::copy(alloc, text.as_bytes())?)),
        None => Ok(None),
    }
}

fn fault_of(alloc: Global, found: &ArgMatches<'_>, wrong: Wrong) -> Result<WordsFault, Memory>
    ensures { IfOk result (λ fault. fault ≡ fault_of (rows_of (found_of found.now)) wrong) }
{
    Ok(WordsFault::Option {
        option: wrong.option,
        value: value_at(alloc, found, wrong)?,
        expected: wrong.expected,
    })
}

// What words that `clap` takes ask for.
fn asked(alloc: Global, found: &ArgMatches<'_>) -> Result<Words, WordsFault>
    ensures told { Tells result (asked (rows_of (found_of found.now))) }
    ensures within { IfOk result RunsWithin }
{
    if is_said(found, OptionName::Help) {
        return Ok(Words::Help);
    }
    if is_said(found, OptionName::Version) {
        return Ok(Words::Version);
    }
    match settings_in(found) {
        Ok(settings) => Ok(Words::Run(settings)),
        Err(wrong) => Err(fault_of(alloc, found, wrong)?),
    }
}

/// What the words ask for, the program's name first; or the first thing that is wrong with them. That is a word that `clap`
/// doesn't take, else, where neither help nor the version is asked for, the first wrong value in the order of the options'
/// table, and then of the words beside them. `Memory` where none is found.
pub fn read_words(alloc: Global, words: &[String]) -> Result<Words, WordsFault>
    ensures told { Tells result (words_of (map string_bytes words.now)) }
    ensures within { IfOk result RunsWithin }
{
    match taken(alloc, words)? {
        Some(found) => asked(alloc, &found),
        None => Err(WordsFault::Word(strange(alloc, words)?)),
    }
}

/// The text of help, as `clap` lays it out of the command line. No clause says what it is. `Memory` where none is found.
pub fn help_text(alloc: Global) -> Result<String, Memory> {
    let mut command = command_line(alloc)?;
    Ok(command.render_help()?)
}
