//! Blocks over the words of a daemon.

use lat_base::Memory;
use lat_text::{address_onto, hex_onto, name_onto};
use lat_words::{
    Pace, Role, Seats, Settings, Station, Stay, Words, WordsFault, fault_text, help_text,
    read_words,
};
use std::alloc::Global;

// What stands behind the seats where nothing of it is said.
const USUAL: &str = ", pace 8 20 4 30, stay None false 5, log Info, history 10000";

fn role_word(role: Role) -> &'static str {
    match role {
        Role::Server => "server",
        Role::Switch => "switch",
        Role::Node => "node",
        Role::Tariff => "tariff",
    }
}

fn station_onto(text: &mut String, station: &Station) -> Result<(), Memory> {
    text.push_str(" ")?;
    name_onto(text, &station.name)?;
    text.push_str(" ")?;
    address_onto(text, station.address)?;
    let port = station.port;
    write!(text, " at {port} to")?;
    for peer in station.peers.as_slice() {
        write!(text, " {peer}")?;
    }
    Ok(())
}

fn services_onto(text: &mut String, seats: &Seats) -> Result<(), Memory> {
    for service in seats.services.as_slice() {
        text.push_str(", service ")?;
        name_onto(text, &service.name)?;
        if let Some(port) = service.port {
            write!(text, " at {port}")?;
        }
    }
    Ok(())
}

fn offers_onto(text: &mut String, seats: &Seats) -> Result<(), Memory> {
    for offer in seats.offers.as_slice() {
        let (line, port) = (offer.line, offer.port);
        write!(text, ", offer {line} ")?;
        name_onto(text, &offer.name)?;
        write!(text, " {port}")?;
    }
    Ok(())
}

fn seats_onto(alloc: Global, text: &mut String, seats: &Seats) -> Result<(), Memory> {
    let lines = seats.lines;
    write!(text, ", lines {lines}")?;
    if let Some(port) = seats.line_port {
        write!(text, " at {port}")?;
    }
    services_onto(text, seats)?;
    for rated in seats.rates.as_slice() {
        let (place, rate) = (rated.place, rated.rate);
        write!(text, ", rate {place} {rate:?}")?;
    }
    offers_onto(text, seats)?;
    if let Some(mask) = &seats.groups {
        text.push_str(", groups ")?;
        hex_onto(alloc, text, mask.as_slice())?;
    }
    Ok(())
}

// What stands behind the seats.
fn tail_of(alloc: Global, settings: &Settings) -> Result<String, Memory> {
    let Pace {
        timer,
        keep_alive,
        credits,
        announce,
    } = settings.pace;
    let Stay {
        sessions,
        once,
        linger,
    } = settings.stay;
    let (log, history) = (settings.log, settings.history);
    let mut text = String::new(alloc);
    write!(
        &mut text,
        ", pace {timer} {keep_alive} {credits} {announce}"
    )?;
    write!(&mut text, ", stay {sessions:?} {once} {linger}")?;
    write!(&mut text, ", log {log:?}, history {history}")?;
    Ok(text)
}

fn settings_onto(alloc: Global, text: &mut String, settings: &Settings) -> Result<(), Memory> {
    text.push_str(role_word(settings.role))?;
    station_onto(text, &settings.station)?;
    seats_onto(alloc, text, &settings.seats)?;
    let tail = tail_of(alloc, settings)?;
    if tail.as_str() != USUAL {
        text.push_str(tail.as_str())?;
    }
    Ok(text.push_str("\n")?)
}

// What words ask for, or what is said of them.
fn said_onto(alloc: Global, text: &mut String, words: &[String]) -> Result<(), Memory> {
    match read_words(alloc, words) {
        Ok(Words::Help) => Ok(text.push_str("help\n")?),
        Ok(Words::Version) => Ok(text.push_str("version\n")?),
        Ok(Words::Run(settings)) => settings_onto(alloc, text, &settings),
        Err(WordsFault::Memory) => Err(Memory),
        Err(fault) => Ok(text.push_str(fault_text(alloc, &fault)?.as_str())?),
    }
}

// Adds the words of a text, between which blanks stand.
fn split_onto(alloc: Global, words: &mut Vec<String>, text: &str) -> Result<(), Memory> {
    for word in text.split(' ') {
        if !word.is_empty() {
            words.push(String::from_str(alloc, word)?)?;
        }
    }
    Ok(())
}

fn line_onto(alloc: Global, text: &mut String, front: &str, line: &str) -> Result<(), Memory> {
    let mut words = Vec::new(alloc);
    split_onto(alloc, &mut words, front)?;
    split_onto(alloc, &mut words, line)?;
    write!(text, "> {line}\n")?;
    said_onto(alloc, text, words.as_slice())
}

/// What the words of a block's lines ask for, printed.
pub fn play_block(alloc: Global, block: &str, text: &mut String) -> Result<(), Memory> {
    let mut lines = block.lines();
    let front = lines.next().unwrap_or("");
    write!(text, "{front}\n")?;
    for line in lines {
        line_onto(alloc, text, front, line)?;
    }
    Ok(())
}

/// Which lines of a block, behind its first one, stand in the text of help, printed.
pub fn help_block(alloc: Global, block: &str, text: &mut String) -> Result<(), Memory> {
    let help = help_text(alloc)?;
    for line in block.lines().skip(1) {
        let found = if help.as_str().contains(line) {
            "stands there"
        } else {
            "isn't there"
        };
        write!(text, "> {line}\n{found}\n")?;
    }
    Ok(())
}
