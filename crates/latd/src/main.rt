//! The program `latd`: hands its words, the time of its start, the sockets, the system's clock and standard output to `serve`, tells
//! on standard error what is wrong with the words, or which port couldn't be opened, and ends with the status.
#![tactic(auto)]

ghost use Rattle.std.specs.Prelude.{◌≡◌};
ghost use Rattle.lat_history.specs.Ledgers.{AreBlanks};

use lat_cell::Blanks;
use lat_live::{Log, Refused, Served, refused_text, serve};
use lat_outside::{Callers, FreeGate, Sink, StdSink, Tx};
use lat_udp::{NetPorts, RealClock};
use lat_words::{WordsFault, fault_text};
use std::alloc::{AllocError, Global};
use std::env::{Args, args};
use std::io::{self, Eprint, Print};
use std::marker::Brand;
use std::net::{Net, TcpListener, TcpStream};
use std::process::ExitCode;
use std::sync::Wait;
use std::sync::ledger::Ledger;
use std::thread::Threads;
use std::time::{Clock, SystemTime, UNIX_EPOCH};

const NO_MEMORY: u8 = 9;

// All words, the program's name first.
fn words_of(alloc: Global, all: Args<Global>) -> Result<Vec<String>, AllocError> {
    let mut words = Vec::new(alloc);
    for word in all {
        words.push(word)?;
    }
    Ok(words)
}

// The time since 1970 in milliseconds, or 0 where the system's clock can't be read.
fn since_1970<R: Clock>(rt: &R) -> u64 {
    let Ok(now) = SystemTime::now(rt) else {
        return 0;
    };
    match now.duration_since(UNIX_EPOCH) {
        Ok(passed) => u64::try_from(passed.as_millis()).unwrap_or(0),
        Err(_) => 0,
    }
}

// What is kept of what a daemon hands back: the status, the port that couldn't be opened, and what is wrong with the words.
#[derive(Drop)]
struct Outcome {
    status: u8,
    refused: Option<Refused>,
    wrong: Option<WordsFault>,
}

fn outcome_of<T: Tx, L: Callers, E: Ledger, B: Ledger>(served: Served<T, L, E, B>) -> Outcome
    ensures { (result.status ≡ served.status) × (result.refused ≡ served.refused) × (result.wrong ≡ served.wrong) }
{
    let Served {
        status,
        refused,
        wrong,
        ..
    } = served;
    Outcome {
        status,
        refused,
        wrong,
    }
}

// What is told of it on standard error, if anything.
fn text_of(alloc: Global, outcome: &Outcome) -> Result<Option<String>, AllocError> {
    if let Some(fault) = &outcome.wrong {
        return Ok(Some(fault_text(alloc, fault)?));
    }
    match outcome.refused {
        Some(refused) => Ok(Some(refused_text(alloc, refused)?)),
        None => Ok(None),
    }
}

// Tells it. Where that can't be written, the status tells it alone.
fn tell<R: Eprint>(rt: &R, alloc: Global, outcome: &Outcome) {
    if let Ok(Some(text)) = text_of(alloc, outcome) {
        let _ = rt.eprint(text);
    }
}

// The status of the daemon, whose log goes to this sink.
fn status<
    W: Sink + Send,
    E: Ledger + Sync,
    B: Ledger + Sync,
    R: Threads
        + Wait
        + Net<Listener = TcpListener, Stream = TcpStream>
        + Clock
        + Print
        + Eprint
        + Copy
        + Send
        + Sync,
>(rt: &R, alloc: Global, words: &[String], blanks: Blanks, log: &mut W) -> u8
    requires blanks { AreBlanks blanks E.name E.parts B.name B.parts }
{
    let mut opener = NetPorts::new(*rt);
    let clock = RealClock::new(*rt);
    let began = since_1970(rt);
    let mut out = StdSink::new(io::writer(rt));
    let outcome = outcome_of(serve::<_, _, _, _, _, E, B, R>(
        rt,
        alloc,
        words,
        began / 100,
        blanks,
        &mut opener,
        clock,
        &FreeGate,
        Log { began, out: log },
        &mut out,
    ));
    tell(rt, alloc, &outcome);
    outcome.status
}

fn main(rt: HostRuntime) -> ExitCode {
    let words = match args(&rt) {
        Ok(all) => words_of(rt.alloc(), all),
        // A word that isn't text is no command, as no word at all.
        Err(e) if e.kind() == io::ErrorKind::InvalidData => Ok(Vec::new(rt.alloc())),
        Err(_) => Err(AllocError),
    };
    let Ok(words) = words else {
        return ExitCode::from(NO_MEMORY);
    };
    let mut log = StdSink::new(rt.stderr());
    let status = status::<_, Brand, Brand, HostRuntime>(
        &rt,
        rt.alloc(),
        words.as_slice(),
        Blanks::new(),
        &mut log,
    );
    ExitCode::from(status)
}
