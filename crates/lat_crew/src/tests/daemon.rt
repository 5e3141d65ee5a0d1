//! A daemon of the words of a text, over the sockets.

ghost use Rattle.lat_history.specs.Ledgers.{AreBlanks};

use lat_base::{Bytes, Memory};
use lat_cell::Blanks;
use lat_live::{Log, Refused, Served, serve};
use lat_outside::{Callers, FreeGate, MemSink, Sink, Tx};
use lat_udp::{NetPorts, RealClock};
use lat_words::WordsFault;
use std::alloc::{AllocError, Global};
use std::net::{Net, TcpListener, TcpStream};
use std::sync::Wait;
use std::sync::ledger::Ledger;
use std::thread::Threads;
use std::time::Clock;

/// Its status, the port that couldn't be opened, if one couldn't, what is wrong with its words, if something is, and what it wrote.
#[derive(Drop)]
pub struct Came {
    pub status: u8,
    pub refused: Option<Refused>,
    pub wrong: Option<WordsFault>,
    pub text: Bytes,
}

// The words of a text, which stand between spaces.
fn words_of(alloc: Global, text: &str) -> Result<Vec<String>, AllocError> {
    let mut words = Vec::new(alloc);
    for word in text.split(' ') {
        words.push(String::from_str(alloc, word)?)?;
    }
    Ok(words)
}

// The status, the port that couldn't be opened, and what is wrong with the words; all else that is handed back is dropped.
#[derive(Drop)]
struct Outcome {
    status: u8,
    refused: Option<Refused>,
    wrong: Option<WordsFault>,
}

fn kept<T: Tx, L: Callers, E: Ledger, B: Ledger>(served: Served<T, L, E, B>) -> Outcome {
    let Served {
        status,
        refused,
        wrong,
        ..
    } = served;
    Outcome {
        status,
        refused,
        wrong,
    }
}

// The same of a daemon with these words.
fn served<
    S: Sink,
    E: Ledger + Sync,
    B: Ledger + Sync,
    R: Threads
        + Wait
        + Net<Listener = TcpListener, Stream = TcpStream>
        + Clock
        + Copy
        + Send
        + Sync,
>(rt: &R, alloc: Global, words: &[String], blanks: Blanks, out: &mut S) -> Outcome
    requires blanks { AreBlanks blanks E.name E.parts B.name B.parts }
{
    let mut opener = NetPorts::new(*rt);
    let clock = RealClock::new(*rt);
    let mut log = MemSink::new(alloc, 1000, &[]);
    kept(serve::<_, _, _, _, _, E, B, R>(
        rt,
        alloc,
        words,
        0,
        blanks,
        &mut opener,
        clock,
        &FreeGate,
        Log {
            began: 0,
            out: &mut log,
        },
        out,
    ))
}

/// What comes of a daemon with these words. Those of its writes that are in `failing` fail.
pub fn daemon<
    E: Ledger + Sync,
    B: Ledger + Sync,
    R: Threads
        + Wait
        + Net<Listener = TcpListener, Stream = TcpStream>
        + Clock
        + Copy
        + Send
        + Sync,
>(rt: &R, alloc: Global, text: &str, blanks: Blanks, failing: &[u64]) -> Result<Came, Memory>
    requires { AreBlanks blanks E.name E.parts B.name B.parts }
{
    let words = words_of(alloc, text)?;
    let mut out = MemSink::new(alloc, 1000, failing);
    let Outcome {
        status,
        refused,
        wrong,
    } = served::<_, E, B, R>(rt, alloc, words.as_slice(), blanks, &mut out);
    Ok(Came {
        status,
        refused,
        wrong,
        text: Bytes::copy(alloc, out.bytes())?,
    })
}
