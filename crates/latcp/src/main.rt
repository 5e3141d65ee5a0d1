//! The program `latcp`: gives a command to a daemon's control socket, and prints the answer. Without a command it is a prompt.
#![tactic(auto)]

mod answer;
mod prompt;
mod status;
mod talk;
mod words;

use crate::prompt::{Shown, answered, prompt};
use crate::status::Status;
use crate::talk::Talk;
use crate::words::{Asked, line_of, read_words};
use lat_outside::{Sink, StdSink, write_all};
use std::alloc::{AllocError, Global};
use std::env::{Args, args};
use std::io::{self, Input, IsTerminal};
use std::net::Net;
use std::process::ExitCode;

const HELP: &str = "\
usage: latcp PATH [WORD ..]

It gives the words, a blank between them, as a command to the daemon whose control socket has this path, and prints the answer.
Without a word it is a prompt until its input ends, or says `exit` or `quit`.

  --help     says this
  --version  says which version it is

Its status is 0 where the command was done, 1 where it was refused, 2 where the words are wrong, 4 where nobody listens, 5 where
the answer breaks off or can't be written, and 9 for want of memory.
";

const VERSION: &str = "latcp 5.1\n";

// All words, the program's name first.
fn words_of(alloc: Global, all: Args<Global>) -> Result<Vec<String>, AllocError> {
    let mut words = Vec::new(alloc);
    for word in all {
        words.push(word)?;
    }
    Ok(words)
}

// Prints a text.
fn print<O: Sink>(out: &mut O, text: &str) -> Status {
    match write_all(out, text.as_bytes()) {
        Ok(()) => Status::Done,
        Err(_) => Status::Broken,
    }
}

// Tells what is wrong. Where it can't be written, the status tells it alone.
fn tell<E: Sink>(told: &mut E, path: &str, what: &str) {
    let _ = write_all(told, b"latcp: ");
    let _ = write_all(told, path.as_bytes());
    let _ = write_all(told, b": ");
    let _ = write_all(told, what.as_bytes());
    let _ = write_all(told, b"\n");
}

// Gives one command to the daemon at the path, or is a prompt where there is none.
fn run_at<R: Net + Input, O: Sink, E: Sink>(
    rt: &R,
    alloc: Global,
    path: &str,
    words: &[&str],
    out: &mut Shown<'_, O>,
    told: &mut E,
) -> Status {
    let Ok(mut talk) = Talk::open(rt, path) else {
        tell(told, path, "nobody listens");
        return Status::Nobody;
    };
    let status = if words.is_empty() {
        prompt(rt, alloc, &mut talk, out)
    } else {
        match line_of(alloc, words) {
            Ok(line) => answered(alloc, &mut talk, line.as_str(), out),
            Err(_) => Status::Memory,
        }
    };
    if status == Status::Broken {
        tell(told, path, "hung up, or the answer can't be written");
    }
    status
}

// Does what the words ask for.
fn run<R: Net + Input, O: Sink, E: Sink>(
    rt: &R,
    alloc: Global,
    words: &[String],
    out: &mut Shown<'_, O>,
    told: &mut E,
) -> Status {
    match read_words(alloc, words) {
        Ok(Asked::Help) => print(out.sink, HELP),
        Ok(Asked::Version) => print(out.sink, VERSION),
        Ok(Asked::Wrong) => {
            let _ = write_all(told, b"latcp: PATH [WORD ..] expected\n");
            Status::Words
        }
        Ok(Asked::At { path, words }) => run_at(rt, alloc, path, words.as_slice(), out, told),
        Err(_) => Status::Memory,
    }
}

fn main(rt: HostRuntime) -> ExitCode {
    let words = match args(&rt) {
        Ok(all) => words_of(rt.alloc(), all),
        // A word that isn't text is no path, as no word at all.
        Err(e) if e.kind() == io::ErrorKind::InvalidData => Ok(Vec::new(rt.alloc())),
        Err(_) => Err(AllocError),
    };
    let Ok(words) = words else {
        return ExitCode::from(Status::Memory.number());
    };
    let mut sink = StdSink::new(io::writer(&rt));
    let mut told = StdSink::new(rt.stderr());
    let mut out = Shown {
        sink: &mut sink,
        is_terminal: rt.stdin().is_terminal(),
    };
    let status = run(&rt, rt.alloc(), words.as_slice(), &mut out, &mut told);
    ExitCode::from(status.number())
}
