//! The program `lat`: hands its words, standard input, standard output and standard error to `run`, and ends with its status.
#![tactic(auto)]

ghost use Rattle.std.specs.Prelude.{◌≡◌, ◌-◌, ◌≤◌, min};
ghost use Rattle.lat_wire.specs.Rates.{RatesWhatIsLeft};

use lat_cmd::{RateHook, RatingRule, run};
use lat_outside::{Sink, Source, StdSink, StdSource};
use std::alloc::{AllocError, Global};
use std::env::{Args, args};
use std::io;
use std::process::ExitCode;

const NO_MEMORY: u8 = 9;

// The words behind the program's name.
fn words_of(alloc: Global, all: Args<Global>) -> Result<Vec<String>, AllocError> {
    let mut words = Vec::new(alloc);
    for word in all.skip(1) {
        words.push(word)?;
    }
    Ok(words)
}

// The status of the program, whose node rates its services by this rule.
fn status_by<H: RatingRule, S: Source, K: Sink, E: Sink>(
    alloc: Global,
    words: &[String],
    rule: H,
    source: &mut S,
    sink: &mut K,
    told: &mut E,
) -> u8
    requires fact { H.fact rule }
    requires rates { RatesWhatIsLeft (H.may rule) }
{
    run(alloc, words, rule, source, sink, told).status
}

// The status of the program, whose node rates its services by the lines that are free, 255 at most.
fn status<S: Source, K: Sink, E: Sink>(
    alloc: Global,
    words: &[String],
    source: &mut S,
    sink: &mut K,
    told: &mut E,
) -> u8 {
    let rule = |_place: usize, used: u16, max: u16| -> u8
        requires { used ≤ max }
        ensures { result ≡ min (max - used) 255 }
    { (max - used).min(255) as u8 };
    status_by(alloc, words, RateHook::new(rule), source, sink, told)
}

fn main(rt: HostRuntime) -> ExitCode {
    let words = match args(&rt) {
        Ok(all) => words_of(rt.alloc(), all),
        // A word that isn't text is no command, as no word at all.
        Err(e) if e.kind() == io::ErrorKind::InvalidData => Ok(Vec::new(rt.alloc())),
        Err(_) => Err(AllocError),
    };
    let Ok(words) = words else {
        return ExitCode::from(NO_MEMORY);
    };
    let mut source = StdSource::new(rt.stdin());
    let mut sink = StdSink::new(io::writer(&rt));
    let mut told = StdSink::new(rt.stderr());
    ExitCode::from(status(rt.alloc(), &words, &mut source, &mut sink, &mut told))
}
