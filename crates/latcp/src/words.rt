//! What the words ask for.

use clap::error::ErrorKind;
use clap::{Arg, ArgAction, ArgMatches, Command};
use std::alloc::{AllocError, Global};

/// What the words ask for.
#[derive(Drop)]
pub enum Asked<'a> {
    /// The text of help.
    Help,
    /// The version.
    Version,
    /// The daemon at this path is given these words; a prompt where there are none.
    At { path: &'a str, words: Vec<&'a str> },
    /// Nothing that is known.
    Wrong,
}

// A flag.
fn flag<'a>(alloc: Global, id: &'a str, help: &'a str) -> Arg<'a> {
    Arg::new(alloc, id)
        .long(id)
        .action(ArgAction::Count)
        .help(help)
}

fn command_line<'a>(alloc: Global) -> Result<Command<'a>, AllocError> {
    let command = Command::new(alloc, "latcp")
        .disable_help_flag(true)
        .disable_version_flag(true);
    let command = command.arg(flag(alloc, "help", "says this"))?;
    let command = command.arg(flag(alloc, "version", "says which version it is"))?;
    command.arg(
        Arg::new(alloc, "word")
            .action(ArgAction::Append)
            .num_args(1..)
            .help("the path of the socket, and the words of the command"),
    )
}

// The path and the words behind it.
fn at<'a>(alloc: Global, found: &ArgMatches<'a>) -> Result<Asked<'a>, AllocError> {
    let Some(words) = found.get_raw("word") else {
        return Ok(Asked::Wrong);
    };
    match words.split_first() {
        Some((path, words)) => Ok(Asked::At {
            path: *path,
            words: Vec::from_slice(alloc, words)?,
        }),
        None => Ok(Asked::Wrong),
    }
}

/// What the words ask for. The first one is the program's name.
pub fn read_words<'a>(alloc: Global, words: &'a [String]) -> Result<Asked<'a>, AllocError> {
    let command = command_line(alloc)?;
    let found = match command.try_get_matches_from(words) {
        Ok(found) => found,
        Err(error) => {
            return match error.kind() {
                ErrorKind::OutOfMemory => Err(AllocError),
                _ => Ok(Asked::Wrong),
            };
        }
    };
    if found.get_count("help") > 0 {
        return Ok(Asked::Help);
    }
    if found.get_count("version") > 0 {
        return Ok(Asked::Version);
    }
    at(alloc, &found)
}

/// The line of a command: the words with a blank between them, and a line feed.
pub fn line_of(alloc: Global, words: &[&str]) -> Result<String, AllocError> {
    let mut line = String::new(alloc);
    for word in words {
        if !line.is_empty() {
            line.push(' ')?;
        }
        line.push_str(word)?;
    }
    line.push('\n')?;
    Ok(line)
}
