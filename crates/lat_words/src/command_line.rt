//! The command line, as `clap` takes it.

ghost use Rattle.std.specs.Prelude.{◌≡◌, List, None, false, [], ◌∷◌, codes, IfOk, IfSome, is_some, map, option_map, string_bytes};
ghost use Rattle.clap.specs.Words.{rule_of, app_of, new_app, rows_of, found_of, HasKind};
ghost use Rattle.clap.specs.declared.error.kind.ErrorKind.{ErrorKind};
ghost use Rattle.lat_words.specs.Options.{or_none, values_of};
ghost use Rattle.lat_words.specs.CommandLine.{no_fault, valued_rule, flag_rule, words_rule, with_value, with_flag, with_station, with_lines, with_pace, with_stay, with_asks, without_own, command_line, is_taken, found_rows, is_said, is_strange, strange};

use crate::fault::OptionName;
use clap::error::ErrorKind;
use clap::{Arg, ArgAction, ArgMatches, Command, Error};
use lat_base::{Bytes, Memory};
use std::alloc::{AllocError, Global};
use std::convert::AsStr;

// An option with a value, which help calls so. Where none stands behind it, its value has no byte.
fn valued<'a>(alloc: Global, id: &'a str, value: &'a str, help: &'a str) -> Arg<'a>
    ensures rule { rule_of result ≡ valued_rule id.entry.now }
    ensures global { result.global ≡ false }
{
    Arg::new(alloc, id)
        .long(id)
        .action(ArgAction::Append)
        .num_args(0..=1)
        .value_name(value)
        .default_missing_value("")
        .help(help)
}

// An option without a value.
fn flag<'a>(alloc: Global, id: &'a str, help: &'a str) -> Arg<'a>
    ensures rule { rule_of result ≡ flag_rule id.entry.now }
    ensures global { result.global ≡ false }
{
    Arg::new(alloc, id)
        .long(id)
        .action(ArgAction::Count)
        .help(help)
}

// The words beside all options.
fn beside<'a>(alloc: Global) -> Arg<'a>
    ensures rule { rule_of result ≡ words_rule }
    ensures global { result.global ≡ false }
{
    Arg::new(alloc, "peer")
        .action(ArgAction::Append)
        .num_args(1..)
        .help("the ports of the peers, one to eight")
}

// The command with one more option that has a value.
fn with_value<'a>(
    alloc: Global,
    command: Command<'a>,
    id: &'a str,
    value: &'a str,
    help: &'a str,
) -> Result<Command<'a>, AllocError>
    ensures { IfOk result (λ c. app_of c ≡ with_value (app_of command.entry) id.entry.now) }
{
    command.arg(valued(alloc, id, value, help))
}

// The command with one more option that has none.
fn with_flag<'a>(
    alloc: Global,
    command: Command<'a>,
    id: &'a str,
    help: &'a str,
) -> Result<Command<'a>, AllocError>
    ensures { IfOk result (λ c. app_of c ≡ with_flag (app_of command.entry) id.entry.now) }
{
    command.arg(flag(alloc, id, help))
}

fn with_station<'a>(alloc: Global, command: Command<'a>) -> Result<Command<'a>, AllocError>
    ensures { IfOk result (λ c. app_of c ≡ with_station (app_of command.entry)) }
{
    let command = with_value(
        alloc,
        command,
        "role",
        "ROLE",
        "server, switch, node or tariff",
    )?;
    let command = with_value(alloc, command, "name", "NAME", "its name")?;
    let command = with_value(
        alloc,
        command,
        "address",
        "ADDR",
        "its address, 12 hex digits",
    )?;
    with_value(
        alloc,
        command,
        "port",
        "PORT",
        "the port that frames come to",
    )
}

fn with_lines<'a>(alloc: Global, command: Command<'a>) -> Result<Command<'a>, AllocError>
    ensures { IfOk result (λ c. app_of c ≡ with_lines (app_of command.entry)) }
{
    let command = with_value(alloc, command, "lines", "N", "how many lines it has [1]")?;
    let command = with_value(alloc, command, "line-port", "PORT", "the port of line 1")?;
    let command = with_value(
        alloc,
        command,
        "service",
        "NAME[=PORT]",
        "connected to, or offered",
    )?;
    let command = with_value(
        alloc,
        command,
        "rate",
        "NAME=RULE",
        "free, each:N or while-free:N",
    )?;
    let command = with_value(
        alloc,
        command,
        "offer",
        "LINE=NAME=PORT",
        "offered by a line",
    )?;
    with_value(alloc, command, "groups", "LIST", "as 0,3,7-9 [all]")
}

fn with_pace<'a>(alloc: Global, command: Command<'a>) -> Result<Command<'a>, AllocError>
    ensures { IfOk result (λ c. app_of c ≡ with_pace (app_of command.entry)) }
{
    let command = with_value(alloc, command, "timer", "T", "1 to 100, in 10 ms [8]")?;
    let command = with_value(alloc, command, "keep-alive", "S", "10 to 255 seconds [20]")?;
    let command = with_value(alloc, command, "credits", "N", "1 to 15 [4]")?;
    with_value(alloc, command, "announce", "S", "10 to 180 seconds [30]")
}

fn with_stay<'a>(alloc: Global, command: Command<'a>) -> Result<Command<'a>, AllocError>
    ensures { IfOk result (λ c. app_of c ≡ with_stay (app_of command.entry)) }
{
    let command = with_value(
        alloc,
        command,
        "sessions",
        "N",
        "it ends after so many [stays]",
    )?;
    let command = with_flag(alloc, command, "once", "each line takes one caller")?;
    let command = with_value(
        alloc,
        command,
        "linger",
        "S",
        "0 to 60 seconds at the end [5]",
    )?;
    let command = with_value(
        alloc,
        command,
        "log",
        "LEVEL",
        "off, error, info or debug [info]",
    )?;
    with_value(
        alloc,
        command,
        "history",
        "N",
        "how many entries are kept [10000]",
    )
}

fn with_asks<'a>(alloc: Global, command: Command<'a>) -> Result<Command<'a>, AllocError>
    ensures { IfOk result (λ c. app_of c ≡ with_asks (app_of command.entry)) }
{
    let command = with_flag(alloc, command, "help", "says this")?;
    with_flag(alloc, command, "version", "says which version it is")
}

fn started<'a>(alloc: Global) -> Command<'a>
    ensures { app_of result ≡ without_own (new_app (codes "latd")) }
{
    Command::new(alloc, "latd")
        .disable_help_flag(true)
        .disable_version_flag(true)
}

#[tactic(auto, unfolding(crate::specs::CommandLine::command_line))]
pub(crate) fn command_line<'a>(alloc: Global) -> Result<Command<'a>, AllocError>
    ensures { IfOk result (λ c. app_of c ≡ command_line) }
{
    let command = with_station(alloc, started(alloc))?;
    let command = with_lines(alloc, command)?;
    let command = with_pace(alloc, command)?;
    let command = with_stay(alloc, command)?;
    let command = with_asks(alloc, command)?;
    command.arg(beside(alloc))
}

// An error that isn't for want of memory says that the words aren't taken.
fn refused<'a>(error: Error) -> Result<Option<ArgMatches<'a>>, Memory>
    ensures none { IfOk result (λ r. r ≡ None) }
    ensures kinds { IfOk result (λ r.
        (ks : List ErrorKind) → HasKind ks error → no_fault ks ≡ false) }
{
    match error.kind() {
        ErrorKind::OutOfMemory => Err(Memory),
        _ => Ok(None),
    }
}

/// What `clap` makes of the words, and none where it doesn't take them. The first word is the program's name.
#[tactic(auto, using(crate::proofs::Taken::line_simple, crate::proofs::Taken::line_free))]
pub(crate) fn taken<'a, S: AsStr>(
    alloc: Global,
    words: &'a [S],
) -> Result<Option<ArgMatches<'a>>, Memory>
    ensures taken { IfOk result (λ r. is_some r ≡ is_taken (map S.text words.entry.now)) }
    ensures rows { IfOk result (λ r.
        IfSome r (λ m. rows_of (found_of m) ≡ found_rows (map S.text words.entry.now))) }
{
    let command = command_line(alloc)?;
    match command.try_get_matches_from(words) {
        Ok(found) => Ok(Some(found)),
        Err(error) => refused(error),
    }
}

fn is_strange(alloc: Global, word: &str) -> Result<bool, Memory>
    ensures { IfOk result (λ r. r ≡ is_strange word.now) }
{
    let alone = ["latd", word];
    Ok(taken(alloc, alone.as_slice())?.is_none())
}

/// The first word that `clap` doesn't take even alone, behind the program's name.
pub(crate) fn strange(alloc: Global, words: &[String]) -> Result<Bytes, Memory>
    ensures { IfOk result (λ r. r ≡ strange (map string_bytes words.now)) }
{
    for i in 1..words.len() {
        let word = words[i].as_str();
        if is_strange(alloc, word)? {
            return Bytes::copy(alloc, word.as_bytes());
        }
    }
    Bytes::copy(alloc, &[])
}

// The values, and none where there are none.
fn or_none<'m, 'a: 'm>(found: Option<&'m [&'a str]>) -> &'m [&'a str]
    ensures { map (λ t. t.now) result.now ≡ or_none (option_map (λ s. map (λ t. t.now) s.now) found.entry) }
{
    match found {
        Some(texts) => texts,
        None => &[],
    }
}

/// The values of an option, from left to right.
#[tactic(auto, using(crate::proofs::Rows::in_rows))]
pub(crate) fn values_of<'m, 'a: 'm>(found: &'m ArgMatches<'a>, option: OptionName) -> &'m [&'a str]
    ensures { map (λ t. t.now) result.now ≡ values_of option (rows_of (found_of found.now)) }
{
    or_none(found.get_raw(option.text()))
}

/// Whether an option without a value stands among the words.
pub(crate) fn is_said(found: &ArgMatches<'_>, option: OptionName) -> bool
    ensures { result ≡ is_said option (rows_of (found_of found.now)) }
{
    found.get_count(option.text()) > 0
}
