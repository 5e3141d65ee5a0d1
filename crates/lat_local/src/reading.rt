//! The command that a line is.

ghost use Rattle.std.specs.Prelude.{◌≡◌, ◌&&◌, not, find};
ghost use Rattle.std.specs.Option.{option_copied};
ghost use Rattle.std.specs.Str.{str_eq_ignore_ascii_case};
ghost use Rattle.lat_local.specs.Commands.{alone, command_of, connect_of, if_alone, if_verb, is_shared, shown_of, with_object, with_rest};
ghost use Rattle.lat_local.specs.Words.{begins};

use crate::command::{Command, CommandFault};
use crate::verb::{Verb, verb_of};
use crate::words::{begins, is_same, next_word};
use lat_base::Name;

fn alone(command: Command, object: &[u8]) -> Result<Command, CommandFault>
    ensures { result ≡ alone command object.now }
{
    if object.is_empty() {
        Ok(command)
    } else {
        Err(CommandFault::Extra)
    }
}

fn shown_of(word: &[u8]) -> Result<Command, CommandFault>
    ensures { result ≡ shown_of word.now }
{
    if word.is_empty() {
        return Err(CommandFault::MissingShown);
    }
    match (
        begins(word, "services".as_bytes()),
        begins(word, "sessions".as_bytes()),
    ) {
        (true, true) => Err(CommandFault::AmbiguousShown),
        (true, false) => Ok(Command::ShowServices),
        (false, true) => Ok(Command::ShowSessions),
        (false, false) => Err(CommandFault::UnknownShown),
    }
}

fn is_whole(word: &[u8], service: &Name) -> bool
    ensures { result ≡ str_eq_ignore_ascii_case word.now service.now }
{
    is_same(word, service.bytes())
}

fn begins_so(word: &[u8], service: &Name) -> bool
    ensures { result ≡ begins word.now service.now }
{
    begins(word, service.bytes())
}

fn whole_at<'a>(services: &'a [Name], word: &[u8]) -> Option<&'a Name>
    ensures { option_copied result ≡ find (str_eq_ignore_ascii_case word.now) services.now }
{
    services.iter().find(|service| is_whole(word, service))
}

// The service of which this is the whole name.
fn whole(services: &[Name], word: &[u8]) -> Option<Name>
    ensures { result ≡ find (str_eq_ignore_ascii_case word.now) services.now }
{
    whole_at(services, word).copied()
}

fn first_at<'a>(services: &'a [Name], word: &[u8]) -> Option<&'a Name>
    ensures { option_copied result ≡ find (begins word.now) services.now }
{
    services.iter().find(|service| begins_so(word, service))
}

// The first service that begins with the word.
fn first(services: &[Name], word: &[u8]) -> Option<Name>
    ensures { result ≡ find (begins word.now) services.now }
{
    first_at(services, word).copied()
}

// Whether this service begins with the word, and is another one than the first.
fn is_other(first: &Name, service: &Name, word: &[u8]) -> bool
    ensures { result ≡ (begins word.now service.now && not (str_eq_ignore_ascii_case first.now service.now)) }
{
    begins(word, service.bytes()) && !is_same(first.bytes(), service.bytes())
}

fn is_shared(first: &Name, services: &[Name], word: &[u8]) -> bool
    ensures { result ≡ is_shared first.now services.now word.now }
{
    services
        .iter()
        .any(|service| is_other(first, service, word))
}

// The service that alone begins with the word.
fn if_alone(services: &[Name], word: &[u8]) -> Result<Command, CommandFault>
    ensures { result ≡ if_alone (find (begins word.now) services.now) services.now word.now }
{
    match first(services, word) {
        None => Err(CommandFault::UnknownService),
        Some(name) if is_shared(&name, services, word) => { Err(CommandFault::AmbiguousService) }
        Some(name) => Ok(Command::Connect(name)),
    }
}

fn connect_of(services: &[Name], word: &[u8]) -> Result<Command, CommandFault>
    ensures { result ≡ connect_of services.now word.now }
{
    if word.is_empty() {
        return Err(CommandFault::MissingService);
    }
    match whole(services, word) {
        Some(name) => Ok(Command::Connect(name)),
        None => if_alone(services, word),
    }
}

fn with_object(verb: Verb, services: &[Name], object: &[u8]) -> Result<Command, CommandFault>
    ensures { result ≡ with_object verb services.now object.now }
{
    match verb {
        Verb::Connect => connect_of(services, object),
        Verb::Show => shown_of(object),
        Verb::Resume => alone(Command::Resume, object),
        Verb::Disconnect => alone(Command::Disconnect, object),
        Verb::Help => alone(Command::Help, object),
        Verb::Logout => alone(Command::Logout, object),
    }
}

fn with_rest(verb: Verb, services: &[Name], rest: &[u8]) -> Result<Command, CommandFault>
    ensures { result ≡ if_verb (Some verb) services.now rest.now }
{
    let (object, behind) = next_word(rest);
    let (third, _) = next_word(behind);
    if third.is_empty() {
        with_object(verb, services, object)
    } else {
        Err(CommandFault::Extra)
    }
}

/// The command that a typed line is, where these services are known. Words stand between blanks, and are written in any case.
/// A word of a command may be cut where one alone begins with it, and so may the name of a service: one whose whole name is
/// typed is meant by it, whatever others begin so. Refusals, in this order: `UnknownCommand`; `Extra` where the line has three
/// words; then those of the second word: `Extra` where the command has one word alone, else `Missing..`, `Unknown..` and
/// `Ambiguous..` of what it stands for.
pub fn read_command(line: &[u8], services: &[Name]) -> Result<Command, CommandFault>
    ensures { result ≡ command_of services.now line.now }
{
    let (word, rest) = next_word(line);
    if word.is_empty() {
        return Ok(Command::Blank);
    }
    match verb_of(word) {
        Some(verb) => with_rest(verb, services, rest),
        None => Err(CommandFault::UnknownCommand),
    }
}
