//! A daemon's log: what it begins and ends with, and where it goes.

ghost use Rattle.std.specs.Prelude.{◌≡◌};

use crate::plan::{LinePlan, Plan, Post};
use lat_base::{Core, Memory, Name};
use lat_cell::{Cell, Heading, LogWriter};
use lat_log::{Entry, Journal, Role, Side, Watch};
use lat_outside::{Sink, Tx};
use lat_words as words;
use log::LevelFilter;
use std::alloc::Global;
use std::sync::ledger::Ledger;

/// Where a daemon's log goes, and since when.
#[derive(Drop)]
pub struct Log<'a, S: Sink> {
    /// The time at the clock's moment 0, in milliseconds since 1970-01-01T00:00:00Z.
    pub began: u64,
    pub out: &'a mut S,
}

impl<'a, S: Sink> Log<'a, S> {
    /// The way to it, for a daemon of this name. `Memory` where none is found.
    pub(crate) fn writer(self, alloc: Global, name: Name) -> Result<LogWriter<'a, S>, Memory> {
        let heading = Heading {
            name,
            began: self.began,
        };
        LogWriter::make(alloc, heading, self.out)
    }
}

fn filter_of(level: words::Level) -> LevelFilter {
    match level {
        words::Level::Off => LevelFilter::Off,
        words::Level::Error => LevelFilter::Error,
        words::Level::Info => LevelFilter::Info,
        words::Level::Debug => LevelFilter::Debug,
    }
}

fn side_of(role: words::Role) -> Side {
    match role {
        words::Role::Server => Side::Server,
        words::Role::Switch => Side::Switch,
        words::Role::Node | words::Role::Tariff => Side::Node,
    }
}

fn role_of(role: words::Role) -> Role {
    match role {
        words::Role::Server => Role::Server,
        words::Role::Switch => Role::Switch,
        words::Role::Node => Role::Node,
        words::Role::Tariff => Role::Tariff,
    }
}

// Whether a name stands in a list, without regard to case.
fn has(names: &[Name], name: &Name) -> bool {
    names.iter().any(|other| other.folded() == name.folded())
}

// The services that lines offer, each once.
fn offered(alloc: Global, lines: &[LinePlan]) -> Result<Vec<Name>, Memory> {
    let mut names = Vec::new(alloc);
    for line in lines {
        if let Post::Offering(device) = line.post
            && !has(names.as_slice(), &device.service)
        {
            names.push(device.service)?;
        }
    }
    Ok(names)
}

// Tells what it listens at.
fn open(journal: &mut Journal, plan: &Plan<'_>) {
    journal.add(
        0,
        Entry::Started {
            role: role_of(plan.role),
            address: plan.own,
            port: plan.port,
        },
    );
    let mut line: u8 = 0;
    for of_line in plan.lines {
        line = line.saturating_add(1);
        if let Some(port) = of_line.port {
            journal.add(0, Entry::LineListens { line, port });
        }
    }
}

/// The log of a daemon of this plan, which tells what it listens at. `Memory` where none is found.
pub(crate) fn journal_of(alloc: Global, plan: &Plan<'_>) -> Result<Journal, Memory> {
    let names = offered(alloc, plan.lines)?;
    let lines = u8::try_from(plan.lines.len()).unwrap_or(64);
    let watch = Watch::make(alloc, side_of(plan.role), lines, names)?;
    let mut journal = Journal::make(alloc, filter_of(plan.level), watch)?;
    open(&mut journal, plan);
    Ok(journal)
}

/// Tells what came of a daemon, and writes what the log was told.
pub(crate) fn close<C: Core, T: Tx, S: Sink, E: Ledger, B: Ledger>(
    alloc: Global,
    cell: &mut Cell<C, T, E, B>,
    writer: &mut LogWriter<'_, S>,
)
    ensures { cell.new ≡ cell.old }
{
    let entry = Entry::Stopped {
        events: cell.len(),
        sessions: cell.served(),
        frames: cell.frames_sent(),
    };
    cell.note(entry);
    writer.drain(alloc, cell);
}
