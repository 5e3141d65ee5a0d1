//! The log beside a cell. It is no part of what contracts see of the cell: no call that tells it of anything changes that.

ghost use Rattle.std.specs.Prelude.{◌≡◌, []};

use crate::cell::Cell;
use lat_base::Core;
use lat_log::{CallerNews, Entry, Flow, Hint, Journal, Page};
use lat_outside::Tx;
use lat_past::History;
use std::alloc::Global;
use std::sync::ledger::Ledger;

/// How many lines a core has at most.
const LINES: usize = 64;

// What each line has carried so far, line 1 first.
fn flows_of(history: &History) -> [Flow; LINES] {
    let mut flows = [Flow { put: 0, took: 0 }; LINES];
    for at in 0..LINES {
        let totals = history.of_seat(at as u8 + 1);
        flows[at] = Flow {
            put: totals.bytes,
            took: totals.items,
        };
    }
    flows
}

/// Tells the log, where there is one, what is new behind an event. Where no memory is found, the next event tells it.
pub(crate) fn note<C: Core>(
    alloc: Global,
    journal: &mut Option<Journal>,
    core: &C,
    history: &History,
    hint: &Hint,
)
    requires { C.valid core.now }
{
    if let Some(journal) = journal {
        let _ = journal.note(alloc, core, hint, &flows_of(history));
    }
}

impl<C: Core, T: Tx, E: Ledger, B: Ledger> Cell<C, T, E, B> {
    /// From now on this log is told what is new. Nothing else changes.
    pub fn keep_log(&mut self, journal: Journal)
        ensures { self.new ≡ self.old }
    {
        self.journal = Some(journal);
    }

    /// Tells the log what is new of services. Nothing else changes. It is for each second.
    pub fn note_services(&mut self, alloc: Global)
        ensures { self.new ≡ self.old }
    {
        if let Some(journal) = &mut self.journal {
            let _ = journal.note_services(alloc, &self.core);
        }
    }

    /// Tells the log, at the core's moment. Nothing else changes.
    pub fn note(&mut self, entry: Entry)
        ensures { self.new ≡ self.old }
    {
        let moment = self.core.moment();
        if let Some(journal) = &mut self.journal {
            journal.add(moment, entry);
        }
    }

    /// Tells the log that a line's caller has come or left. Nothing else changes.
    pub fn note_caller(&mut self, line: u8, news: CallerNews)
        ensures { self.new ≡ self.old }
    {
        self.note(Entry::Caller { line, news });
    }

    /// Hands out what the log was told, and leaves it a page without an entry. Nothing else changes.
    pub fn turn_page(&mut self, page: &mut Page)
        requires { page.old ≡ [] }
        ensures { self.new ≡ self.old }
    {
        let moment = self.core.moment();
        if let Some(journal) = &mut self.journal {
            journal.turn(moment, page);
        }
    }

    /// How many frames were handed to the carrier.
    pub fn frames_sent(&self) -> u64
        ensures { result ≡ self.now.sent }
    {
        self.sent
    }
}
