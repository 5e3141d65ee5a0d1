//! The log's worker.

ghost use Rattle.std.specs.Prelude.{◌≡◌, []};

use lat_base::{Core, Memory, Name};
use lat_history::Cell;
use lat_log::{Page, Stamped, line_onto};
use lat_outside::{Clock, Sink, Tx, write_all};
use std::alloc::Global;
use std::sync::ledger::Ledger;
use std::sync::{Mutex, Wait};

/// How long the log's worker pauses, in milliseconds.
const PAUSE_MS: u64 = 50;

/// After so many turns what is new of services is noted: once a second.
const SERVICE_TURNS: u32 = 20;

/// Whose log it is, and since when.
#[derive(Clone, Copy, Drop)]
pub struct Heading {
    /// The daemon's name.
    pub name: Name,
    /// The time at the core's moment 0, in milliseconds since 1970-01-01T00:00:00Z.
    pub began: u64,
}

// Adds the line of an entry.
fn entry_onto(text: &mut String, heading: &Heading, stamped: &Stamped) -> Result<(), Memory> {
    let moment = heading.began.saturating_add(stamped.moment());
    line_onto(text, moment, &heading.name, &stamped.entry())?;
    Ok(())
}

// The lines of a page.
fn page_text(alloc: Global, heading: &Heading, page: &Page) -> Result<String, Memory> {
    let mut text = String::new(alloc);
    for stamped in page.as_slice() {
        entry_onto(&mut text, heading, stamped)?;
    }
    Ok(text)
}

/// The way of a log to its sink.
#[derive(Drop)]
pub struct LogWriter<'a, S: Sink> {
    heading: Heading,
    page: Page,
    out: &'a mut S,
    broken: bool,
}

impl<'a, S: Sink> LogWriter<'a, S> {
    /// A way to this sink, with nothing on it. `Memory` where none is found.
    pub fn make(
        alloc: Global,
        heading: Heading,
        out: &'a mut S,
    ) -> Result<LogWriter<'a, S>, Memory> {
        Ok(LogWriter {
            heading,
            page: Page::make(alloc)?,
            out,
            broken: false,
        })
    }

    // Writes the page, and goes on with none of its entries. Behind a write that failed nothing is written any more. Entries for
    // whose lines no memory is found are lost.
    fn write(&mut self, alloc: Global) {
        if !self.broken
            && !self.page.as_slice().is_empty()
            && let Ok(text) = page_text(alloc, &self.heading, &self.page)
        {
            self.broken = write_all(self.out, text.as_bytes()).is_err();
        }
        self.page.clear();
    }

    /// Writes what the cell's log was told since it was last asked.
    pub fn drain<C: Core, T: Tx, E: Ledger, B: Ledger>(
        &mut self,
        alloc: Global,
        cell: &mut Cell<C, T, E, B>,
    )
        ensures { cell.new ≡ cell.old }
    {
        self.page.clear();
        cell.turn_page(&mut self.page);
        self.write(alloc);
    }

    // What is done under the lock: what is new of services is noted where it is due, and the page is turned. It tells whether the
    // daemon has ended.
    fn turn<C: Core, T: Tx, E: Ledger, B: Ledger>(
        &mut self,
        alloc: Global,
        cell: &mut Cell<C, T, E, B>,
        is_due: bool,
    ) -> bool
        ensures cell { cell.new ≡ cell.old }
        ensures over { result ≡ cell.old.over }
    {
        if is_due {
            cell.note_services(alloc);
        }
        self.page.clear();
        cell.turn_page(&mut self.page);
        cell.is_over()
    }
}

/// Writes what the cell's log is told, each 50 ms, until the daemon has ended. It writes outside the lock. It may wait, and its
/// return isn't promised.
pub fn log_worker<C: Core, T: Tx, K: Clock, S: Sink, E: Ledger, B: Ledger, R: Wait>(
    rt: &R,
    alloc: Global,
    cell: &Mutex<Cell<C, T, E, B>>,
    clock: K,
    writer: &mut LogWriter<'_, S>,
) {
    let mut clock = clock;
    let mut turns: u32 = 0;
    for _ in rt.forever() {
        turns = turns.wrapping_add(1);
        let is_over = writer.turn(alloc, &mut cell.lock(rt), turns % SERVICE_TURNS == 1);
        writer.write(alloc);
        if is_over {
            return;
        }
        clock.pause(PAUSE_MS);
    }
    unreachable!()
}
