//! The cell.

ghost use Rattle.std.specs.Prelude.{◌≡◌, ◌≤◌, ◌++◌, ◌+◌, ◌-◌, ◌^◌, min, length, true, IfOk, is_some};
ghost use Rattle.lat_history.specs.CellView.{IsEmpty};
ghost use Rattle.lat_history.specs.History.{IsRun, HasSent, state_of};
ghost use Rattle.lat_history.specs.Ledgers.{AreBlanks};
ghost use Rattle.lat_history.specs.Looks.{seen_of};
ghost use Rattle.lat_history.specs.Numbers.{Counted};
ghost use Rattle.lat_history.specs.Seats.{all_seats};
ghost use Rattle.lat_past.specs.Counts.{past_bytes, past_events, past_items};
ghost use Rattle.lat_past.specs.Entries.{entries_of, last_fitting};

use crate::seen::Seen;
use crate::shares::{Blanks, Shares, opened};
use crate::stage::Stage;
use lat_base::{Core, Correspondent, LineLook, Memory, Name, OutBox};
use lat_log::Journal;
use lat_outside::Tx;
use lat_past::{Entry, History, SeatTotals};
use std::alloc::Global;
use std::marker::Model;
use std::sync::ledger::{Book, Ledger};

/// A core, the history of its events with their answers, and the carrier that its frames are handed to. Whenever nobody is in
/// the middle of a call, the core is the run of the history from the opening that it was made with, and the frames tried since
/// then are those of the history, in order. The history has no limit: as a whole it exists in the proofs alone, and what is in
/// memory are its counts and its last entries. Two ledgers count the events and the bytes put; each seat has its share of them.
/// Beside all this it may have a log, which is told of each event and changes nothing. See "Cells" in docs/PROTOCOL.md.
pub struct Cell<C: Core, T: Tx, E: Ledger, B: Ledger> {
    pub(crate) core: C,
    pub(crate) tx: T,
    /// How many frames the carrier tried since the cell was made.
    pub(crate) sent: u64,
    pub(crate) history: History,
    pub(crate) out: OutBox,
    pub(crate) stage: Stage,
    /// How many sessions that were live have ended.
    pub(crate) served: u64,
    pub(crate) events: Book<E>,
    pub(crate) bytes: Book<B>,
    /// The log, where there is one.
    pub(crate) journal: Option<Journal>,
}

impl<C: Core, T: Tx, E: Ledger, B: Ledger> Drop for Cell<C, T, E, B> {
    fn drop(self) {
        let Self {
            core,
            tx,
            sent,
            history,
            out,
            stage,
            served,
            events,
            bytes,
            journal,
        } = self;
    }
}

impl<C: Core, T: Tx, E: Ledger, B: Ledger> Model for Cell<C, T, E, B> {
    ghost use Rattle.std.specs.Prelude.{◌≡◌, []};
    ghost use Rattle.lat_history.specs.CellView.{CellView};
    ghost use Rattle.lat_history.specs.History.{IsRun, FramesOf, LastAre};
    ghost use Rattle.lat_history.specs.Numbers.{Counted};
    ghost use Rattle.lat_history.specs.Stages.{is_ending, is_over};

    ghost Value = { CellView C T };

    ghost view = { λ a. record {
      core = a.core;
      tx = a.tx;
      sent = a.sent;
      history = a.history.items;
      most = a.history.most;
      stopping = is_ending a.stage;
      over = is_over a.stage;
      served = a.served;
    } };

    ghost invariant = { λ a. IsRun C.made C.opening C.stands C.next C.answer a.core a.history.items
        × LastAre (T.tried a.tx) a.sent (FramesOf C.next C.frames (C.opening a.core) a.history.items)
        × C.valid a.core
        × Counted a.history.items a.events.total a.bytes.total
        × (a.out ≡ []) };
}

impl<C: Core, T: Tx, E: Ledger, B: Ledger> Cell<C, T, E, B> {
    /// A cell of a core as it was made, without a log, with an empty history, of which at most so many entries are kept, and the
    /// shares of its seats: the wire, the lines by rising number, the clock. There are 1 to 64 lines, and each blank has 66 parts. `Memory`
    /// where none is found.
    pub fn make(
        alloc: Global,
        core: C,
        tx: T,
        lines: u8,
        most: usize,
        blanks: Blanks,
    ) -> Result<(Cell<C, T, E, B>, Shares<E, B>), Memory>
        requires made { C.made (C.opening core) }
        requires stands { C.stands core (C.opening core) }
        requires valid { C.valid core }
        requires lines { (1 ≤ lines) × (lines ≤ 64) }
        requires most { most ≤ 1000000 }
        requires blanks { AreBlanks blanks E.name E.parts B.name B.parts }
        ensures core { IfOk result (λ r. (r.0.core ≡ core) × (r.0.tx ≡ tx) × (r.0.sent ≡ 0)) }
        ensures empty { IfOk result (λ r. IsEmpty r.0) }
        ensures most { IfOk result (λ r. r.0.most ≡ most) }
        ensures shares { IfOk result (λ r. r.1 ≡ all_seats lines) }
    {
        let (books, shares) = opened::<E, B>(alloc, lines, blanks)?;
        let (events, bytes) = books.into_parts();
        let cell = Cell {
            core,
            tx,
            sent: 0,
            history: History::new(alloc, most),
            out: OutBox::make(alloc)?,
            stage: Stage::Serving,
            served: 0,
            events,
            bytes,
            journal: None,
        };
        Ok((cell, shares))
    }

    /// What holds whenever the cell is whole, so whenever its lock is free: the core stands for the state behind the history's
    /// events from its opening, each answer is the machine's there, and where the carrier tells its frames, those tried since the
    /// cell was made are the frames of these events, in order.
    pub fn replays(&self)
        ensures run { IsRun C.made C.opening C.stands C.next C.answer self.now.core self.now.history }
        ensures frames { HasSent T.tried C.opening C.next C.frames self.now }
    {
        let _ = &self.core;
    }

    /// How many events the history has.
    pub fn len(&self) -> u64
        ensures { result ≡ length self.now.history }
    {
        self.history.len()
    }

    /// How many events of the history are a seat's own, how many bytes its puts took, and how many items it took.
    pub fn of_seat(&self, seat: u8) -> SeatTotals
        ensures events { result.events ≡ past_events seat self.now.history }
        ensures bytes { result.bytes ≡ past_bytes seat self.now.history }
        ensures items { result.items ≡ past_items seat self.now.history }
    {
        self.history.of_seat(seat)
    }

    /// The history's last entries, in order, in two parts: as many as are kept.
    pub fn entries(&self) -> (&[Entry], &[Entry])
        ensures { result.0.now ++ result.1.now ≡ last_fitting self.now.most (entries_of self.now.history) }
    {
        self.history.entries()
    }

    /// The books of the two ledgers. That of events has the history's length, that of bytes has the bytes put.
    pub fn books(&self) -> (&Book<E>, &Book<B>)
        ensures { Counted self.now.history result.0.now.total result.1.now.total }
    {
        (&self.events, &self.bytes)
    }

    /// Says that the daemon is to end: no caller is taken any more, and sessions are closed. Nothing else changes.
    pub fn stop(&mut self)
        ensures { self.new ≡ record self.old { stopping = true } }
    {
        self.stage = self.stage.stopped();
    }

    /// Says that the workers of the wire and of the clock are to end too. Nothing else changes.
    pub fn finish(&mut self)
        ensures { self.new ≡ record self.old { stopping = true; over = true } }
    {
        self.stage = Stage::Over;
    }

    /// Whether the daemon is ending.
    pub fn stopping(&self) -> bool
        ensures { result ≡ self.now.stopping }
    {
        self.stage.is_ending()
    }

    /// Whether the workers of the wire and of the clock are to end.
    pub fn is_over(&self) -> bool
        ensures { result ≡ self.now.over }
    {
        self.stage.is_over()
    }

    /// Counts a session that was live and has ended, up to 2^64 - 1. Nothing else changes.
    pub fn count_served(&mut self)
        ensures { self.new ≡ record self.old { served = min (self.old.served + 1) (2 ^ 64 - 1) } }
    {
        self.served = self.served.saturating_add(1);
    }

    /// How many sessions that were live have ended.
    pub fn served(&self) -> u64
        ensures { result ≡ self.now.served }
    {
        self.served
    }

    /// Whether each living circuit of the core has only sessions that are free or left, and no message unacknowledged.
    pub fn is_drained(&self) -> bool
        ensures { result ≡ C.drained_of (state_of C.opening C.next self.now) }
    {
        self.core.is_drained()
    }

    /// The core's moment, in milliseconds.
    pub fn moment(&self) -> u64
        ensures { result ≡ C.moment_of (state_of C.opening C.next self.now) }
    {
        self.core.moment()
    }

    /// How many sessions of the core have become free.
    pub fn finished(&self) -> u32
        ensures { result ≡ C.finished_of (state_of C.opening C.next self.now) }
    {
        self.core.finished()
    }

    /// What the core shows of a line, whole.
    pub fn line_look(&self, line: u8) -> LineLook
        ensures { result ≡ C.look_of (state_of C.opening C.next self.now) line }
    {
        self.core.look(line)
    }

    /// Whom the newest session of a line is or was with, and what for.
    pub fn correspondent(&self, line: u8) -> Option<Correspondent>
        ensures { result ≡ C.correspondent_of (state_of C.opening C.next self.now) line }
    {
        self.core.correspondent(line)
    }

    /// Whether a request waits for the service.
    pub fn has_waiter(&self, service: &Name) -> bool
        ensures { result ≡ is_some (C.waiter_of (state_of C.opening C.next self.now) service.now 0) }
    {
        self.core.waiter(service, 0).is_some()
    }

    /// How many ids of circuits the core has left.
    pub fn ids_left(&self) -> u16
        ensures { result ≡ C.ids_left_of (state_of C.opening C.next self.now) }
    {
        self.core.ids_left()
    }

    /// How many records of requests the core has left; `None` where it keeps none.
    pub fn records_left(&self) -> Option<u32>
        ensures { result ≡ C.records_left_of (state_of C.opening C.next self.now) }
    {
        self.core.records_left()
    }

    /// What it shows of a line.
    pub fn look(&self, line: u8) -> Seen
        ensures { result ≡ seen_of C.look_of C.moment_of (state_of C.opening C.next self.now)
            self.now.stopping line }
    {
        let look = self.core.look(line);
        Seen {
            state: look.state,
            waiting: look.waiting,
            stopping: self.stopping(),
            moment: self.core.moment(),
        }
    }
}
