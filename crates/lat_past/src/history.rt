//! A history.

ghost use Rattle.std.specs.Prelude.{◌≡◌, ◌+◌, ◌<◌, ◌≤◌, ◌↔◌, [], ◌∷◌, ◌++◌, IsTrue, length, OnOk};
ghost use Rattle.lat_base.specs.Answers.{items_asked, items_given};
ghost use Rattle.lat_past.specs.Counts.{bytes_put, items_taken, past_bytes, past_events, past_items, put_by, put_of};
ghost use Rattle.lat_past.specs.Entries.{entries_of, last_fitting};
ghost use Rattle.lat_past.specs.Histories.{MayAdd};

use crate::entry::{Entry, told_in};
use crate::kept::Kept;
use crate::past::{Past, put, seat, took};
use crate::seats::{SeatCounts, SeatTotals};
use lat_base::{Answer, Event, ItemsMemory, Memory};
use lat_tale::Tale;
use std::alloc::Global;
use std::marker::Model;

/// A history: all its events with their answers, from the first. As a whole it exists in the proofs alone. What is in memory is
/// how many events there are, how many bytes their puts took and how many items were taken, the same of each seat, and the last
/// entries.
#[derive(Drop)]
pub struct History {
    tale: Tale<Past>,
    count: u64,
    put: u64,
    taken: u64,
    seats: SeatCounts,
    kept: Kept,
}

impl Model for History {
    ghost use Rattle.lat_past.specs.Digests.{HistoryView, IsDigest};

    ghost Value = { HistoryView };

    ghost view = { λ a. record {
      items = a.tale.items;
      most = a.kept.most;
      room = a.kept.room;
    } };

    ghost invariant = { λ a. IsDigest a.tale.items a.count a.put a.taken a.seats.events a.seats.bytes a.seats.items a.kept };
}

impl History {
    /// A history without an event, of which at most so many entries are kept. It takes no memory.
    pub fn new(alloc: Global, most: usize) -> History
        requires { most ≤ 1000000 }
        ensures { (result.items ≡ []) × (result.most ≡ most) }
    {
        History {
            tale: Tale::new(),
            count: 0,
            put: 0,
            taken: 0,
            seats: SeatCounts::new(),
            kept: Kept::new(alloc, most),
        }
    }

    /// How many events there are.
    pub fn len(&self) -> u64
        ensures { result ≡ length self.now.items }
    {
        self.count
    }

    /// How many bytes were put.
    pub fn put(&self) -> u64
        ensures { result ≡ bytes_put self.now.items }
    {
        self.put
    }

    /// How many items were taken.
    pub fn taken(&self) -> u64
        ensures { result ≡ items_taken self.now.items }
    {
        self.taken
    }

    /// What a seat did.
    pub fn of_seat(&self, seat: u8) -> SeatTotals
        ensures events { result.events ≡ past_events seat self.now.items }
        ensures bytes { result.bytes ≡ past_bytes seat self.now.items }
        ensures items { result.items ≡ past_items seat self.now.items }
    {
        self.seats.of(seat)
    }

    /// The last entries, in order, in two parts: as many as are kept.
    pub fn entries(&self) -> (&[Entry], &[Entry])
        ensures { result.0.now ++ result.1.now ≡ last_fitting self.now.most (entries_of self.now.items) }
    {
        self.kept.parts()
    }

    /// Whether no count would pass 2^64 - 1 by this event.
    pub fn may_add(&self, event: &Event) -> bool
        ensures { IsTrue result ↔ MayAdd self.now.items event.now }
    {
        self.count < u64::MAX
            && asked(event) <= u64::MAX - self.put
            && event.asked() as u64 <= u64::MAX - self.taken
    }

    /// Takes the memory for one event more.
    pub fn reserve(&mut self) -> Result<(), Memory>
        ensures same { (self.new.items ≡ self.old.items) × (self.new.most ≡ self.old.most) }
        ensures room { OnOk result (0 < self.new.room) }
    {
        self.kept.reserve()
    }

    /// Adds an event with its answer behind all others, and gives the answer back. It takes no memory.
    pub fn add(&mut self, past: Past, none: ItemsMemory) -> Answer
        requires room { 0 < self.old.room }
        requires may { MayAdd self.old.items past.event }
        requires put { put_of past.answer ≤ put_by past.event }
        requires took { items_given past.answer ≤ items_asked past.event }
        requires items { items_given past.answer ≤ 65535 }
        ensures items { self.new.items ≡ self.old.items ++ past ∷ [] }
        ensures most { self.new.most ≡ self.old.most }
        ensures answer { result ≡ past.answer }
    {
        self.tale = self.tale.and(&past);
        let (event, answer) = past.into_parts();
        let n = put(&answer);
        let k = took(&answer);
        self.count += 1;
        self.put += n as u64;
        self.taken += k as u64;
        self.seats.add(seat(&event), n, k);
        let told = told_in(&answer, none);
        self.kept.keep(Entry { event, told });
        answer
    }
}

// How many bytes it would put.
fn asked(event: &Event) -> u64
    ensures { result ≡ put_by event.now }
{
    match event {
        Event::Put { bytes, .. } => bytes.as_slice().len() as u64,
        _ => 0,
    }
}
