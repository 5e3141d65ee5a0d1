//! The queue.

ghost use Rattle.std.specs.Prelude.{◌≡◌, ◌<◌, ◌≤◌, ◌+◌, ◌-◌, [], ◌∷◌, ◌++◌, length, true, false, Some, None, replicate, OnOk, OnErr, IfOk, IfSome, IfNone, IsSome, OnSome, ◌↔◌, List, option_map, slice_get};
ghost use Rattle.lat_machines.specs.server.Queue.{QueueEvent, Asks, Cancels, Grants, next_request, records, waiting};
ghost use Rattle.lat_machines.specs.server.Records.{ask_answer, kept_for, record_at};
ghost use Rattle.lat_queue.specs.Histories.{Stands, key_shown, some_kept, some_first, some_request, some_key, request_key, some_record, is_any_waiting, finish_history};
ghost use Rattle.lat_queue.specs.KeptValues.{kept_shown};
ghost use Rattle.std.specs.Map.{lookup};
ghost use Rattle.std.specs.Option.{is_some};
ghost use Rattle.lat_machines.specs.values.Addresses.{address};
ghost use Rattle.lat_queue.specs.KeyHash.{one_key};
ghost use Rattle.indexmap.specs.IndexMap.{insert_entry};
ghost use Rattle.lat_queue.specs.Looks.{waiter_told, waiter_look_of};
ghost use Rattle.lat_queue.specs.Tables.{waiters, waiter_at, OnLine, InLine, MayStand, HasPlace, info, info_of, new_info, new_standing, added, shown, first_of, waiting_of, waiting_count, cancelled, given, finished};

use crate::entry::{Entry, Standing, Waiter};
use crate::key::Key;
use crate::line::{LINE, Line};
use crate::record::Record;
use crate::services::Services16;
use indexmap::IndexMap;
use lat_base::{Addr, Kept, Memory, Name, WaiterLook};
use std::alloc::Global;
use std::marker::Model;

/// How many records a queue keeps.
const RECORDS: usize = 65536;

/// The requests of a server: one record for each key, in the order of first commands, and for each service the line
/// of those that wait. Contracts see a table; `Stands` says for which lists of events (asks with their answers, cancels,
/// grants, ends) it stands, and what is asked of it follows from such a list alone. Each call but a first `ask` takes
/// no memory, and costs look-ups and the length of one line; `is_any_waiting` costs a look at each line.
pub struct Queue {
    offered: Services16,
    entries: IndexMap<Key, Entry>,
    lines: Vec<Line>,
    granted: u32,
    /// How many wait, in all lines.
    waiting: usize,
}

impl Drop for Queue {
    fn drop(self) {
        let Self {
            offered,
            entries,
            lines,
            granted,
            waiting,
        } = self;
    }
}

impl Model for Queue {
    ghost use Rattle.std.specs.Prelude.{◌≡◌};
    ghost use Rattle.lat_queue.specs.Tables.{Table, Holds, waiting_count};

    ghost Value = { Table };

    ghost view = { λ a. record {
      offered = a.offered;
      entries = a.entries.entries;
      granted = a.granted;
    } };

    ghost invariant = { λ a. Holds (record {
      offered = a.offered;
      entries = a.entries.entries;
      granted = a.granted;
    }) a.lines.items
        × (a.waiting ≡ waiting_count a.entries.entries) };
}

// So many empty lines.
fn no_lines(alloc: Global, count: usize) -> Result<Vec<Line>, Memory>
    requires { count ≤ 32 }
    ensures { IfOk result (λ v. v.items ≡ replicate count []) }
{
    let mut lines = Vec::with_capacity(alloc, count)?;
    for _ in 0..count {
        lines.push(Line::make(alloc)?)?;
    }
    Ok(lines)
}

// A record more, behind all others.
fn insert_new(entries: &mut IndexMap<Key, Entry>, key: &Key, entry: Entry) -> Result<(), Memory>
    requires { lookup (one_key key.now) entries.old.entries ≡ None }
    ensures ok { OnOk result (entries.new.entries ≡ entries.old.entries ++ (key.now, entry) ∷ []) }
    ensures err { OnErr result (entries.new.entries ≡ entries.old.entries) }
{
    entries.insert(*key, entry)?;
    Ok(())
}

// The key is there, so that this needs no memory.
fn rewrite(entries: &mut IndexMap<Key, Entry>, key: &Key, entry: Entry)
    requires { IsSome (lookup (one_key key.now) entries.old.entries) }
    ensures { entries.new.entries ≡ insert_entry one_key entries.old.entries key.now entry }
{
    let Ok(_) = entries.insert(*key, entry) else {
        unreachable!()
    };
}

impl Queue {
    /// A queue with no record, for these services, with all the room that their lines will need. It stands for no event.
    pub fn make(alloc: Global, services: Services16) -> Result<Queue, Memory>
        ensures offered { IfOk result (λ q. q.offered ≡ services) }
        ensures stands { IfOk result (λ q. Stands q []) }
        ensures none { IfOk result (λ q. waiting_count q.entries ≡ 0) }
    {
        let lines = no_lines(alloc, services.len())?;
        Ok(Queue {
            offered: services,
            entries: IndexMap::new(alloc),
            lines,
            granted: 0,
            waiting: 0,
        })
    }

    /// A node asks for a service. A known key is answered from its record, whatever the service. A new key is told
    /// `RecordsFull` where 65,536 records are kept, and gets no record then; else `NoService` where the service isn't
    /// offered; else `QueueFull` where 64 wait for it; else `Waiting` with its place, counted from 1. After `Memory`
    /// nothing has changed.
    pub fn ask(&mut self, key: &Key, from: Addr, service: &Name) -> Result<Kept, Memory>
        ensures answer { (h : List QueueEvent) → Stands self.old h →
            IfOk result (λ a.
            kept_shown a ≡ ask_answer self.old.offered (key_shown key.now) service.now h) }
        ensures stands { (h : List QueueEvent) →
            Stands self.old h →
            IfOk result (λ a.
            Stands self.new (h
            ++ Asks (key_shown key.now) (address from.0) service.now (kept_shown a) ∷ [])) }
        ensures place { IfOk result HasPlace }
        ensures offered { self.new.offered ≡ self.old.offered }
        ensures waiting { OnOk result (waiting_count self.new.entries
            ≤ waiting_count self.old.entries + 1) }
        ensures err { OnErr result (self.new ≡ self.old) }
    {
        if let Some(kept) = self.info(key) {
            return Ok(kept);
        }
        if self.entries.len() >= RECORDS {
            return Ok(Kept::RecordsFull);
        }
        self.admit(key, from, service)
    }

    /// A node withdraws a request: `Waiting` becomes `Cancelled`, and no other record changes. It tells the record, or
    /// None where there is none.
    pub fn cancel(&mut self, key: &Key) -> Option<Kept>
        ensures answer { (h : List QueueEvent) → Stands self.old h →
            some_kept result ≡ kept_for (key_shown key.now) (h ++ Cancels (key_shown key.now) ∷ []) }
        ensures stands { (h : List QueueEvent) → Stands self.old h →
            Stands self.new (h ++ Cancels (key_shown key.now) ∷ []) }
        ensures place { IfSome result HasPlace }
        ensures offered { self.new.offered ≡ self.old.offered }
        ensures waiting { waiting_count self.new.entries ≤ waiting_count self.old.entries }
    {
        self.withdraw(key);
        self.info(key)
    }

    /// The key of the first that waits for the service, and the address that its first command came from. None where
    /// nobody waits for it.
    pub fn first(&self, service: &Name) -> Option<(Key, Addr)>
        ensures { (h : List QueueEvent) → Stands self.now h →
            some_first result ≡ some_request (next_request service.now h) }
    {
        self.first_waiter(service)
    }

    /// How many wait, for all services together.
    pub fn count_waiting(&self) -> usize
        ensures value { result ≡ waiting_count self.now.entries }
        ensures few { result ≤ 65536 }
    {
        self.waiting
    }

    /// Whether anybody waits, for whichever service. Where there are records it looks at each line once.
    pub fn is_any_waiting(&self) -> bool
        ensures { (h : List QueueEvent) → Stands self.now h → result ≡ is_any_waiting h }
    {
        !self.entries.is_empty() && self.lines.iter().any(|line| line.len() > 0)
    }

    /// Grants the first that waits for the service, and tells its key. None where nobody waits for it, and then nothing
    /// has changed.
    pub fn grant(&mut self, service: &Name) -> Option<Key>
        ensures answer { (h : List QueueEvent) → Stands self.old h →
            some_key result ≡ request_key (next_request service.now h) }
        ensures stands { (h : List QueueEvent) → Stands self.old h →
            IfSome result (λ k. Stands self.new (h ++ Grants (key_shown k) service.now ∷ [])) }
        ensures offered { self.new.offered ≡ self.old.offered }
        ensures waiting { OnSome result (waiting_count self.new.entries + 1
            ≡ waiting_count self.old.entries) }
        ensures none { IfNone result (self.new ≡ self.old) }
    {
        let (key, _) = self.first_waiter(service)?;
        if self.give(&key) { Some(key) } else { None }
    }

    /// The session of a granted request is over: its record becomes `Done`. Where the record isn't `Granted`, nothing
    /// changes and no event is counted.
    pub fn finish(&mut self, key: &Key)
        ensures stands { (h : List QueueEvent) → Stands self.old h →
            Stands self.new (finish_history (key_shown key.now) h) }
        ensures offered { self.new.offered ≡ self.old.offered }
        ensures waiting { waiting_count self.new.entries ≡ waiting_count self.old.entries }
    {
        self.end(key);
    }

    /// The record at this place of the order of first commands, counted from 0. None past the last, and so at 65,536 and
    /// behind it.
    pub fn record_at(&self, place: usize) -> Option<Record>
        ensures value { (h : List QueueEvent) → Stands self.now h →
            some_record result ≡ record_at place h }
        ensures within { IsSome result ↔ (place < length self.now.entries) }
        ensures few { OnSome result (place < 65536) }
    {
        self.shown(place)
    }

    /// How many records may still be kept, of 65,536.
    pub fn records_left(&self) -> u32
        ensures { (h : List QueueEvent) → Stands self.now h → result ≡ 65536 - length (records h) }
    {
        (RECORDS - self.entries.len()) as u32
    }

    /// The request at this place of those that wait for the service, in the order of their first commands, counted from 0.
    /// None exactly behind the last.
    pub fn waiter(&self, service: &Name, at: usize) -> Option<WaiterLook>
        ensures { (h : List QueueEvent) → Stands self.now h →
            result ≡ option_map waiter_look_of (slice_get (waiting service.now h) at) }
    {
        self.waiter_at(service, at)
    }

    // The record of a new key.
    fn admit(&mut self, key: &Key, from: Addr, service: &Name) -> Result<Kept, Memory>
        requires new { lookup (one_key key.now) self.old.entries ≡ None }
        requires few { length self.old.entries < 65536 }
        ensures answer { IfOk result (λ a.
            a ≡ new_info self.old (new_standing self.old service.now)) }
        ensures place { IfOk result HasPlace }
        ensures ok { OnOk result (self.new ≡ added self.old key.now (record {
          from = from;
          service = service.now;
          standing = new_standing self.old service.now;
        })) }
        ensures err { OnErr result (self.new ≡ self.old) }
    {
        let standing = self.new_standing(service);
        let kept = self.new_info(standing);
        let service = *service;
        self.add(
            key,
            Entry {
                from,
                service,
                standing,
            },
        )?;
        Ok(kept)
    }

    // What a key of this standing is told.
    fn info_of(&self, key: &Key, standing: Standing) -> Kept
        requires line { OnLine (length self.now.offered) standing }
        requires there { InLine self.now.entries key.now standing }
        ensures value { result ≡ info_of self.now.entries key.now standing }
        ensures place { HasPlace result }
    {
        match standing {
            Standing::Waits(line) => Kept::Waiting(self.lines[line as usize].place_of(key)),
            Standing::Granted(_) => Kept::Granted,
            Standing::Done(_) => Kept::Done,
            Standing::Cancelled => Kept::Cancelled,
            Standing::QueueFull => Kept::QueueFull,
            Standing::NoService => Kept::NoService,
        }
    }

    // What is kept of the key.
    fn info(&self, key: &Key) -> Option<Kept>
        ensures value { result ≡ info self.now key.now }
        ensures place { IfSome result HasPlace }
    {
        let entry = self.entries.get(key)?;
        Some(self.info_of(key, entry.standing))
    }

    // How a new request for the service stands.
    fn new_standing(&self, service: &Name) -> Standing
        ensures value { result ≡ new_standing self.now service.now }
        ensures new { MayStand self.now result }
    {
        match self.offered.place_of(service) {
            Some(line) if self.lines[line].len() >= LINE => Standing::QueueFull,
            Some(line) => Standing::Waits(line as u8),
            None => Standing::NoService,
        }
    }

    // What a new request that stands so is told.
    fn new_info(&self, standing: Standing) -> Kept
        requires { MayStand self.now standing }
        ensures value { result ≡ new_info self.now standing }
        ensures place { HasPlace result }
    {
        match standing {
            Standing::Waits(line) => Kept::Waiting(self.lines[line as usize].len() as u16 + 1),
            Standing::QueueFull => Kept::QueueFull,
            Standing::NoService => Kept::NoService,
            Standing::Granted(_) | Standing::Done(_) | Standing::Cancelled => unreachable!(),
        }
    }

    // A record more, which waits behind all others of its line where it waits.
    fn add(&mut self, key: &Key, entry: Entry) -> Result<(), Memory>
        requires new { lookup (one_key key.now) self.old.entries ≡ None }
        requires few { length self.old.entries < 65536 }
        requires stands { MayStand self.old entry.standing }
        ensures ok { OnOk result (self.new ≡ added self.old key.now entry) }
        ensures err { OnErr result (self.new ≡ self.old) }
    {
        let Entry { from, standing, .. } = entry;
        insert_new(&mut self.entries, key, entry)?;
        if let Standing::Waits(line) = standing {
            let waiting = &mut self.lines[line as usize];
            waiting.join(Waiter { key: *key, from });
            self.waiting += 1;
        }
        Ok(())
    }

    // The entry of a key that waits, and its line.
    fn waiting(&self, key: &Key) -> Option<(Entry, u8)>
        ensures value { result ≡ waiting_of self.now key.now }
        ensures on_line { IfSome result (λ p. p.1 < length self.now.offered) }
    {
        let entry = *self.entries.get(key)?;
        match entry.standing {
            Standing::Waits(line) => Some((entry, line)),
            _ => None,
        }
    }

    // Cancels the key where it waits.
    fn withdraw(&mut self, key: &Key)
        ensures { self.new ≡ cancelled self.old key.now }
    {
        if let Some((entry, line)) = self.waiting(key) {
            let standing = Standing::Cancelled;
            let waiting = &mut self.lines[line as usize];
            waiting.leave(key);
            rewrite(&mut self.entries, key, Entry { standing, ..entry });
            self.waiting -= 1;
        }
    }

    // Grants the key where it waits, and tells whether it did.
    fn give(&mut self, key: &Key) -> bool
        ensures value { self.new ≡ given self.old key.now }
        ensures gave { result ≡ is_some (waiting_of self.old key.now) }
    {
        if let Some((entry, line)) = self.waiting(key) {
            let granted = self.granted + 1;
            let standing = Standing::Granted(granted);
            let waiting = &mut self.lines[line as usize];
            waiting.leave(key);
            rewrite(&mut self.entries, key, Entry { standing, ..entry });
            self.granted = granted;
            self.waiting -= 1;
            return true;
        }
        false
    }

    // Ends the grant of the key where it is granted.
    fn end(&mut self, key: &Key)
        ensures { self.new ≡ finished self.old key.now }
    {
        if let Some(entry) = self.entries.get(key).copied() {
            if let Standing::Granted(grant) = entry.standing {
                let standing = Standing::Done(grant);
                rewrite(&mut self.entries, key, Entry { standing, ..entry });
            }
        }
    }

    // The first that waits for the service.
    fn first_waiter(&self, service: &Name) -> Option<(Key, Addr)>
        ensures { result ≡ first_of self.now service.now }
    {
        let line = self.offered.place_of(service)?;
        let waiter = self.first_of(line)?;
        Some((waiter.key, waiter.from))
    }

    // What is told of the waiter at this place of those that wait for the service.
    fn waiter_at(&self, service: &Name, at: usize) -> Option<WaiterLook>
        ensures { result ≡ option_map waiter_told (waiter_at self.now service.now at) }
    {
        let line = self.offered.place_of(service)?;
        let waiter = self.waiter_in(line, at)?;
        Some(waiter.look())
    }

    fn waiter_in(&self, line: usize, at: usize) -> Option<Waiter>
        requires { line < length self.now.offered }
        ensures { result ≡ slice_get (waiters line self.now.entries) at }
    {
        self.lines[line].get(at)
    }

    // The first of the line.
    fn first_of(&self, line: usize) -> Option<Waiter>
        requires { line < length self.now.offered }
        ensures { result ≡ slice_get (waiters line self.now.entries) 0 }
    {
        self.lines[line].first()
    }

    // The record at the place.
    fn shown(&self, place: usize) -> Option<Record>
        ensures value { result ≡ shown self.now place }
        ensures within { IsSome result ↔ (place < length self.now.entries) }
        ensures few { OnSome result (place < 65536) }
    {
        let (key, entry) = self.entries.get_index(place)?;
        Some(Record {
            key: *key,
            service: entry.service,
            kept: self.info_of(key, entry.standing),
            grant: entry.standing.grant(),
        })
    }
}
