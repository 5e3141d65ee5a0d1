//! The clock's worker.

ghost use Rattle.std.specs.Prelude.{◌≡◌, ◌||◌, ◌*◌, ℕ, Some, None, IfSome, option_map, OnErr, if◌then◌else◌};
ghost use Rattle.lat_cell.specs.Dues.{begun, has_come, has_lingered, is_due};
ghost use Rattle.lat_cell.specs.Refusals.{HasCause};
ghost use Rattle.lat_cell.specs.Ticks.{Beaten, Ticked, WoundUp, announced_by, announcement, wound_by};
ghost use Rattle.lat_history.specs.Asked.{Tried};
ghost use Rattle.lat_history.specs.History.{state_of};
ghost use Rattle.lat_past.specs.Counts.{seat_of};

use crate::telling::halt;
use lat_base::{Core, Event};
use lat_history::{Cell, CellFault, LineShare};
use lat_outside::{Clock, Tx};
use std::alloc::Global;
use std::sync::ledger::Ledger;
use std::sync::{Mutex, Wait};

/// When announcements go out: at once, and each time so many milliseconds have passed since the last one.
#[derive(Clone, Copy, Drop)]
pub struct Announcing {
    pub each: Option<u64>,
    pub last: Option<u64>,
}

impl Announcing {
    /// The first one is due at once; where no seconds are given, none is.
    pub fn each(seconds: Option<u8>) -> Announcing
        ensures { (result.each ≡ option_map (λ s. s * 1000) seconds) × (result.last ≡ None) }
    {
        Announcing {
            each: seconds.map(|s| s as u64 * 1000),
            last: None,
        }
    }

    // Whether one is due now; then it is the last one.
    fn is_due(&mut self, now: u64) -> bool
        ensures due { result ≡ is_due self.old now }
        ensures last { self.new ≡ (if is_due self.old now then record self.old { last = Some now }
            else self.old) }
    {
        let Some(each) = self.each else {
            return false;
        };
        if let Some(last) = self.last
            && now.saturating_sub(last) < each
        {
            return false;
        }
        self.last = Some(now);
        true
    }
}

// Applies an event of the clock, if there is one.
fn applied<C: Core, T: Tx, E: Ledger, B: Ledger>(
    alloc: Global,
    cell: &mut Cell<C, T, E, B>,
    share: &mut LineShare<E, B>,
    event: Option<Event>,
) -> Result<Option<u64>, CellFault>
    requires { IfSome event (λ e. seat_of e ≡ share.old.seat) }
    ensures tried { Tried C.opening C.next C.answer cell.old cell.new event result }
    ensures cause { HasCause cell.old event result }
    ensures refused { OnErr result (share.new ≡ share.old) }
    ensures seat { (share.new.seat ≡ share.old.seat) × (share.new.parts ≡ share.old.parts) }
{
    match event {
        Some(event) => Ok(Some(cell.apply(alloc, event, share)?.place)),
        None => Ok(None),
    }
}

// Says that the daemon is to end, where so many sessions that were live have ended.
fn stop_if<C: Core, T: Tx, E: Ledger, B: Ledger>(cell: &mut Cell<C, T, E, B>, sessions: Option<u64>)
    ensures { cell.new ≡ record cell.old {
      stopping = cell.old.stopping || has_come sessions cell.old.served;
    } }
{
    if sessions.is_some_and(|count| cell.served() >= count) {
        cell.stop();
    }
}

/// What came of a tick: the places of its events, or why they were refused.
#[derive(Drop)]
pub struct TickDone {
    pub told: Result<Option<u64>, CellFault>,
    pub announced: Result<Option<u64>, CellFault>,
}

/// Tells the time, announces where it is due, and stops the cell where so many sessions that were live have ended.
pub fn tick<C: Core, T: Tx, E: Ledger, B: Ledger>(
    alloc: Global,
    cell: &mut Cell<C, T, E, B>,
    share: &mut LineShare<E, B>,
    now: u64,
    announcing: &mut Announcing,
    sessions: Option<u64>,
) -> TickDone
    requires { share.old.seat ≡ 65 }
    ensures ticked { Ticked C.opening C.next C.answer (has_come sessions) cell.old cell.new now
        (is_due announcing.old now) result.told result.announced }
    ensures due { announcing.new ≡ announced_by announcing.old now }
    ensures seat { (share.new.seat ≡ share.old.seat) × (share.new.parts ≡ share.old.parts) }
{
    let told = applied(alloc, cell, share, Some(Event::Time { now }));
    let due = announcement(announcing.is_due(now));
    let announced = applied(alloc, cell, share, due);
    stop_if(cell, sessions);
    TickDone { told, announced }
}

// An announcement where one is due.
fn announcement(due: bool) -> Option<Event>
    ensures event { result ≡ announcement due }
    ensures seat { IfSome result (λ e. seat_of e ≡ 65) }
{
    if due { Some(Event::Announce) } else { None }
}

/// Since when the daemon has been ending, if it has, and how many milliseconds it waits at most until its core is drained.
#[derive(Clone, Copy, Drop)]
pub struct Winding {
    pub since: Option<u64>,
    pub linger: u64,
}

impl Winding {
    /// It isn't ending yet, and will wait for so many seconds.
    pub fn up(linger: u8) -> Winding
        ensures { (result.since ≡ None) × (result.linger ≡ linger * 1000) }
    {
        Winding {
            since: None,
            linger: linger as u64 * 1000,
        }
    }

    // Whether it has been ending for as long as it waits, or its core is drained; the first call says since when it is.
    fn is_done(&mut self, now: u64, is_drained: bool) -> bool
        ensures done { result ≡ is_drained || has_lingered self.old now }
        ensures since { self.new ≡ begun self.old now }
    {
        let since = self.since.unwrap_or(now);
        self.since = Some(since);
        is_drained || now.saturating_sub(since) >= self.linger
    }
}

/// Halts the core of a daemon that is ending, once it is drained or the daemon has waited for long enough, and then says that the
/// workers of the wire and of the clock are to end. A halt that is refused for want of memory is tried again at the next tick.
pub fn wind_up<C: Core, T: Tx, E: Ledger, B: Ledger>(
    alloc: Global,
    cell: &mut Cell<C, T, E, B>,
    share: &mut LineShare<E, B>,
    now: u64,
    winding: &mut Winding,
) -> Result<Option<u64>, CellFault>
    requires { share.old.seat ≡ 65 }
    ensures wound { WoundUp C.opening C.next C.answer C.drained_of cell.old cell.new now winding.old result }
    ensures since { winding.new ≡ wound_by cell.old.stopping winding.old now }
    ensures seat { (share.new.seat ≡ share.old.seat) × (share.new.parts ≡ share.old.parts) }
{
    if !cell.stopping() || !winding.is_done(now, cell.is_drained()) {
        return Ok(None);
    }
    match halt(alloc, cell, share) {
        Ok(place) => {
            cell.finish();
            Ok(Some(place))
        }
        Err(fault) => Err(fault),
    }
}

// What came of a turn of the clock's worker.
#[derive(Drop)]
struct BeatDone {
    tick: TickDone,
    halted: Result<Option<u64>, CellFault>,
    is_over: bool,
}

// One turn of the clock's worker. It tells what came of it, and whether the worker ends.
fn beat<C: Core, T: Tx, E: Ledger, B: Ledger>(
    alloc: Global,
    cell: &mut Cell<C, T, E, B>,
    share: &mut LineShare<E, B>,
    now: u64,
    rhythm: &mut Rhythm,
) -> BeatDone
    requires { share.old.seat ≡ 65 }
    ensures beats { Beaten C.opening C.next C.answer C.drained_of cell.old cell.new now rhythm.old rhythm.new
        result.tick.told result.tick.announced result.halted }
    ensures over { result.is_over ≡ cell.new.over }
    ensures seat { (share.new.seat ≡ share.old.seat) × (share.new.parts ≡ share.old.parts) }
{
    let sessions = rhythm.sessions;
    let tick = tick(alloc, cell, share, now, &mut rhythm.announcing, sessions);
    let halted = wind_up(alloc, cell, share, now, &mut rhythm.winding);
    let is_over = cell.is_over();
    BeatDone {
        tick,
        halted,
        is_over,
    }
}

// What the clock's worker goes by.
#[derive(Drop)]
struct Rhythm {
    announcing: Announcing,
    sessions: Option<u64>,
    winding: Winding,
}

impl Rhythm {
    // A course's, at its start.
    fn of(course: Course) -> Rhythm
        ensures announcing { (result.announcing.each ≡ option_map (λ s. s * 1000) course.announce)
            × (result.announcing.last ≡ None) }
        ensures sessions { result.sessions ≡ course.sessions }
        ensures winding { (result.winding.since ≡ None) × (result.winding.linger ≡ course.linger * 1000) }
    {
        Rhythm {
            announcing: Announcing::each(course.announce),
            sessions: course.sessions,
            winding: Winding::up(course.linger),
        }
    }
}

/// What a daemon's clock goes by.
#[derive(Clone, Copy, Drop)]
pub struct Course {
    /// Announcements go out at the start, and each time so many seconds have passed.
    pub announce: Option<u8>,
    /// The daemon ends once so many sessions that were live have ended.
    pub sessions: Option<u64>,
    /// How many seconds it waits at its end, at most, until its core is drained.
    pub linger: u8,
    /// How long the clock pauses between two time events, in 10 ms.
    pub timer: u8,
}

impl Course {
    // The clock's pause, in milliseconds.
    fn pause(&self) -> u64
        ensures { result ≡ 10 * self.now.timer }
    {
        10 * self.timer as u64
    }
}

/// Tells the cell the time, at once and then after each pause of `timer` times 10 ms, until the daemon has ended. Where `announce` is given,
/// announcements go out at the start and each time so many seconds have passed. Where `sessions` is given, the daemon is to end
/// once so many sessions that were live have ended. One that ends is halted once its core is drained, or after `linger` seconds.
/// An event that is refused is left out. It may wait, and its return isn't promised.
pub fn time_worker<C: Core, T: Tx, K: Clock, E: Ledger, B: Ledger, R: Wait>(
    rt: &R,
    alloc: Global,
    cell: &Mutex<Cell<C, T, E, B>>,
    share: LineShare<E, B>,
    clock: K,
    course: Course,
) -> LineShare<E, B>
    requires { share.seat ≡ 65 }
    ensures { (result.seat ≡ share.seat) × (result.parts ≡ share.parts) }
{
    let mut share = share;
    let mut clock = clock;
    let mut rhythm = Rhythm::of(course);
    let pause = course.pause();
    for _ in rt.forever() {
        let now = clock.now();
        if beat(alloc, &mut cell.lock(rt), &mut share, now, &mut rhythm).is_over {
            return share;
        }
        clock.pause(pause);
    }
    unreachable!()
}
