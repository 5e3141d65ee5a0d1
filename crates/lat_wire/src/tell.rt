//! The parts of an event.

ghost use Rattle.std.specs.Prelude.{
  ◌≡◌,
  ◌+◌,
  ◌-◌,
  ◌*◌,
  ◌<◌,
  ◌≤◌,
  ◌^◌,
  ℕ,
  Bool,
  false,
  true,
  not,
  [],
  ◌∷◌,
  length,
  map,
  option_map,
  vec_len,
  vec_capacity,
  IfOk,
  OnOk,
  OnErr,
};
ghost use Rattle.lat_base.specs.Answers.{PutFits};
ghost use Rattle.lat_base.specs.declared.event.Event.TheVariants as events;
ghost use Rattle.lat_machines.specs.values.Addresses.{address};
ghost use Rattle.lat_machines.specs.values.Frames.{Value, Whole};
ghost use Rattle.lat_payload.specs.Reads.{reading_of};
ghost use Rattle.lat_wire.specs.ledger.Headings.{heading_in, heading_of};
ghost use Rattle.lat_machines.specs.world.Machines.{Setups, Posted, Machines, counted, is_own, marked_delivered, own_of, tell};
ghost use Rattle.lat_machines.specs.world.Tally.{RunTallies};
ghost use Rattle.lat_machines.specs.world.Young.{head_of};
ghost use Rattle.lat_lines.specs.Events.{event_shown};
ghost use Rattle.lat_wire.specs.ledger.Posts.{post_shown};
ghost use Rattle.lat_wire.specs.ledger.Tallies.{tally_at};
ghost use Rattle.lat_wire.specs.ledger.Ways.{CameAtMost};
ghost use Rattle.lat_wire.specs.ledger.Books.{IsBookOf, IsPost, tallies_of};
ghost use Rattle.lat_wire.specs.Kept.{CameLess, setups_of};
ghost use Rattle.lat_wire.specs.Notes.{NotesOn, note_shown};
ghost use Rattle.lat_wire.specs.Rates.{rates};
ghost use Rattle.lat_wire.specs.Refusals.{MarksRun, RefusedAs, first_of, full, backward, no_frame, old_run, old_so};
ghost use Rattle.lat_wire.specs.Stands.{Mirrors};
ghost use Rattle.lat_wire.specs.Taking.{HeadsRead, Took, is_taken, named_by, taker_of};
ghost use Rattle.lat_wire.specs.Told.{IsSent, answered, moment_after};

use crate::fault::{EventFault, FRAMES};
use crate::ledger::{Ledger, Post, Sent, Tally, heading_of};
use crate::notes::Note;
use crate::report::Noted;
use crate::wire::Wire;
use lat_base::{Addr, Answer, Bytes, Event, Heard, Memory};
use lat_node::RatingRule;
use std::alloc::Global;

impl<H: RatingRule> Wire<H> {
    /// Refused where more frames were sent than an event is told at.
    pub(crate) fn may_step(&self) -> Result<(), EventFault>
        ensures refused { (w : Machines) → Mirrors self.now w → RefusedAs result (full w) }
        ensures ok { OnOk result (length self.now.book.log.posts ≤ 199744) }
    {
        if self.ledger.posts.len() > FRAMES {
            return Err(EventFault::FramesFull);
        }
        Ok(())
    }

    /// The moment of the schedule behind an event. Refused where it lies before the last one.
    pub(crate) fn moment_behind(&self, event: &Event) -> Result<u64, EventFault>
        ensures refused { RefusedAs result (backward self.now.moment (event_shown event.now)) }
        ensures ok { IfOk result (λ moment.
            moment ≡ moment_after self.now.moment (event_shown event.now)) }
    {
        let last = self.moment;
        match event {
            Event::Time { now } if *now < last => Err(EventFault::Backward { at: *now, last }),
            Event::Time { now } => Ok(*now),
            Event::Heard { .. }
            | Event::Connect { .. }
            | Event::Put { .. }
            | Event::Set { .. }
            | Event::Take { .. }
            | Event::Attend { .. }
            | Event::Close { .. }
            | Event::Request { .. }
            | Event::Cancel { .. }
            | Event::Announce
            | Event::Avoid { .. }
            | Event::Ready { .. }
            | Event::Halt => Ok(last),
        }
    }

    /// The frame of this index. Refused where there is none.
    pub(crate) fn sent(&self, index: u64) -> Result<Sent<'_>, EventFault>
        ensures refused { (w : Machines) → Mirrors self.now w →
            RefusedAs result (no_frame w index) }
        ensures ok { IfOk result (λ sent.
            (w : Machines) → Mirrors self.now w → IsSent (setups_of self.now) w index sent) }
        ensures there { OnOk result (index < length self.now.book.log.posts) }
    {
        let sent = self.ledger.posts.len() as u64;
        self.ledger
            .posts
            .get(index)
            .ok_or(EventFault::NoFrame { index, sent })
    }

    /// The address of the server or of the node.
    pub fn own(&self, server: bool) -> Addr
        ensures { own_of (setups_of self.now) server ≡ address result.0 }
    {
        if server {
            self.server_own
        } else {
            self.node_own
        }
    }

    pub(crate) fn is_own(&self, station: Addr) -> bool
        ensures { result ≡ is_own (setups_of self.now) (address station.0) }
    {
        station == self.own(true) || station == self.own(false)
    }

    /// A payload that is heard from a station at the moment of the schedule.
    pub(crate) fn heard(&self, alloc: Global, from: Addr, payload: &[u8]) -> Result<Event, Memory>
        ensures { IfOk result (λ e. e ≡ events.Heard from payload.now self.now.moment) }
    {
        Ok(Event::Heard {
            from,
            payload: Bytes::copy(alloc, payload)?,
            now: self.moment,
        })
    }

    /// Refused where the circuit that a frame for the other end names lives there, and the frame isn't young.
    pub(crate) fn is_young(&self, post: &Post<'_>) -> Result<(), EventFault>
        ensures { (w : Machines) (p : Posted) →
            Mirrors self.now w →
            IsPost (post_shown post.now) p →
            MarksRun p.frame →
            RefusedAs result (old_run (setups_of self.now) w p (head_of p.frame.value)) }
    {
        let Some(heading) = heading_of(post.frame.payload) else {
            return Ok(());
        };
        let by_server = post.by_server;
        let Some(half) = self
            .ends
            .half_range(!by_server, self.own(by_server), heading)
        else {
            return Ok(());
        };
        let tally = self.ledger.tally(by_server, post.frame.circuit);
        are_recent(post, tally, half)
    }

    /// A frame that isn't for the other end is delivered: an event at which nothing is heard.
    pub(crate) fn pass_by(&mut self, index: u64) -> Result<(), Memory>
        requires { index < length self.old.book.log.posts }
        ensures mirrors { OnOk result ((w : Machines) → Mirrors self.old w →
            Mirrors self.new (counted (marked_delivered index w))) }
        ensures moment { self.new.moment ≡ self.old.moment }
        ensures setups { setups_of self.new ≡ setups_of self.old }
        ensures err { OnErr result (self.new ≡ self.old) }
    {
        let count = self.next_count()?;
        deliver(&mut self.ledger, index);
        self.count = count;
        Ok(())
    }

    /// The frame of this index is delivered in the event that was told last.
    pub(crate) fn come(&mut self, index: u64)
        requires there { index < length self.old.book.log.posts }
        requires room { CameLess self.old }
        ensures mirrors { (w : Machines) → Mirrors self.old w →
            Mirrors self.new (marked_delivered index w) }
        ensures moment { self.new.moment ≡ self.old.moment }
        ensures setups { setups_of self.new ≡ setups_of self.old }
    {
        deliver(&mut self.ledger, index);
    }

    // The number of the next event. There is no room for more than a number of 64 bits counts.
    fn next_count(&self) -> Result<u64, Memory>
        ensures { IfOk result (λ count.
            (count ≡ self.now.count + 1) × (self.now.count < 2 ^ 64 - 1)) }
    {
        self.count.checked_add(1).ok_or(Memory)
    }

    /// Tells the server or the node an event, keeps its frames and notes its answer. Takes its memory first: after `Memory`
    /// nothing has changed.
    pub(crate) fn tell(
        &mut self,
        alloc: Global,
        server: bool,
        event: &Event,
    ) -> Result<Answer, Memory>
        requires { length self.old.book.log.posts ≤ 199744 }
        ensures mirrors { OnOk result ((w : Machines) →
            Mirrors self.old w →
            RunTallies (setups_of self.old) w →
            Mirrors self.new (tell (setups_of self.old) w server (event_shown event.now)
            (rates (setups_of self.old) w))) }
        ensures answer { IfOk result (λ a.
            (w : Machines) → Mirrors self.old w →
            a ≡ answered (setups_of self.old) w server (event_shown event.now)) }
        ensures put { IfOk result (λ a. PutFits a event.now) }
        ensures posts { OnOk result (length self.old.book.log.posts ≤ length self.new.book.log.posts) }
        ensures came { OnOk result (CameLess self.new) }
        ensures moment { self.new.moment ≡ self.old.moment }
        ensures setups { setups_of self.new ≡ setups_of self.old }
        ensures err { OnErr result (self.new ≡ self.old) }
    {
        let count = self.next_count()?;
        reserve(&mut self.ledger, &mut self.notes)?;
        let other = self.own(!server);
        let answer = self.ends.step(alloc, server, event)?;
        take(&mut self.ledger, server, taker(event, &answer));
        self.ledger.enter_all(server, &other, self.ends.frames());
        self.ends.clear();
        note(&mut self.notes, count, &answer);
        self.count = count;
        Ok(answer)
    }
}

// Room for the frames of an event and for a note.
fn reserve(ledger: &mut Ledger, notes: &mut Vec<Note>) -> Result<(), Memory>
    ensures book { ledger.new.book ≡ ledger.old.book }
    ensures notes { notes.new.items ≡ notes.old.items }
    ensures reserved { OnOk result (256 ≤ ledger.new.reserved) }
    ensures bytes { OnOk result (1500 * 256 ≤ ledger.new.bytes) }
    ensures spare { OnOk result (vec_len notes.new < vec_capacity notes.new) }
{
    ledger.posts.reserve()?;
    notes.reserve(1)?;
    Ok(())
}

// The frame of this index is delivered.
fn deliver(ledger: &mut Ledger, index: u64)
    requires there { index < length ledger.old.book.log.posts }
    requires few { CameAtMost (2 ^ 64 - 2) ledger.old.book.log.ways }
    ensures book { (u : Setups) (w : Machines) → IsBookOf u ledger.old.book w →
        IsBookOf u ledger.new.book (marked_delivered index w) }
    ensures posts { ledger.new.book.log.posts ≡ ledger.old.book.log.posts }
    ensures tallies { (b : Bool) → tallies_of ledger.new.book b ≡ tallies_of ledger.old.book b }
    ensures came { (n : ℕ) → CameAtMost n ledger.old.book.log.ways →
        CameAtMost (n + 1) ledger.new.book.log.ways }
{
    ledger.posts.deliver(index as usize);
}

// The circuit that took a message has taken one more.
fn take(ledger: &mut Ledger, server: bool, taker: Option<u16>)
    requires { (x : ℕ) → (tally_at (tallies_of ledger.old.book server) x).taken < 2 ^ 64 - 1 }
    ensures took { Took taker (tallies_of ledger.old.book server)
        (tallies_of ledger.new.book server) }
    ensures other { tallies_of ledger.new.book (not server)
        ≡ tallies_of ledger.old.book (not server) }
    ensures log { ledger.new.book.log ≡ ledger.old.book.log }
    ensures reserved { ledger.new.reserved ≡ ledger.old.reserved }
    ensures bytes { ledger.new.bytes ≡ ledger.old.bytes }
{
    if let Some(circuit) = taker {
        ledger.take(server, circuit);
    }
}

// The event of this number is noted, where its answer is one that is.
fn note(notes: &mut Vec<Note>, event: u64, answer: &Answer)
    requires { vec_len notes.old < vec_capacity notes.old }
    ensures { NotesOn (map note_shown notes.old.items) event answer.now (map note_shown notes.new.items) }
{
    if let Some(noted) = Noted::of(answer) {
        notes.push_reserved(Note { event, noted });
    }
}

// Refused where a number lies half a range or more below the newest.
fn is_recent(acknowledgement: bool, number: u64, newest: u64, half: u64) -> Result<(), EventFault>
    requires { 0 < half }
    ensures { RefusedAs result (old_so acknowledgement half number newest) }
{
    if newest.saturating_sub(number) < half {
        return Ok(());
    }
    Err(EventFault::Old {
        acknowledgement,
        number,
        newest,
    })
}

// Refused where the number of a post, or else its acknowledgement, does.
fn are_recent(post: &Post<'_>, tally: Tally, half: u64) -> Result<(), EventFault>
    requires { 0 < half }
    ensures { RefusedAs result (first_of (old_so false half post.now.number tally.formed
        ∷ old_so true half post.now.acknowledgement tally.shown ∷ [])) }
{
    is_recent(false, post.number, tally.formed, half)?;
    is_recent(true, post.acknowledgement, tally.shown, half)
}

// Whether a circuit took the message that was heard.
fn is_taken(answer: &Answer) -> bool
    ensures { result ≡ is_taken answer.now }
{
    matches!(answer, Answer::Circuit(Heard::Taken(_)))
}

// The circuit that a payload names at the end that hears it.
fn named_in(payload: &[u8]) -> Option<u16>
    ensures value { result ≡ option_map (λ h. h.to) (heading_in payload.now) }
    ensures read { (v : Value) → reading_of payload.now ≡ Whole v →
        heading_in payload.now ≡ heading_of v }
{
    heading_of(payload).map(|heading| heading.to)
}

// The circuit that a frame names at the end that hears it.
fn named_by(event: &Event) -> Option<u16>
    ensures value { result ≡ named_by event.now }
    ensures read { HeadsRead event.now }
{
    match event {
        Event::Heard { payload, .. } => named_in(payload.as_slice()),
        Event::Time { .. }
        | Event::Connect { .. }
        | Event::Put { .. }
        | Event::Set { .. }
        | Event::Take { .. }
        | Event::Attend { .. }
        | Event::Close { .. }
        | Event::Request { .. }
        | Event::Cancel { .. }
        | Event::Announce
        | Event::Avoid { .. }
        | Event::Ready { .. }
        | Event::Halt => None,
    }
}

// The circuit that took a message in an event that was answered so.
fn taker(event: &Event, answer: &Answer) -> Option<u16>
    ensures value { result ≡ taker_of event.now answer.now }
    ensures read { is_taken answer.now ≡ true → HeadsRead event.now }
{
    if is_taken(answer) {
        named_by(event)
    } else {
        None
    }
}
