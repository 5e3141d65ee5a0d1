//! The local calls on lines. Each is refused `NoLine` where there is no such line, and `Closed` where it has no session or its
//! session refuses; after a refusal nothing has changed.

ghost use Rattle.std.specs.Prelude.{◌≡◌, ◌≤◌, [], length, IfOk, OnErr};
ghost use Rattle.lat_base.specs.Answers.{PutFits, TookFits};
ghost use Rattle.lat_base.specs.declared.event.Event.TheVariants as events;
ghost use Rattle.lat_machines.specs.cores.LineCalls.{take_on, on_line};
ghost use Rattle.lat_session.specs.States.{is_free};
ghost use Rattle.lat_lines.specs.circuits.Kept.{IsClear};
ghost use Rattle.lat_lines.specs.Kept.{side_of, SameLines};
ghost use Rattle.lat_lines.specs.Calls.{call_on, event_of, call_answer, done_answer};
ghost use Rattle.lat_lines.specs.Answers.{SimulatesCall, ready, seat_or, fault_answer, took_answer};

use crate::getters::seat_of;
use crate::lines::Lines;
use crate::seat::Seat;
use lat_base::{Answer, Item, Items, Memory, SessionState};
use lat_circuit::{SessionCall, SessionFault};
use lat_stream::UNFRAMED_ITEMS;
use std::alloc::Global;

impl Lines {
    /// Does a call on the line's session: `Put` with how many bytes were taken, the first ones; `Done` of the others, but for a
    /// setting that is `Full`. See `SessionCall`.
    pub fn call(&mut self, line: u8, call: &SessionCall) -> Answer
        ensures says { SimulatesCall (λ c.
            on_line self.old.lines c line (λ s. call_on (side_of self.old) c s call.now))
            self.old self.new result }
        ensures fits { PutFits result (event_of line call.now) }
        ensures took { TookFits (ready self.old) result (event_of line call.now) }
        ensures same { SameLines self.old self.new }
        ensures clear { IsClear self.old.circuits → IsClear self.new.circuits }
        ensures rooms { length self.old.circuits.rooms ≤ length self.new.circuits.rooms }
        ensures moment { self.new.circuits.moment ≡ self.old.circuits.moment }
    {
        match self.seat_on(line) {
            Ok(seat) => {
                let session = seat.session;
                let answer = self
                    .circuits
                    .call_session(session.circuit, session.session, call);
                let is_over = is_free(self.circuits.state(session.circuit, session.session));
                self.reap_unless(!is_over);
                answer_of_call(call, answer)
            }
            Err(answer) => self.refused(answer),
        }
    }

    /// The first items that the line's session has heard, at most `n`: `Took`. Takes memory for them first; after `Memory`
    /// nothing has changed.
    pub fn take(&mut self, alloc: Global, line: u8, n: u16) -> Result<Answer, Memory>
        ensures says { IfOk result (λ a.
            SimulatesCall (λ c.
            on_line self.old.lines c line (λ s. take_on (side_of self.old) c s n))
            self.old self.new a) }
        ensures fits { IfOk result (λ a. PutFits a (events.Take line n)) }
        ensures took { IfOk result (λ a. TookFits (ready self.old) a (events.Take line n)) }
        ensures same { SameLines self.old self.new }
        ensures clear { IsClear self.old.circuits → IsClear self.new.circuits }
        ensures rooms { length self.old.circuits.rooms ≤ length self.new.circuits.rooms }
        ensures moment { self.new.circuits.moment ≡ self.old.circuits.moment }
        ensures err { OnErr result (self.new ≡ self.old) }
    {
        match self.seat_on(line) {
            Ok(seat) => {
                let session = seat.session;
                let count = self
                    .circuits
                    .waiting(session.circuit, session.session)
                    .min(n);
                let mut items = places(alloc, count as usize)?;
                let answer = self
                    .circuits
                    .take(session.circuit, session.session, items.as_mut_slice());
                let is_over = is_free(self.circuits.state(session.circuit, session.session));
                self.reap_unless(!is_over);
                Ok(answer_of_take(answer, items))
            }
            Err(answer) => Ok(self.refused(answer)),
        }
    }

    // The session of a line, or what the call is answered.
    fn seat_on(&self, line: u8) -> Result<Seat, Answer>
        ensures { result ≡ seat_or self.now line }
    {
        if !self.exists(line) {
            return Err(Answer::NoLine);
        }
        seat_of(self.seats.as_slice(), line).ok_or(Answer::Closed)
    }

    // A refused call frees nothing.
    fn refused(&mut self, answer: Answer) -> Answer
        ensures answer { result ≡ answer }
        ensures kept { self.new ≡ record self.old { freed = [] } }
    {
        self.rest();
        answer
    }
}

fn is_free(state: SessionState) -> bool
    ensures { result ≡ is_free state }
{
    matches!(state, SessionState::Free)
}

// So many places for items.
fn places(alloc: Global, count: usize) -> Result<Vec<Item>, Memory>
    ensures { IfOk result (λ v. length v.items ≡ count) }
{
    let mut items = Vec::with_capacity(alloc, count)?;
    for _ in 0..count {
        items.push_reserved(Item::Byte(0));
    }
    Ok(items)
}

fn answer_of_fault(fault: SessionFault) -> Answer
    ensures { result ≡ fault_answer fault }
{
    match fault {
        SessionFault::Full => Answer::Full,
        SessionFault::Closed => Answer::Closed,
    }
}

fn answer_of_call(call: &SessionCall, answer: Result<usize, SessionFault>) -> Answer
    ensures { result ≡ call_answer call.now answer }
{
    match answer {
        Ok(taken) => answer_of_done(call, taken),
        Err(fault) => answer_of_fault(fault),
    }
}

// No put takes more bytes than items may wait to be framed.
fn answer_of_done(call: &SessionCall, taken: usize) -> Answer
    ensures { result ≡ done_answer call.now taken }
{
    match call {
        SessionCall::Put(_) => Answer::Put(taken.min(UNFRAMED_ITEMS) as u16),
        SessionCall::Set(_) | SessionCall::Attend(_) | SessionCall::Close => Answer::Done,
    }
}

fn answer_of_take(answer: Result<usize, SessionFault>, items: Vec<Item>) -> Answer
    ensures { result ≡ took_answer answer items.items }
{
    match answer {
        Ok(_) => Answer::Took(Items::of(items)),
        Err(fault) => answer_of_fault(fault),
    }
}
