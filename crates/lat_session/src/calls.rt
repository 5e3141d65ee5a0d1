//! The local calls. After a refusal nothing has changed, and none takes memory.

ghost use Rattle.std.specs.Prelude.{◌≡◌, ◌≤◌, ◌++◌, ℕ, Bool, cond, true, map, length, drop, min, nat_lt, not, filter, vec_capacity, is_ok, IfOk, if◌then◌else◌};
ghost use Rattle.lat_base.specs.declared.state.SessionState.TheVariants as states;
ghost use Rattle.lat_model.specs.sessions.Calls.{call as called, take_count, took, Connect, Take, Answer, RejectAsk};
ghost use Rattle.lat_model.specs.sessions.Session.{Session, take_open};
ghost use Rattle.lat_model.specs.sessions.Sessions.{Sessions as States, named, held, least_free};
ghost use Rattle.lat_stream.specs.Kept.{item_of, stream_of};
ghost use Rattle.lat_stream.specs.Sound.{Sound};
ghost use Rattle.lat_session.specs.Calls.{call_of, answer_of, bytes_in, is_taken, after, without_bytes};
ghost use Rattle.lat_session.specs.Stands.{Stands};
ghost use Rattle.lat_session.specs.Table.{state_at, waiting_at, has_room, waits_as, SameEnd};

use crate::ask::Ask;
use crate::call::SessionCall;
use crate::table::Sessions;
use lat_base::{Item, Name};
use lat_stream::{SessionFault, Stream};

impl Sessions {
    /// Asks the peer for a session with a service, which may answer a request, and gives its id: the least that is free.
    /// `Full` exactly where at least the agreed number of sessions is held. At a master alone.
    pub fn connect(&mut self, service: &Name, request: Option<u16>) -> Result<u8, SessionFault>
        requires { self.old.master ≡ true }
        ensures answer { (e : States) →
            Stands self.old e →
            result ≡ (if nat_lt (held e) e.agreed then Ok (least_free e)
            else Err SessionFault.Full) }
        ensures room { is_ok result ≡ has_room self.old }
        ensures state { (e : States) → Stands self.old e →
            Stands self.new (called e (Connect service.now request)) }
        ensures same { SameEnd self.old self.new }
    {
        let at = self.free_place().ok_or(SessionFault::Full)?;
        let session = self.sessions.reach(at);
        session.call(service, request);
        Ok(at as u8 + 1)
    }

    /// Accepts an asked session, which is live at once.
    pub fn answer(&mut self, id: u8)
        requires { state_at self.old id ≡ states.Asked }
        ensures state { (e : States) → Stands self.old e → Stands self.new (called e (Answer id)) }
        ensures same { SameEnd self.old self.new }
    {
        let Some(at) = self.place(id) else {
            unreachable!()
        };
        let session = self.sessions.reach(at);
        session.answer();
        let_go(&mut self.asks, id);
    }

    /// Rejects an asked session for a reason, 0 to 15. Its id is free at once, and its reject waits to be sent.
    pub fn reject(&mut self, id: u8, reason: u8)
        requires asked { state_at self.old id ≡ states.Asked }
        requires reason { reason ≤ 15 }
        ensures state { (e : States) → Stands self.old e →
            Stands self.new (called e (RejectAsk id reason)) }
        ensures same { SameEnd self.old self.new }
    {
        let Some(at) = self.place(id) else {
            unreachable!()
        };
        let session = self.sessions.reach(at);
        let peer = session.peer();
        session.reject(reason);
        reject_ask(&mut self.asks, id, Ask::Rejected { peer, reason });
    }

    /// Does a call on the session of an id, and tells how many bytes it took: 0 where it puts none. See `SessionCall` for what
    /// each does and where it is refused.
    pub fn call(&mut self, id: u8, call: &SessionCall) -> Result<usize, SessionFault>
        ensures answer { (e : States) → Stands self.old e →
            result ≡ answer_of (named e id) call.now }
        ensures state { (e : States) → Stands self.old e →
            Stands self.new (called e (call_of id call.now)) }
        ensures same { SameEnd self.old self.new }
        ensures most { IfOk result (λ n. n ≤ bytes_in call.now) }
    {
        let at = self.place(id).ok_or(SessionFault::Closed)?;
        let session = self.sessions.reach(at);
        call_on(session, call)
    }

    /// Moves the first heard items to the front of `out`, as many as there are places and items. `Closed` exactly where
    /// the session is free or asked, or `close` was called; then `out` is as it was.
    pub fn take(&mut self, id: u8, out: &mut [Item]) -> Result<usize, SessionFault>
        ensures answer { (e : States) →
            Stands self.old e →
            result ≡ (if take_open (named e id) then Ok (take_count (named e id) (length out.old))
            else Err SessionFault.Closed) }
        ensures items { (e : States) →
            Stands self.old e →
            out.new ≡ (if take_open (named e id)
            then map item_of (took e id (length out.old))
            ++ drop (take_count (named e id) (length out.old)) out.old
            else out.old) }
        ensures state { (e : States) → Stands self.old e →
            Stands self.new (called e (Take id (length out.old))) }
        ensures same { SameEnd self.old self.new }
        ensures count { IfOk result (λ n. n ≡ min (length out.old) (waiting_at self.old id)) }
        ensures most { IfOk result (λ n. n ≤ length out.old) }
        ensures places { length out.new ≡ length out.old }
    {
        let at = self.place(id).ok_or(SessionFault::Closed)?;
        let session = self.sessions.reach(at);
        session.take(out)
    }
}

// Does the call on one session.
fn call_on(session: &mut Stream, call: &SessionCall) -> Result<usize, SessionFault>
    ensures answer { (master : Bool) (ceiling : ℕ) (s : Session) →
        Sound master ceiling s → session.old ≡ stream_of master ceiling s →
        result ≡ answer_of s call.now }
    ensures state { (master : Bool) (ceiling : ℕ) (s : Session) →
        Sound master ceiling s → session.old ≡ stream_of master ceiling s →
        session.new ≡ (if is_taken s call.now then stream_of master ceiling (after s call.now)
        else session.old) }
    ensures most { IfOk result (λ n. n ≤ bytes_in call.now) }
{
    match call {
        SessionCall::Put(bytes) => session.put(bytes),
        SessionCall::Set(setting) => without_bytes(session.set(*setting)),
        SessionCall::Attend(flag) => without_bytes(session.attend(*flag)),
        SessionCall::Close => without_bytes(session.close()),
    }
}

// The answer to a call that puts no bytes.
fn without_bytes(answer: Result<(), SessionFault>) -> Result<usize, SessionFault>
    ensures { result ≡ without_bytes answer }
{
    answer.map(|()| 0)
}

// The ask waits for an answer to the session of this id.
fn waits_as(ask: Ask, id: u8) -> bool
    ensures { result ≡ waits_as id ask }
{
    match ask {
        Ask::Waits(waiting) => waiting == id,
        Ask::Rejected { .. } => false,
    }
}

// Takes out the ask of the session of this id.
fn let_go(asks: &mut Vec<Ask>, id: u8)
    ensures items { asks.new.items ≡ filter (λ a. not (waits_as id a)) asks.old.items }
    ensures fewer { length asks.new.items ≤ length asks.old.items }
    ensures room { vec_capacity asks.new ≡ vec_capacity asks.old }
{
    asks.retain(|ask| !waits_as(*ask, id));
}

// The ask as it is once that of the session of this id is rejected.
fn rejected_ask(ask: Ask, id: u8, rejected: Ask) -> Ask
    ensures { result ≡ cond (waits_as id ask) rejected ask }
{
    if waits_as(ask, id) { rejected } else { ask }
}

// Puts `rejected` in the place of the ask of the session of this id.
fn reject_ask(asks: &mut [Ask], id: u8, rejected: Ask)
    ensures { asks.new ≡ map (λ a. cond (waits_as id a) rejected a) asks.old }
{
    for ask in asks.iter_mut() {
        *ask = rejected_ask(*ask, id, rejected);
    }
}
