//! The local calls on the sessions of a circuit. They are applied at the latest moment that it was given, and make no frame.
//! After a refusal nothing has changed, and none takes memory.

ghost use Rattle.std.specs.Prelude.{◌≡◌, ◌≤◌, ◌++◌, not, true, map, length, drop, min, nat_eq, nat_lt, None, is_ok, IfOk, if◌then◌else◌};
ghost use Rattle.lat_base.specs.declared.state.SessionState.TheVariants as states;
ghost use Rattle.lat_model.specs.ends.End.{End, still, call_end};
ghost use Rattle.lat_model.specs.ends.Timers.{note_empty};
ghost use Rattle.lat_model.specs.sessions.Calls.{take_count, took, Connect, Take, Answer, RejectAsk};
ghost use Rattle.lat_model.specs.sessions.Session.{take_open};
ghost use Rattle.lat_model.specs.sessions.Sessions.{named, held, least_free};
ghost use Rattle.lat_stream.specs.Kept.{item_of};
ghost use Rattle.lat_session.specs.Calls.{call_of, answer_of, bytes_in};
ghost use Rattle.lat_session.specs.Table.{state_at, waiting_at, has_room};
ghost use Rattle.lat_circuit.specs.Stands.{Stands};
ghost use Rattle.lat_circuit.specs.Steps.{Keeps};

use crate::circuit::Circuit;
use lat_base::{Item, Name};
use lat_session::{SessionCall, SessionFault};

impl Circuit {
    /// Whether a session is held.
    pub(crate) fn is_held(&self) -> bool
        ensures { (e : End) → Stands self.now e → result ≡ not (nat_eq (held e.half.sessions) 0) }
    {
        self.sessions.is_any_held()
    }

    /// Where a session was held before and none is now, the time without one begins. No call can free a session but a take, a
    /// close and a reject.
    pub(crate) fn note_empty(&mut self, was_held: bool)
        ensures state { (d e : End) →
            Stands self.old e →
            was_held ≡ not (nat_eq (held d.half.sessions) 0) →
            Stands self.new (note_empty d (still e)).end }
        ensures keeps { Keeps self.old self.new }
        ensures ended { self.new.ended ≡ self.old.ended }
    {
        if was_held && !self.is_held() {
            self.moments.empty_at = self.moments.now;
        }
    }

    /// Asks the peer for a session with a service, which may answer a request, and gives its id: the least that is free. `Full`
    /// exactly where at least the agreed number of sessions is held. At a master alone. The circuit must live, here and below. See
    /// "Sessions" in docs/PROTOCOL.md.
    pub fn connect(&mut self, service: &Name, request: Option<u16>) -> Result<u8, SessionFault>
        requires lives { self.old.ended ≡ None }
        requires master { self.old.sessions.master ≡ true }
        ensures answer { (e : End) →
            Stands self.old e →
            result ≡ (if nat_lt (held e.half.sessions) e.half.sessions.agreed
            then Ok (least_free e.half.sessions)
            else Err SessionFault.Full) }
        ensures room { is_ok result ≡ has_room self.old.sessions }
        ensures state { (e : End) → Stands self.old e →
            Stands self.new (note_empty e (still (call_end (Connect service.now request) e))).end }
        ensures keeps { Keeps self.old self.new }
        ensures ended { self.new.ended ≡ self.old.ended }
    {
        self.sessions.connect(service, request)
    }

    /// Accepts an asked session, which is live at once.
    pub fn answer_session(&mut self, id: u8)
        requires lives { self.old.ended ≡ None }
        requires asked { state_at self.old.sessions id ≡ states.Asked }
        ensures state { (e : End) → Stands self.old e →
            Stands self.new (note_empty e (still (call_end (Answer id) e))).end }
        ensures keeps { Keeps self.old self.new }
        ensures ended { self.new.ended ≡ self.old.ended }
    {
        self.sessions.answer(id);
    }

    /// Rejects an asked session for a reason, 0 to 15. Its id is free at once, and its reject waits to be sent.
    pub fn reject(&mut self, id: u8, reason: u8)
        requires lives { self.old.ended ≡ None }
        requires asked { state_at self.old.sessions id ≡ states.Asked }
        requires reason { reason ≤ 15 }
        ensures state { (e : End) → Stands self.old e →
            Stands self.new (note_empty e (still (call_end (RejectAsk id reason) e))).end }
        ensures keeps { Keeps self.old self.new }
        ensures ended { self.new.ended ≡ self.old.ended }
    {
        let was_held = self.is_held();
        self.sessions.reject(id, reason);
        self.note_empty(was_held);
    }

    /// Does a call on the session of an id, and tells how many bytes it took: 0 where it puts none. See `SessionCall` for what
    /// each does and where it is refused.
    pub fn call_session(&mut self, id: u8, call: &SessionCall) -> Result<usize, SessionFault>
        requires lives { self.old.ended ≡ None }
        ensures answer { (e : End) → Stands self.old e →
            result ≡ answer_of (named e.half.sessions id) call.now }
        ensures most { IfOk result (λ n. n ≤ bytes_in call.now) }
        ensures state { (e : End) → Stands self.old e →
            Stands self.new (note_empty e (still (call_end (call_of id call.now) e))).end }
        ensures keeps { Keeps self.old self.new }
        ensures ended { self.new.ended ≡ self.old.ended }
    {
        match call {
            // Of these a close alone can free a session.
            SessionCall::Close => {
                let was_held = self.is_held();
                let answer = self.sessions.call(id, call);
                self.note_empty(was_held);
                answer
            }
            _ => self.sessions.call(id, call),
        }
    }

    /// Moves the first heard items to the front of `out`, as many as there are places and items. `Closed` exactly where the session
    /// is free or asked, or `close` was called; then `out` is as it was.
    pub fn take(&mut self, id: u8, out: &mut [Item]) -> Result<usize, SessionFault>
        requires lives { self.old.ended ≡ None }
        ensures answer { (e : End) →
            Stands self.old e →
            result ≡ (if take_open (named e.half.sessions id)
            then Ok (take_count (named e.half.sessions id) (length out.old))
            else Err SessionFault.Closed) }
        ensures items { (e : End) →
            Stands self.old e →
            out.new ≡ (if take_open (named e.half.sessions id)
            then map item_of (took e.half.sessions id (length out.old))
            ++ drop (take_count (named e.half.sessions id) (length out.old)) out.old
            else out.old) }
        ensures count { IfOk result (λ n.
            n ≡ min (length out.old) (waiting_at self.old.sessions id)) }
        ensures most { IfOk result (λ n. n ≤ length out.old) }
        ensures places { length out.new ≡ length out.old }
        ensures state { (e : End) → Stands self.old e →
            Stands self.new (note_empty e (still (call_end (Take id (length out.old)) e))).end }
        ensures keeps { Keeps self.old self.new }
        ensures ended { self.new.ended ≡ self.old.ended }
    {
        let was_held = self.is_held();
        let answer = self.sessions.take(id, out);
        self.note_empty(was_held);
        answer
    }
}
