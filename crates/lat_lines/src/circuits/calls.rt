//! The local calls on the sessions of circuits. They are applied at the latest moment that the circuit was given and make no
//! frame. Where no such circuit lives each is refused `Closed`. After a refusal nothing has changed, and none takes memory.

ghost use Rattle.std.specs.Prelude.{◌≡◌, ◌≤◌, ◌<◌, ◌++◌, ◌&&◌, if◌then◌else◌, false, Ok, Err, IfOk, IfSome, MatchOption};
ghost use Rattle.std.specs.Prelude.{map, length, drop, min};
ghost use Rattle.lat_model.specs.sessions.Calls.{take_count, took, Take, Answer, RejectAsk};
ghost use Rattle.lat_model.specs.sessions.Session.{take_open};
ghost use Rattle.lat_model.specs.ends.End.{lives};
ghost use Rattle.lat_machines.specs.cores.Cores.{Core};
ghost use Rattle.lat_stream.specs.Kept.{item_of};
ghost use Rattle.lat_session.specs.Calls.{call_of, bytes_in};
ghost use Rattle.lat_lines.specs.circuits.Kept.{side_of, SameCircuits, IsClear};
ghost use Rattle.lat_lines.specs.circuits.Stands.{Stands, calling};
ghost use Rattle.lat_lines.specs.circuits.Info.{sessions_at, session_at, held_circuit, ready, is_asked_at, answer_at};
ghost use Rattle.lat_lines.specs.circuits.Living.{lives_in, LivesAt, AsksAt, NoneAsks};

use crate::circuits::Circuits;
use lat_base::Item;
use lat_circuit::{SessionCall, SessionFault};

impl Circuits {
    /// Does a call on a session of a circuit, and tells how many bytes it took: 0 where it puts none. See `SessionCall` for what
    /// each does and where it is refused.
    pub fn call_session(
        &mut self,
        circuit: u16,
        id: u8,
        call: &SessionCall,
    ) -> Result<usize, SessionFault>
        ensures answer { (c : Core) → Stands self.old c → result ≡ answer_at c circuit id call.now }
        ensures most { IfOk result (λ n. n ≤ bytes_in call.now) }
        ensures state { (c : Core) →
            Stands self.old c →
            Stands self.new (calling (side_of self.old) circuit (call_of id call.now) c) }
        ensures same { SameCircuits self.old self.new }
        ensures clear { IsClear self.old → IsClear self.new }
    {
        let at = self.living_at(circuit).ok_or(SessionFault::Closed)?;
        let circuit = &mut self.held[at];
        circuit.call_session(id, call)
    }

    /// Moves the first heard items to the front of `out`, as many as there are places and items. `Closed` exactly where the
    /// session is free or asked, or `close` was called; then `out` is as it was.
    pub fn take(&mut self, circuit: u16, id: u8, out: &mut [Item]) -> Result<usize, SessionFault>
        ensures answer { (c : Core) →
            Stands self.old c →
            result ≡ (if lives (c.circuits.circuit_at circuit).end
            && take_open (session_at c circuit id)
            then Ok (take_count (session_at c circuit id) (length out.old))
            else Err SessionFault.Closed) }
        ensures items { (c : Core) →
            Stands self.old c →
            out.new ≡ (if lives (c.circuits.circuit_at circuit).end
            && take_open (session_at c circuit id)
            then map item_of (took (sessions_at c circuit) id (length out.old))
            ++ drop (take_count (session_at c circuit id) (length out.old)) out.old
            else out.old) }
        ensures count { IfOk result (λ n. n ≡ min (length out.old) (ready self.old circuit id)) }
        ensures places { length out.new ≡ length out.old }
        ensures state { (c : Core) →
            Stands self.old c →
            Stands self.new (calling (side_of self.old) circuit (Take id (length out.old)) c) }
        ensures same { SameCircuits self.old self.new }
        ensures clear { IsClear self.old → IsClear self.new }
    {
        let at = self.living_at(circuit).ok_or(SessionFault::Closed)?;
        let circuit = &mut self.held[at];
        circuit.take(id, out)
    }

    /// Accepts the asked session of this id, which is live at once. Where none is asked for nothing happens.
    pub fn answer(&mut self, circuit: u16, id: u8)
        ensures state { (c : Core) →
            Stands self.old c →
            Stands self.new (calling (side_of self.old) circuit (Answer id) c) }
        ensures same { SameCircuits self.old self.new }
        ensures ended { is_asked_at self.old circuit id ≡ false → self.new ≡ self.old }
    {
        if let Some(at) = self.asked_place(circuit, id) {
            let circuit = &mut self.held[at];
            circuit.answer_session(id);
        }
    }

    /// Rejects the asked session of this id for a reason, 0 to 15. Its id is free at once, and its reject waits to be sent.
    /// Where none is asked for nothing happens.
    pub fn reject(&mut self, circuit: u16, id: u8, reason: u8)
        requires reason { reason ≤ 15 }
        ensures state { (c : Core) →
            Stands self.old c →
            Stands self.new (calling (side_of self.old) circuit (RejectAsk id reason) c) }
        ensures same { SameCircuits self.old self.new }
        ensures ended { is_asked_at self.old circuit id ≡ false → self.new ≡ self.old }
    {
        if let Some(at) = self.asked_place(circuit, id) {
            let circuit = &mut self.held[at];
            circuit.reject(id, reason);
        }
    }

    // Where the living circuit of this id stands, whose session of this id is asked for.
    fn asked_place(&self, circuit: u16, id: u8) -> Option<usize>
        ensures place { MatchOption result (NoneAsks self.now circuit id)
            (AsksAt self.now circuit id) }
        ensures within { IfSome result (λ at. at < length self.now.held) }
    {
        let at = self.living_at(circuit)?;
        if self.held[at].asked_at(id).is_some() {
            Some(at)
        } else {
            None
        }
    }

    // Where the living circuit of this id stands.
    pub(crate) fn living_at(&self, circuit: u16) -> Option<usize>
        ensures place { MatchOption result (lives_in (held_circuit self.now circuit) ≡ false)
            (LivesAt self.now circuit) }
        ensures within { IfSome result (λ at. at < length self.now.held) }
    {
        let at = self.held_at(circuit)?;
        if self.held[at].lives() {
            Some(at)
        } else {
            None
        }
    }
}
