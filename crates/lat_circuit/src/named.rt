//! The calls of a session's user by their names: each is `call_session` with one `SessionCall`.

ghost use Rattle.std.specs.Prelude.{◌≡◌, ◌≤◌, length, nat_lt, None, IfOk, if◌then◌else◌};
ghost use Rattle.lat_model.specs.ends.End.{End, still, call_end};
ghost use Rattle.lat_model.specs.ends.Timers.{note_empty};
ghost use Rattle.lat_model.specs.sessions.Calls.{put_count, Put, Set, Attend, Close};
ghost use Rattle.lat_model.specs.sessions.Session.{put_open, take_open, unframed};
ghost use Rattle.lat_model.specs.sessions.Sessions.{named};
ghost use Rattle.lat_circuit.specs.Stands.{Stands};
ghost use Rattle.lat_circuit.specs.Steps.{Keeps};

use crate::circuit::Circuit;
use lat_session::{SessionCall, SessionFault};

impl Circuit {
    /// Takes the first bytes, as many as there is room for: 4,096 items wait to be framed at most. `Closed` exactly where the
    /// session is neither calling nor live, or `close` was called.
    pub fn put(&mut self, id: u8, bytes: &[u8]) -> Result<usize, SessionFault>
        requires lives { self.old.ended ≡ None }
        ensures answer { (e : End) →
            Stands self.old e →
            result ≡ (if put_open (named e.half.sessions id)
            then Ok (put_count (named e.half.sessions id) (length bytes.now))
            else Err SessionFault.Closed) }
        ensures most { IfOk result (λ n. n ≤ length bytes.now) }
        ensures state { (e : End) → Stands self.old e →
            Stands self.new (note_empty e (still (call_end (Put id bytes.now) e))).end }
        ensures keeps { Keeps self.old self.new }
        ensures ended { self.new.ended ≡ self.old.ended }
    {
        self.call_session(id, &SessionCall::Put(bytes))
    }

    /// Takes a setting. `Closed` where `put` is, else `Full` exactly where 4,096 items wait to be framed.
    pub fn set(&mut self, id: u8, setting: [u8; 5]) -> Result<(), SessionFault>
        requires lives { self.old.ended ≡ None }
        ensures answer { (e : End) →
            Stands self.old e →
            result ≡ (if put_open (named e.half.sessions id)
            then (if nat_lt (length (unframed (named e.half.sessions id))) 4096 then Ok tt
            else Err SessionFault.Full)
            else Err SessionFault.Closed) }
        ensures state { (e : End) → Stands self.old e →
            Stands self.new (note_empty e (still (call_end (Set id setting) e))).end }
        ensures keeps { Keeps self.old self.new }
        ensures ended { self.new.ended ≡ self.old.ended }
    {
        self.call_session(id, &SessionCall::Set(setting))
            .map(|_| ())
    }

    /// Takes an attention, which goes out before all items, in place of one that still waits. `Closed` where `put` is.
    pub fn attend(&mut self, id: u8, flag: u8) -> Result<(), SessionFault>
        requires lives { self.old.ended ≡ None }
        ensures answer { (e : End) →
            Stands self.old e →
            result ≡ (if put_open (named e.half.sessions id) then Ok tt
            else Err SessionFault.Closed) }
        ensures state { (e : End) → Stands self.old e →
            Stands self.new (note_empty e (still (call_end (Attend id flag) e))).end }
        ensures keeps { Keeps self.old self.new }
        ensures ended { self.new.ended ≡ self.old.ended }
    {
        self.call_session(id, &SessionCall::Attend(flag))
            .map(|_| ())
    }

    /// Closes the session: what it heard is dropped, and its stop goes out behind its items. `Closed` where `take` is.
    pub fn close(&mut self, id: u8) -> Result<(), SessionFault>
        requires lives { self.old.ended ≡ None }
        ensures answer { (e : End) →
            Stands self.old e →
            result ≡ (if take_open (named e.half.sessions id) then Ok tt
            else Err SessionFault.Closed) }
        ensures state { (e : End) → Stands self.old e →
            Stands self.new (note_empty e (still (call_end (Close id) e))).end }
        ensures keeps { Keeps self.old self.new }
        ensures ended { self.new.ended ≡ self.old.ended }
    {
        self.call_session(id, &SessionCall::Close).map(|_| ())
    }
}
