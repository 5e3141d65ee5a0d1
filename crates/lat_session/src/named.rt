//! The calls of a session's user by their names: each is `call` with one `SessionCall`.

ghost use Rattle.std.specs.Prelude.{◌≡◌, ◌≤◌, length, nat_lt, Ok, Err, IfOk, if◌then◌else◌};
ghost use Rattle.lat_model.specs.sessions.Calls.{call as called, put_count, Put, Set, Attend, Close};
ghost use Rattle.lat_model.specs.sessions.Session.{put_open, take_open, unframed};
ghost use Rattle.lat_model.specs.sessions.Sessions.{Sessions as States, named};
ghost use Rattle.lat_session.specs.Stands.{Stands};
ghost use Rattle.lat_session.specs.Table.{SameEnd};

use crate::call::SessionCall;
use crate::table::Sessions;
use lat_stream::SessionFault;

impl Sessions {
    /// See `SessionCall::Put`.
    pub fn put(&mut self, id: u8, bytes: &[u8]) -> Result<usize, SessionFault>
        ensures answer { (e : States) →
            Stands self.old e →
            result ≡ (if put_open (named e id) then Ok (put_count (named e id) (length bytes.now))
            else Err SessionFault.Closed) }
        ensures state { (e : States) → Stands self.old e →
            Stands self.new (called e (Put id bytes.now)) }
        ensures same { SameEnd self.old self.new }
        ensures most { IfOk result (λ n. n ≤ length bytes.now) }
    {
        self.call(id, &SessionCall::Put(bytes))
    }

    /// See `SessionCall::Set`.
    pub fn set(&mut self, id: u8, setting: [u8; 5]) -> Result<(), SessionFault>
        ensures answer { (e : States) →
            Stands self.old e →
            result ≡ (if put_open (named e id)
            then (if nat_lt (length (unframed (named e id))) 4096 then Ok tt
            else Err SessionFault.Full)
            else Err SessionFault.Closed) }
        ensures state { (e : States) → Stands self.old e →
            Stands self.new (called e (Set id setting)) }
        ensures same { SameEnd self.old self.new }
    {
        self.call(id, &SessionCall::Set(setting)).map(|_| ())
    }

    /// See `SessionCall::Attend`.
    pub fn attend(&mut self, id: u8, flag: u8) -> Result<(), SessionFault>
        ensures answer { (e : States) →
            Stands self.old e →
            result ≡ (if put_open (named e id) then Ok tt else Err SessionFault.Closed) }
        ensures state { (e : States) → Stands self.old e →
            Stands self.new (called e (Attend id flag)) }
        ensures same { SameEnd self.old self.new }
    {
        self.call(id, &SessionCall::Attend(flag)).map(|_| ())
    }

    /// See `SessionCall::Close`.
    pub fn close(&mut self, id: u8) -> Result<(), SessionFault>
        ensures answer { (e : States) →
            Stands self.old e →
            result ≡ (if take_open (named e id) then Ok tt else Err SessionFault.Closed) }
        ensures state { (e : States) → Stands self.old e → Stands self.new (called e (Close id)) }
        ensures same { SameEnd self.old self.new }
    {
        self.call(id, &SessionCall::Close).map(|_| ())
    }
}
