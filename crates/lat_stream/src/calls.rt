//! The calls of a session's user, and the node's answer to an ask.

ghost use Rattle.std.specs.Prelude.{◌≡◌, ◌+◌, ◌-◌, ◌<◌, ◌≤◌, ◌++◌, [], ◌∷◌, if◌then◌else◌};
ghost use Rattle.std.specs.Prelude.{not, Bool, true, false, ℕ, Result, Ok, Err, Some, map, length, take, drop, min, nat_lt, cond, IfOk, OnOk, OnErr};
ghost use Rattle.lat_base.specs.declared.item.Item.TheVariants as kept_items;
ghost use Rattle.lat_base.specs.declared.state.SessionState.TheVariants as kept_states;
ghost use Rattle.lat_model.specs.sessions.Slots.{Byte, Setting, items};
ghost use Rattle.lat_model.specs.sessions.Session.{Session, put_open, take_open, unframed};
ghost use Rattle.lat_model.specs.sessions.Calls.{put_items, put_count, take_count};
ghost use Rattle.lat_stream.specs.declared.calls.SessionFault.TheVariants.{Full, Closed};
ghost use Rattle.lat_stream.specs.Kept.{stream_of, item_of};
ghost use Rattle.lat_stream.specs.Sound.{Sound};
ghost use Rattle.lat_stream.specs.Steps.{can_take, state_running, rejected_for, took, closed};

use crate::held::{let_go, let_go_all};
use crate::stream::{Stream, UNFRAMED_ITEMS};
use lat_base::{Item, SessionEnd, SessionState};

/// Why a session refuses a call.
#[derive(Clone, Copy)]
pub enum SessionFault {
    /// 4,096 items wait to be framed.
    Full,
    /// It is in no state for this call, or close was called.
    Closed,
}

impl Stream {
    /// Answers an ask: both ends have the session now.
    pub fn answer(&mut self)
        requires { self.old.state ≡ kept_states.Asked }
        ensures { (ceiling : ℕ) (s : Session) → Sound false ceiling s →
            self.old ≡ stream_of false ceiling s →
            self.new ≡ stream_of false ceiling (record s { accepted = true }) }
    {
        self.run();
    }

    // Both ends have the session.
    pub(crate) fn run(&mut self)
        ensures { self.new ≡ record self.old { state = state_running self.old.closed self.old.stop_heard } }
    {
        self.state = if self.closed || self.stop_heard {
            SessionState::Closing
        } else {
            SessionState::Live
        };
    }

    /// Rejects an ask: the session is free.
    pub fn reject(&mut self, reason: u8)
        requires { self.old.state ≡ kept_states.Asked }
        ensures { (ceiling : ℕ) (s : Session) → Sound false ceiling s →
            self.old ≡ stream_of false ceiling s →
            self.new ≡ stream_of false ceiling (record s { rejects = true; reason = reason }) }
    {
        self.end_rejected(reason);
    }

    // It is over, rejected by either end.
    pub(crate) fn end_rejected(&mut self, reason: u8)
        ensures { self.new ≡ rejected_for reason self.old }
    {
        self.state = SessionState::Free;
        self.start = None;
        self.unframed.clear();
        self.end = Some(SessionEnd::Rejected(reason));
    }

    /// Takes as many of the bytes as there is room for, and tells how many. Refused `Closed` where the session is neither
    /// Calling nor Live, and where close was called.
    pub fn put(&mut self, bytes: &[u8]) -> Result<usize, SessionFault>
        ensures answer { (master : Bool) (ceiling : ℕ) (s : Session) →
            Sound master ceiling s → self.old ≡ stream_of master ceiling s →
            result ≡ (if put_open s then Ok (put_count s (length bytes.now)) else Err Closed) }
        ensures state { (master : Bool) (ceiling : ℕ) (s : Session) →
            Sound master ceiling s → self.old ≡ stream_of master ceiling s →
            self.new ≡ (if put_open s
            then stream_of master ceiling (put_items s
            (map Byte (take (put_count s (length bytes.now)) bytes.now)))
            else self.old) }
        ensures most { IfOk result (λ n. n ≤ length bytes.now) }
    {
        if !self.takes_items() {
            return Err(SessionFault::Closed);
        }
        Ok(self.add_bytes(bytes))
    }

    fn add_bytes(&mut self, bytes: &[u8]) -> usize
        ensures count { result ≡ min (length bytes.now) (4096 - length self.old.unframed) }
        ensures value { self.new ≡ record self.old {
          unframed = self.old.unframed
              ++ map kept_items.Byte (take result bytes.now);
        } }
    {
        self.unframed.push_bytes(bytes)
    }

    /// Takes a setting. Refused `Closed` where `put` is, else `Full` where 4,096 items wait to be framed.
    pub fn set(&mut self, setting: [u8; 5]) -> Result<(), SessionFault>
        ensures answer { (master : Bool) (ceiling : ℕ) (s : Session) →
            Sound master ceiling s → self.old ≡ stream_of master ceiling s →
            result ≡ (if put_open s
            then (if nat_lt (length (unframed s)) 4096 then Ok tt else Err Full)
            else Err Closed) }
        ensures state { (master : Bool) (ceiling : ℕ) (s : Session) →
            Sound master ceiling s → self.old ≡ stream_of master ceiling s →
            OnOk result (self.new ≡ stream_of master ceiling (put_items s (Setting setting ∷ []))) }
        ensures err { OnErr result (self.new ≡ self.old) }
    {
        if !self.takes_items() {
            return Err(SessionFault::Closed);
        }
        if self.is_full() {
            return Err(SessionFault::Full);
        }
        self.add_setting(setting);
        Ok(())
    }

    fn is_full(&self) -> bool
        ensures { result ≡ not (nat_lt (length self.now.unframed) 4096) }
    {
        self.unframed.len() >= UNFRAMED_ITEMS
    }

    fn add_setting(&mut self, setting: [u8; 5])
        requires { length self.old.unframed < 4096 }
        ensures { self.new ≡ record self.old {
          unframed = self.old.unframed
              ++ kept_items.Set setting ∷ [];
        } }
    {
        self.unframed.push_setting(setting);
    }

    /// Asks for an attention with this flag, in place of one that still waits. Refused `Closed` where `put` is.
    pub fn attend(&mut self, flag: u8) -> Result<(), SessionFault>
        ensures answer { (master : Bool) (ceiling : ℕ) (s : Session) →
            Sound master ceiling s → self.old ≡ stream_of master ceiling s →
            result ≡ (if put_open s then Ok tt else Err Closed) }
        ensures state { (master : Bool) (ceiling : ℕ) (s : Session) →
            self.old ≡ stream_of master ceiling s →
            OnOk result (self.new ≡ stream_of master ceiling (record s { attention = Some flag })) }
        ensures err { OnErr result (self.new ≡ self.old) }
    {
        if !self.takes_items() {
            return Err(SessionFault::Closed);
        }
        self.attention = Some(flag);
        Ok(())
    }

    /// Gives heard items, as many as there are and as `out` has places, and tells how many. The places behind them stay as
    /// they were. Refused `Closed` in the states Free and Asked, and where close was called.
    pub fn take(&mut self, out: &mut [Item]) -> Result<usize, SessionFault>
        ensures answer { (master : Bool) (ceiling : ℕ) (s : Session) →
            Sound master ceiling s → self.old ≡ stream_of master ceiling s →
            result ≡ (if take_open s then Ok (take_count s (length out.old)) else Err Closed) }
        ensures state { (master : Bool) (ceiling : ℕ) (s : Session) →
            Sound master ceiling s → self.old ≡ stream_of master ceiling s →
            self.new ≡ (if take_open s
            then stream_of master ceiling (record s { taken = s.taken + take_count s (length out.old) })
            else self.old) }
        ensures items { (master : Bool) (ceiling : ℕ) (s : Session) →
            Sound master ceiling s → self.old ≡ stream_of master ceiling s →
            out.new ≡ (if take_open s
            then map item_of (take (take_count s (length out.old)) (drop s.taken (items s.came)))
            ++ drop (take_count s (length out.old)) out.old
            else out.old) }
        ensures count { IfOk result (λ n.
            n ≡ min (length out.old) (cond (can_take self.old) (length self.old.heard) 0)) }
        ensures most { IfOk result (λ n. n ≤ length out.old) }
        ensures places { length out.new ≡ length out.old }
    {
        if !self.gives_items() {
            return Err(SessionFault::Closed);
        }
        Ok(self.give(out))
    }

    fn give(&mut self, out: &mut [Item]) -> usize
        ensures count { result ≡ min (length out.old) (length self.old.heard) }
        ensures items { out.new ≡ take result self.old.heard ++ drop result out.old }
        ensures value { self.new ≡ took result self.old }
    {
        let count = self.heard.read_into(out);
        let_go(&mut self.held, &mut self.credits, count);
        self.end_if_done();
        count
    }

    /// Closes it: heard items are dropped, and those that were put still go out. Refused `Closed` where `take` is.
    pub fn close(&mut self) -> Result<(), SessionFault>
        ensures answer { (master : Bool) (ceiling : ℕ) (s : Session) →
            Sound master ceiling s → self.old ≡ stream_of master ceiling s →
            result ≡ (if take_open s then Ok tt else Err Closed) }
        ensures state { (master : Bool) (ceiling : ℕ) (s : Session) →
            Sound master ceiling s → self.old ≡ stream_of master ceiling s →
            OnOk result (self.new ≡ stream_of master ceiling (record s { closed = true })) }
        ensures err { OnErr result (self.new ≡ self.old) }
    {
        if !self.gives_items() {
            return Err(SessionFault::Closed);
        }
        self.drop_heard();
        Ok(())
    }

    fn drop_heard(&mut self)
        ensures { self.new ≡ closed self.old }
    {
        self.closed = true;
        if self.state == SessionState::Live {
            self.state = SessionState::Closing;
        }
        self.heard.clear();
        let_go_all(&mut self.held, &mut self.credits);
        self.end_if_done();
    }
}
