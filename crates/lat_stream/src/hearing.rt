//! The slots that a session hears.

ghost use Rattle.std.specs.Prelude.{◌≡◌, ◌+◌, ◌-◌, ◌<◌, ◌≤◌, [], ◌∷◌, ◌&&◌, ◌||◌};
ghost use Rattle.std.specs.Prelude.{Bool, true, ℕ, List, Option, Some, map, length, nat_eq, nat_le, is_ok, OnOk, OnErr};
ghost use Rattle.lat_base.specs.declared.item.Item.TheVariants as kept_items;
ghost use Rattle.lat_base.specs.declared.state.SessionState.TheVariants as kept_states;
ghost use Rattle.lat_model.specs.sessions.Slots as slots;
ghost use Rattle.lat_model.specs.sessions.Session.{Session};
ghost use Rattle.lat_model.specs.sessions.Hearing.{heard, behind_fits};
ghost use Rattle.lat_stream.specs.Kept.{stream_of};
ghost use Rattle.lat_stream.specs.RingItems.{settings_in};
ghost use Rattle.lat_stream.specs.Sound.{Sound};
ghost use Rattle.lat_stream.specs.Steps.{can_hear, can_pay, ended_if_done, held_more, kept_more, granted, silent};
ghost use Rattle.lat_model.specs.Lists.{is_empty};

use crate::stream::Stream;
use lat_base::{SessionEnd, SessionState};
use lat_credit::{NoCredit, TooMany};

/// A slot that breaks its circuit. See "Bad slots" in docs/PROTOCOL.md.
#[derive(Clone, Copy)]
pub struct BadSlot;

impl From<NoCredit> for BadSlot {
    fn from(_e: NoCredit) -> BadSlot {
        BadSlot
    }
}

impl From<TooMany> for BadSlot {
    fn from(_e: TooMany) -> BadSlot {
        BadSlot
    }
}

impl Stream {
    /// A reply start, from the peer's id `from`, at a session of a master that is Calling. `credits`, at most 15, are those
    /// that it gives, `size` is the most bytes of a data slot that the peer takes. A master's session is never refused here:
    /// no credit was granted to it before.
    pub fn hear_start(&mut self, from: u8, credits: u8, size: u8) -> Result<(), BadSlot>
        requires { (self.old.state ≡ kept_states.Calling) × (credits ≤ 15) }
        ensures answer { (ceiling : ℕ) (s : Session) → Sound true ceiling s →
            self.old ≡ stream_of true ceiling s →
            is_ok result ≡ true }
        ensures state { (ceiling : ℕ) (s : Session) (to : ℕ) (service : List ℕ)
            (request : Option ℕ) →
            Sound true ceiling s → self.old ≡ stream_of true ceiling s →
            OnOk result (self.new
            ≡ stream_of true ceiling (heard s
            (slots.Start to from credits size service request))) }
        ensures err { OnErr result (self.new ≡ self.old) }
    {
        self.grant(credits)?;
        self.know(from, size);
        self.run();
        Ok(())
    }

    pub(crate) fn grant(&mut self, credits: u8) -> Result<(), BadSlot>
        ensures answer { is_ok result ≡ nat_le (self.old.credits.unused + credits) 255 }
        ensures state { OnOk result (self.new ≡ granted credits self.old) }
        ensures err { OnErr result (self.new ≡ self.old) }
    {
        self.credits.heard(credits)?;
        Ok(())
    }

    /// A reject, at a session of a master that is Calling.
    pub fn hear_reject(&mut self, reason: u8)
        requires { self.old.state ≡ kept_states.Calling }
        ensures { (ceiling : ℕ) (s : Session) (to from : ℕ) → Sound true ceiling s →
            self.old ≡ stream_of true ceiling s →
            self.new ≡ stream_of true ceiling (heard s (slots.Reject to from reason)) }
    {
        self.end_rejected(reason);
    }

    /// A data slot of at most 255 bytes. Refused exactly where it is bad, and nothing has changed then.
    pub fn hear_bytes(&mut self, from: u8, credits: u8, bytes: &[u8]) -> Result<(), BadSlot>
        requires { length bytes.now ≤ 255 }
        ensures answer { (master : Bool) (ceiling : ℕ) (s : Session) (to : ℕ) →
            Sound master ceiling s → self.old ≡ stream_of master ceiling s →
            is_ok result ≡ behind_fits s (slots.DataA to from credits bytes.now) }
        ensures state { (master : Bool) (ceiling : ℕ) (s : Session) (to : ℕ) →
            Sound master ceiling s → self.old ≡ stream_of master ceiling s →
            OnOk result (self.new
            ≡ stream_of master ceiling (heard s (slots.DataA to from credits bytes.now))) }
        ensures err { OnErr result (self.new ≡ self.old) }
    {
        if !self.hears_from(from) {
            return Err(BadSlot);
        }
        if bytes.is_empty() {
            return self.grant(credits);
        }
        self.pay(credits, bytes.len() as u8)?;
        self.keep_bytes(bytes);
        Ok(())
    }

    /// A data slot with a setting. Refused exactly where it is bad, and nothing has changed then.
    pub fn hear_setting(&mut self, from: u8, credits: u8, setting: [u8; 5]) -> Result<(), BadSlot>
        ensures answer { (master : Bool) (ceiling : ℕ) (s : Session) (to : ℕ) →
            Sound master ceiling s → self.old ≡ stream_of master ceiling s →
            is_ok result ≡ behind_fits s (slots.DataB to from credits setting) }
        ensures state { (master : Bool) (ceiling : ℕ) (s : Session) (to : ℕ) →
            Sound master ceiling s → self.old ≡ stream_of master ceiling s →
            OnOk result (self.new
            ≡ stream_of master ceiling (heard s (slots.DataB to from credits setting))) }
        ensures err { OnErr result (self.new ≡ self.old) }
    {
        if !self.hears_from(from) {
            return Err(BadSlot);
        }
        self.pay(credits, 1)?;
        self.keep_setting(setting);
        Ok(())
    }

    /// An attention, whose flag is the mark now. Refused exactly where it is bad, and nothing has changed then.
    pub fn hear_attention(&mut self, from: u8, flag: u8) -> Result<(), BadSlot>
        ensures answer { (master : Bool) (ceiling : ℕ) (s : Session) (to : ℕ) →
            Sound master ceiling s → self.old ≡ stream_of master ceiling s →
            is_ok result ≡ behind_fits s (slots.Attention to from flag) }
        ensures state { (master : Bool) (ceiling : ℕ) (s : Session) (to : ℕ) →
            Sound master ceiling s → self.old ≡ stream_of master ceiling s →
            OnOk result (self.new
            ≡ stream_of master ceiling (heard s (slots.Attention to from flag))) }
        ensures err { OnErr result (self.new ≡ self.old) }
    {
        if !self.hears_from(from) {
            return Err(BadSlot);
        }
        self.mark = Some(flag);
        Ok(())
    }

    /// A stop, from the peer's id or from 0. Refused exactly where it is bad, and nothing has changed then. Unframed items
    /// are dropped; where the own stop was formed the session is over.
    pub fn hear_stop(&mut self, from: u8) -> Result<(), BadSlot>
        ensures answer { (master : Bool) (ceiling : ℕ) (s : Session) (to reason : ℕ) →
            Sound master ceiling s → self.old ≡ stream_of master ceiling s →
            is_ok result ≡ behind_fits s (slots.Stop to from reason) }
        ensures state { (master : Bool) (ceiling : ℕ) (s : Session) (to reason : ℕ) →
            Sound master ceiling s → self.old ≡ stream_of master ceiling s →
            OnOk result (self.new ≡ stream_of master ceiling (heard s (slots.Stop to from reason))) }
        ensures err { OnErr result (self.new ≡ self.old) }
    {
        if !self.hears_stop_from(from) {
            return Err(BadSlot);
        }
        self.stop_heard = true;
        self.fall_silent();
        Ok(())
    }

    fn hears_from(&self, from: u8) -> bool
        ensures value { result ≡ (can_hear self.now && nat_eq from self.now.peer) }
        ensures most { self.now.credits.ceiling ≤ 15 }
    {
        self.hears() && from == self.peer
    }

    fn hears_stop_from(&self, from: u8) -> bool
        ensures { result ≡ (can_hear self.now && (nat_eq from self.now.peer || nat_eq from 0)) }
    {
        self.hears() && (from == self.peer || from == 0)
    }

    // A slot with so many items: it costs a credit, gives so many, and is held unless the session closed.
    fn pay(&mut self, credits: u8, items: u8) -> Result<(), BadSlot>
        ensures answer { is_ok result ≡ can_pay credits self.old }
        ensures state { OnOk result (self.new ≡ held_more items (granted credits self.old)) }
        ensures err { OnErr result (self.new ≡ self.old) }
    {
        let mut after = self.credits;
        after.slot_in(!self.closed)?;
        after.heard(credits)?;
        self.credits = after;
        if !self.closed {
            self.held.push_back(items);
        }
        Ok(())
    }

    // The items of a slot, which are dropped where the session closed. There is room for those of the slots held.
    fn keep_bytes(&mut self, bytes: &[u8])
        ensures { length self.old.heard + length bytes.now ≤ 3825 →
            self.new ≡ kept_more (map kept_items.Byte bytes.now) self.old }
    {
        if !self.closed {
            self.heard.push_bytes(bytes);
        }
    }

    // A setting, which is dropped where the session closed. There is room for one of each slot held.
    fn keep_setting(&mut self, setting: [u8; 5])
        ensures { length self.old.heard + 1 ≤ 3825 → settings_in self.old.heard < 15 →
            self.new ≡ kept_more (kept_items.Set setting ∷ []) self.old }
    {
        if !self.closed {
            self.heard.push_setting(setting);
        }
    }

    // The peer's stop was heard: what isn't framed is dropped.
    fn fall_silent(&mut self)
        ensures { self.new ≡ silent self.old }
    {
        self.state = if self.stop_formed {
            SessionState::Left
        } else {
            SessionState::Closing
        };
        self.unframed.clear();
        self.end_if_done();
    }

    // A session that is Left is over when no heard item is left.
    pub(crate) fn end_if_done(&mut self)
        ensures { self.new ≡ ended_if_done self.old }
    {
        if self.state == SessionState::Left && self.heard.is_empty() {
            self.state = SessionState::Free;
            self.end = Some(SessionEnd::Closed);
        }
    }
}
