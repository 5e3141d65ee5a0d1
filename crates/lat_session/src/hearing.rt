//! The slots that the peer's sessions send. It takes no memory.

ghost use Rattle.std.specs.Prelude.{◌≡◌, ◌+◌, ◌≤◌, ◌<◌, ◌++◌, ◌∷◌, [], ◌&&◌};
ghost use Rattle.std.specs.Prelude.{true, false, ℕ, List, Option, Some, None, MatchOption, IfSome, OnErr, not, length, nat_lt};
ghost use Rattle.std.specs.List.{list_any};
ghost use Rattle.std.specs.Option.{is_some};
ghost use Rattle.lat_model.specs.Lists.{any_up_to};
ghost use Rattle.lat_model.specs.sessions.Hearing.{hear_slot, hear_behind, ask_in, names_running};
ghost use Rattle.lat_model.specs.sessions.Session.{waits};
ghost use Rattle.lat_model.specs.sessions.Sessions.{Sessions as States, named};
ghost use Rattle.lat_model.specs.sessions.Slots as sessions;
ghost use Rattle.lat_slots.specs.Layout.{IsWritable};
ghost use Rattle.lat_stream.specs.Wire.{slot_heard};
ghost use Rattle.lat_session.specs.Hears.{Hears, has_peer, rejects_peer, is_calling};
ghost use Rattle.lat_session.specs.Stands.{Stands};
ghost use Rattle.lat_session.specs.Table.{SameEnd, state_at, table_of, reason_of};

use crate::ask::Ask;
use crate::table::{OPEN_ASKS, Sessions};
use lat_base::SessionState;
use lat_slots::{RejectReason, Slot};
use lat_stream::{BadSlot, Opening, Stream, request_of};

impl Sessions {
    /// Hears a slot of a message. One that is bad is refused, and nothing has changed then: its message isn't taken, and its
    /// circuit breaks. See "Bad slots" in docs/PROTOCOL.md.
    pub fn heard_slot(&mut self, slot: &Slot) -> Result<(), BadSlot>
        requires { IsWritable slot.now }
        ensures hears { (e : States) → Stands self.old e →
            Hears self.new result (hear_slot e (slot_heard slot.now)) }
        ensures err { OnErr result (self.new ≡ self.old) }
        ensures same { SameEnd self.old self.new }
    {
        match slot {
            Slot::Start {
                to,
                from,
                credits,
                size,
                service,
                params,
                ..
            } => {
                let opening = Opening {
                    service: *service,
                    request: request_of(params),
                };
                self.hear_start(*to, *from, *credits, *size, opening)
            }
            Slot::DataA {
                to,
                from,
                credits,
                bytes,
            } => self.hear_bytes(*to, *from, *credits, bytes.as_slice()),
            Slot::DataB {
                to,
                from,
                credits,
                flag,
                chars,
            } => self.hear_setting(*to, *from, *credits, setting_of(*flag, chars)),
            Slot::Attention { to, from, flag } => self.hear_attention(*to, *from, *flag),
            Slot::Reject { to, reason, .. } => self.hear_reject(*to, *reason),
            Slot::Stop { to, from, .. } => self.hear_stop(*to, *from),
        }
    }

    // A start with the destination 0 asks for a session, another one replies.
    fn hear_start(
        &mut self,
        to: u8,
        from: u8,
        credits: u8,
        size: u8,
        opening: Opening,
    ) -> Result<(), BadSlot>
        requires { (1 ≤ from) × (credits ≤ 15) }
        ensures hears { (e : States) →
            Stands self.old e →
            Hears self.new result (hear_slot e
            (sessions.Start to from credits size opening.service opening.request)) }
        ensures err { OnErr result (self.new ≡ self.old) }
        ensures same { SameEnd self.old self.new }
    {
        if to == 0 {
            return self.hear_ask(from, credits, size, opening);
        }
        self.hear_reply(to, from, credits, size)
    }

    // Data, attentions and stops go to the session that they name, which tells whether they are bad.
    fn hear_bytes(&mut self, to: u8, from: u8, credits: u8, bytes: &[u8]) -> Result<(), BadSlot>
        requires { length bytes.now ≤ 255 }
        ensures hears { (e : States) →
            Stands self.old e →
            Hears self.new result (hear_behind e (sessions.DataA to from credits bytes.now)) }
        ensures err { OnErr result (self.new ≡ self.old) }
        ensures same { SameEnd self.old self.new }
    {
        let at = self.place(to).ok_or(BadSlot)?;
        let session = self.sessions.reach(at);
        session.hear_bytes(from, credits, bytes)
    }

    fn hear_setting(
        &mut self,
        to: u8,
        from: u8,
        credits: u8,
        setting: [u8; 5],
    ) -> Result<(), BadSlot>
        ensures hears { (e : States) →
            Stands self.old e →
            Hears self.new result (hear_behind e (sessions.DataB to from credits setting)) }
        ensures err { OnErr result (self.new ≡ self.old) }
        ensures same { SameEnd self.old self.new }
    {
        let at = self.place(to).ok_or(BadSlot)?;
        let session = self.sessions.reach(at);
        session.hear_setting(from, credits, setting)
    }

    fn hear_attention(&mut self, to: u8, from: u8, flag: u8) -> Result<(), BadSlot>
        ensures hears { (e : States) →
            Stands self.old e →
            Hears self.new result (hear_behind e (sessions.Attention to from flag)) }
        ensures err { OnErr result (self.new ≡ self.old) }
        ensures same { SameEnd self.old self.new }
    {
        let at = self.place(to).ok_or(BadSlot)?;
        let session = self.sessions.reach(at);
        session.hear_attention(from, flag)
    }

    fn hear_stop(&mut self, to: u8, from: u8) -> Result<(), BadSlot>
        ensures hears { (e : States) (reason : ℕ) →
            Stands self.old e →
            Hears self.new result (hear_behind e (sessions.Stop to from reason)) }
        ensures err { OnErr result (self.new ≡ self.old) }
        ensures same { SameEnd self.old self.new }
    {
        let at = self.place(to).ok_or(BadSlot)?;
        let session = self.sessions.reach(at);
        session.hear_stop(from)
    }

    // A session that is neither free nor left has this peer's id.
    fn has_peer(&self, from: u8) -> bool
        ensures { result ≡ list_any (has_peer from) self.now.sessions }
    {
        let mut reached = self.sessions.reached().iter();
        reached.any(|session| has_peer(session, from))
    }

    // A reject for this peer's id waits.
    fn rejects_peer(&self, from: u8) -> bool
        ensures { result ≡ list_any (rejects_peer from) self.now.asks }
    {
        self.asks.iter().any(|ask| rejects_peer(*ask, from))
    }

    // A reply start: a Calling session hears it, where no other session that is there has the peer's id `from`.
    fn hear_reply(&mut self, to: u8, from: u8, credits: u8, size: u8) -> Result<(), BadSlot>
        requires { (1 ≤ to) × (1 ≤ from) × (credits ≤ 15) }
        ensures hears { (e : States) (service : List ℕ) (request : Option ℕ) →
            Stands self.old e →
            Hears self.new result (hear_slot e
            (sessions.Start to from credits size service request)) }
        ensures err { OnErr result (self.new ≡ self.old) }
        ensures same { SameEnd self.old self.new }
    {
        let at = self.replied_place(to, from).ok_or(BadSlot)?;
        let session = self.sessions.reach(at);
        session.hear_start(from, credits, size)
    }

    // Where the Calling session of an id stands, and no session that is there has the peer's id `from`.
    fn replied_place(&self, to: u8, from: u8) -> Option<usize>
        requires { 1 ≤ from }
        ensures place { IfSome result (λ i.
            (i + 1 ≡ to)
            × (i < length self.now.sessions)
            × (is_calling (state_at self.now to) ≡ true)) }
        ensures model { (e : States) →
            Stands self.now e →
            is_some result ≡ (e.master && waits (named e to)
            && not (any_up_to (λ k. names_running from (e.session k)) e.made)) }
    {
        if self.has_peer(from) {
            None
        } else {
            self.calling_place(to)
        }
    }

    // A reject of the session that was asked for, which is Calling.
    fn hear_reject(&mut self, to: u8, reason: u8) -> Result<(), BadSlot>
        ensures hears { (e : States) (from : ℕ) →
            Stands self.old e →
            Hears self.new result (hear_slot e (sessions.Reject to from reason)) }
        ensures err { OnErr result (self.new ≡ self.old) }
        ensures same { SameEnd self.old self.new }
    {
        let at = self.calling_place(to).ok_or(BadSlot)?;
        let session = self.sessions.reach(at);
        session.hear_reject(reason);
        Ok(())
    }

    // Where the Calling session of an id stands.
    fn calling_place(&self, id: u8) -> Option<usize>
        ensures place { MatchOption result (is_calling (state_at self.now id) ≡ false) (λ i.
            (i + 1 ≡ id)
            × (i < length self.now.sessions)
            × (is_calling (state_at self.now id) ≡ true)) }
        ensures model { (e : States) → Stands self.now e →
            is_some result ≡ (e.master && waits (named e id)) }
    {
        let at = self.place(id)?;
        if is_calling(&self.sessions[at]) {
            Some(at)
        } else {
            None
        }
    }

    // An ask, from the peer's id `from`: at a slave, where no session that is there has this id and no reject for it waits.
    fn hear_ask(&mut self, from: u8, credits: u8, size: u8, opening: Opening) -> Result<(), BadSlot>
        requires { (1 ≤ from) × (credits ≤ 15) }
        ensures hears { (e : States) →
            Stands self.old e →
            Hears self.new result (hear_slot e
            (sessions.Start 0 from credits size opening.service opening.request)) }
        ensures err { OnErr result (self.new ≡ self.old) }
        ensures same { SameEnd self.old self.new }
    {
        if self.master || self.has_peer(from) || self.rejects_peer(from) || !self.has_ask_room() {
            return Err(BadSlot);
        }
        let ask = self.open_ask(from, credits, size, opening);
        self.asks.push_reserved(ask);
        Ok(())
    }

    // There is always room where an ask isn't bad: each open ask has another source.
    fn has_ask_room(&self) -> bool
        ensures { result ≡ nat_lt (length self.now.asks) 255 }
    {
        self.asks.len() < OPEN_ASKS
    }

    // The session of an ask under the least free id, or the reject of an ask that finds the agreed number held.
    fn open_ask(&mut self, from: u8, credits: u8, size: u8, opening: Opening) -> Ask
        requires { credits ≤ 15 }
        ensures opened { (e : States) → Stands self.old e → e.master ≡ false →
            record self.new { asks = self.new.asks ++ result ∷ [] }
            ≡ table_of (length self.old.sessions)
            (ask_in e (sessions.Start 0 from credits size opening.service opening.request) opening.service opening.request) }
        ensures asks { self.new.asks ≡ self.old.asks }
        ensures reason { reason_of result ≤ 15 }
        ensures same { SameEnd self.old self.new }
    {
        match self.free_place() {
            Some(at) => {
                let session = self.sessions.reach(at);
                session.ask(from, credits, size, opening);
                Ask::Waits(at as u8 + 1)
            }
            None => Ask::Rejected {
                peer: from,
                reason: RejectReason::NoRoom.bits(),
            },
        }
    }
}

fn is_calling(session: &Stream) -> bool
    ensures { result ≡ is_calling session.now.state }
{
    matches!(session.state(), SessionState::Calling)
}

fn has_peer(session: &Stream, from: u8) -> bool
    ensures { result ≡ has_peer from session.now }
{
    !matches!(session.state(), SessionState::Free | SessionState::Left) && session.peer() == from
}

fn rejects_peer(ask: Ask, from: u8) -> bool
    ensures { result ≡ rejects_peer from ask }
{
    match ask {
        Ask::Waits(_) => false,
        Ask::Rejected { peer, .. } => peer == from,
    }
}

fn setting_of(flag: u8, chars: &[u8; 4]) -> [u8; 5]
    ensures { result ≡ flag ∷ chars.now }
{
    [flag, chars[0], chars[1], chars[2], chars[3]]
}
