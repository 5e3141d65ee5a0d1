//! The slots that a session forms.

ghost use Rattle.std.specs.Prelude.{◌≡◌, ◌≢◌, ℕ, List, ◌+◌, ◌<◌, ◌≤◌, true, false, ◌++◌, ◌||◌, ◌&&◌, length, take, drop, min, nat_lt, None};
ghost use Rattle.lat_base.specs.Names.{IsName};
ghost use Rattle.lat_base.specs.declared.state.SessionState.TheVariants as states;
ghost use Rattle.lat_model.specs.Lists.{is_empty};
ghost use Rattle.lat_model.specs.sessions.Offers as offers;
ghost use Rattle.lat_model.specs.sessions.Slots as sessions;
ghost use Rattle.lat_model.specs.sessions.Session.{Session, peer};
ghost use Rattle.lat_stream.specs.declared.forming.Turn.TheVariants as turns;
ghost use Rattle.lat_stream.specs.declared.opening.Opening.{Opening};
ghost use Rattle.lat_stream.specs.FormsOffer.{FormsOffer, reject_due};
ghost use Rattle.lat_stream.specs.Kept.{stream_of};
ghost use Rattle.lat_stream.specs.Sound.{Sound};
ghost use Rattle.lat_stream.specs.Wire.{IsFormed};
ghost use Rattle.lat_stream.specs.Turns.{Meets, turn_of, later_turn, data_turn, offer_at, start_slot, bytes_offer, credits_offer, kept_after};
ghost use Rattle.lat_stream.specs.Turns.{spends, over, due, gave, framed, stopped, next_bytes};

use crate::opening::Opening;
use crate::stream::Stream;
use crate::write::{
    start_len, write_attention, write_credits, write_setting, write_start, write_stop,
};
use lat_base::{Item, Payload, SessionEnd, SessionState};
use lat_slots::{SlotKind, write_slot_head, write_slot_pad};

/// What became of a session's turn in a message.
#[derive(Clone, Copy)]
pub enum Formed {
    /// It has nothing to send.
    Nothing,
    /// What it has to send doesn't fit into the room.
    Unfit,
    /// It formed one slot.
    Slot,
}

/// What a session sends at its turn.
#[derive(Clone, Copy)]
pub enum Turn {
    Nothing,
    Start(Opening),
    Attention(u8),
    Stop,
    Setting([u8; 5]),
    /// The bytes that stand next.
    Bytes,
    /// Credits alone, where one is due.
    Credits,
}

impl Stream {
    /// Forms the slot that the session sends when its turn in a message comes, and adds its text to the payload, where it
    /// fits into `room` bytes; nothing changes where it doesn't, or where the session has nothing to send. `id` is this
    /// end's id of the session. A waiting reject is formed elsewhere. See "Packing" in docs/PROTOCOL.md.
    pub fn form(&mut self, master: bool, id: u8, room: u16, out: &mut Payload) -> Formed
        requires { length out.old + room ≤ 1500 }
        ensures does { (ceiling : ℕ) (s : Session) → Sound master ceiling s →
            self.old ≡ stream_of master ceiling s →
            s.id ≡ id → reject_due s ≡ false →
            FormsOffer master ceiling s (offers.offer master ceiling room s) self.old self.new out.old out.new result }
        ensures len { (ceiling : ℕ) (s : Session) (x : sessions.Slot) →
            Sound master ceiling s → self.old ≡ stream_of master ceiling s →
            s.id ≡ id → reject_due s ≡ false →
            offers.offer master ceiling room s ≡ offers.Offers x →
            length out.new ≡ length out.old + sessions.slot_len x }
        ensures formed { (ceiling : ℕ) (s : Session) (x : sessions.Slot) →
            Sound master ceiling s → (sessions.starts s.came ≡ true → peer s ≢ 0) →
            self.old ≡ stream_of master ceiling s →
            reject_due s ≡ false → offers.offer master ceiling room s ≡ offers.Offers x →
            IsFormed x }
        ensures room { (length out.old ≤ length out.new)
            × (length out.new ≤ length out.old + room) }
    {
        self.form_turn(master, id, room, out)
    }

    fn form_turn(&mut self, master: bool, id: u8, room: u16, out: &mut Payload) -> Formed
        requires { length out.old + room ≤ 1500 }
        ensures meets { Meets
            (offer_at master id room self.old (turn_of self.old))
            (kept_after room self.old (turn_of self.old))
            self.old self.new out.old out.new result }
        ensures room { (length out.old ≤ length out.new)
            × (length out.new ≤ length out.old + room) }
        ensures whole { (t : List ℕ) → turn_of self.old ≡ turns.Setting t → length t ≡ 5 }
        ensures named { (opening : Opening) → turn_of self.old ≡ turns.Start opening →
            IsName opening.service }
        ensures most { self.old.credits.ceiling ≤ 15 }
    {
        match self.turn() {
            Turn::Nothing => Formed::Nothing,
            Turn::Start(opening) => self.form_start(master, id, &opening, room, out),
            Turn::Attention(flag) => self.form_attention(id, flag, room, out),
            Turn::Stop => self.form_stop(id, room, out),
            Turn::Setting(setting) => self.form_setting(id, &setting, room, out),
            Turn::Bytes => self.form_bytes(id, room, out),
            Turn::Credits => self.form_credits(id, room, out),
        }
    }

    // What it sends next.
    fn turn(&self) -> Turn
        ensures value { result ≡ turn_of self.now }
        ensures most { self.now.credits.ceiling ≤ 15 }
        ensures start { (opening : Opening) → result ≡ turns.Start opening →
            self.now.state ≢ states.Asked }
        ensures unused { spends result ≡ true → 0 < self.now.credits.unused }
    {
        match (self.state, self.start) {
            (SessionState::Calling | SessionState::Live | SessionState::Closing, Some(opening)) =>
                Turn::Start(opening),
            (SessionState::Live | SessionState::Closing, None) => self.later_turn(),
            _ => Turn::Nothing,
        }
    }

    // What stands behind its start, until its stop was formed.
    fn later_turn(&self) -> Turn
        ensures value { result ≡ later_turn self.now }
        ensures unused { spends result ≡ true → 0 < self.now.credits.unused }
    {
        if self.stop_formed {
            return Turn::Nothing;
        }
        match self.attention {
            Some(flag) => Turn::Attention(flag),
            None if self.stop_is_due() => Turn::Stop,
            None => self.data_turn(),
        }
    }

    fn stop_is_due(&self) -> bool
        ensures { result ≡ (self.now.stop_heard
            || (self.now.closed && is_empty self.now.unframed)) }
    {
        self.stop_heard || self.closed && self.unframed.is_empty()
    }

    fn data_turn(&self) -> Turn
        ensures value { result ≡ data_turn (nat_lt 0 self.now.credits.unused) self.now.unframed }
        ensures unused { spends result ≡ true → 0 < self.now.credits.unused }
    {
        let may_spend = self.credits.has_unused();
        match self.unframed.front() {
            Some(Item::Byte(_)) if may_spend => Turn::Bytes,
            Some(Item::Set(setting)) if may_spend => Turn::Setting(setting),
            _ => Turn::Credits,
        }
    }

    // Gives the credits due, and tells how many.
    fn give_due(&mut self) -> u8
        ensures value { result ≡ due self.old }
        ensures most { result ≤ 15 }
        ensures kept { self.new ≡ gave self.old }
    {
        let due = self.credits.give();
        self.given = self.given.saturating_add(u64::from(due));
        due
    }

    // Forms a start, with the credits due: an ask of the master, a reply of the slave.
    fn form_start(
        &mut self,
        master: bool,
        id: u8,
        opening: &Opening,
        room: u16,
        out: &mut Payload,
    ) -> Formed
        requires room { length out.old + room ≤ 1500 }
        requires answered { self.old.state ≢ states.Asked }
        ensures meets { Meets
            (offers.fit room (start_slot master id self.old opening.now))
            (record (gave self.old) { start = None })
            self.old self.new out.old out.new result }
        ensures named { IsName opening.now.service }
        ensures room { (length out.old ≤ length out.new)
            × (length out.new ≤ length out.old + room) }
    {
        let to = if master { 0 } else { self.peer };
        let request = if master { opening.request } else { None };
        if start_len(&opening.service, request) > room {
            return Formed::Unfit;
        }
        let credits = self.give_due();
        self.start = None;
        write_start(out, to, id, credits, &opening.service, request);
        Formed::Slot
    }

    fn form_attention(&mut self, id: u8, flag: u8, room: u16, out: &mut Payload) -> Formed
        requires { length out.old + room ≤ 1500 }
        ensures meets { Meets
            (offers.fit room (sessions.Attention self.old.peer id flag))
            (record self.old { attention = None })
            self.old self.new out.old out.new result }
        ensures room { (length out.old ≤ length out.new)
            × (length out.new ≤ length out.old + room) }
    {
        if room < 6 {
            return Formed::Unfit;
        }
        self.attention = None;
        write_attention(out, self.peer, id, flag);
        Formed::Slot
    }

    // Both stops were formed and heard: it is over, or left until its heard items are taken.
    fn leave(&mut self)
        ensures { self.new ≡ over self.old }
    {
        if self.heard.is_empty() {
            self.state = SessionState::Free;
            self.end = Some(SessionEnd::Closed);
        } else {
            self.state = SessionState::Left;
        }
    }

    fn form_stop(&mut self, id: u8, room: u16, out: &mut Payload) -> Formed
        requires { length out.old + room ≤ 1500 }
        ensures meets { Meets
            (offers.fit room (sessions.Stop self.old.peer id 1))
            (stopped self.old)
            self.old self.new out.old out.new result }
        ensures room { (length out.old ≤ length out.new)
            × (length out.new ≤ length out.old + room) }
    {
        if room < 4 {
            return Formed::Unfit;
        }
        self.stop_formed = true;
        if self.stop_heard {
            self.leave();
        }
        write_stop(out, self.peer, id);
        Formed::Slot
    }

    // Counts a slot with items: a credit is used, of those that are left.
    fn spend(&mut self)
        requires { 0 < self.old.credits.unused }
        ensures { self.new ≡ framed 0 self.old }
    {
        let Ok(()) = self.credits.spend() else {
            unreachable!()
        };
        self.used = self.used.saturating_add(1);
    }

    // Forms the setting that stands next, with the credits due.
    fn form_setting(&mut self, id: u8, setting: &[u8; 5], room: u16, out: &mut Payload) -> Formed
        requires room { length out.old + room ≤ 1500 }
        requires unused { 0 < self.old.credits.unused }
        ensures meets { Meets
            (offers.fit room (sessions.DataB self.old.peer id (due self.old) setting.now))
            (framed 1 (gave self.old))
            self.old self.new out.old out.new result }
        ensures room { (length out.old ≤ length out.new)
            × (length out.new ≤ length out.old + room) }
    {
        if room < 10 {
            return Formed::Unfit;
        }
        let credits = self.give_due();
        self.spend();
        self.unframed.drop_first(1);
        write_setting(out, self.peer, id, credits, setting);
        Formed::Slot
    }

    // Forms as many of the bytes that stand next as one slot takes, with the credits due. Where the room cuts them to
    // none they don't fit.
    fn form_bytes(&mut self, id: u8, room: u16, out: &mut Payload) -> Formed
        requires room { length out.old + room ≤ 1500 }
        requires unused { 0 < self.old.credits.unused }
        ensures meets { Meets
            (bytes_offer id self.old (next_bytes room self.old))
            (framed (length (next_bytes room self.old)) (gave self.old))
            self.old self.new out.old out.new result }
        ensures room { (length out.old ≤ length out.new)
            × (length out.new ≤ length out.old + room) }
    {
        let count = self.unframed.leading(most_bytes(self.size, room));
        if count == 0 {
            return Formed::Unfit;
        }
        let credits = self.give_due();
        self.spend();
        write_slot_head(out, self.peer, id, count, SlotKind::DataA, credits);
        self.unframed.move_bytes(count, out);
        write_slot_pad(out, count);
        Formed::Slot
    }

    // Forms credits alone, where one is due.
    fn form_credits(&mut self, id: u8, room: u16, out: &mut Payload) -> Formed
        requires { length out.old + room ≤ 1500 }
        ensures meets { Meets (credits_offer id room self.old)
            (gave self.old) self.old self.new out.old out.new result }
        ensures room { (length out.old ≤ length out.new)
            × (length out.new ≤ length out.old + room) }
    {
        if self.credits.due() == 0 {
            return Formed::Nothing;
        }
        if room < 4 {
            return Formed::Unfit;
        }
        let credits = self.give_due();
        write_credits(out, self.peer, id, credits);
        Formed::Slot
    }
}

// The most bytes that one slot takes: what the peer's start states, cut to the room so that the slot fits with its pad.
fn most_bytes(size: u8, room: u16) -> u8
    ensures { result ≡ min (min 255 size) (offers.byte_room room) }
{
    let space = room.saturating_sub(4);
    u16::from(size).min(space - space % 2) as u8
}
