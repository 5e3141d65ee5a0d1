//! The slots of a message. It takes no memory.

ghost use Rattle.std.specs.Prelude.{◌≡◌, ◌+◌, ◌-◌, ◌<◌, ◌≤◌, ◌++◌, ◌&&◌, not, true, false, ℕ, List, cond, map, length, nat_lt, slice_index_or};
ghost use Rattle.std.specs.List.{remove};
ghost use Rattle.lat_model.specs.Lists.{upwards, Each};
ghost use Rattle.lat_model.specs.ends.End.{wire_of};
ghost use Rattle.lat_model.specs.sessions.Packing.{Packing, turn, turn_all, waiting_rejects, pack};
ghost use Rattle.lat_model.specs.sessions.Session.{free};
ghost use Rattle.lat_model.specs.sessions.Sessions.{Sessions as States, named};
ghost use Rattle.lat_model.specs.sessions.Slots as sessions;
ghost use Rattle.lat_slots.specs.Layout.{slot_text};
ghost use Rattle.lat_stream.specs.Kept.{Kept};
ghost use Rattle.lat_stream.specs.Wire.{IsFormed, formed_as};
ghost use Rattle.lat_session.specs.Packed.{Packed, NoRejects, is_held, counted, served_next, open_serials, slots_text};
ghost use Rattle.lat_session.specs.Stands.{Stands};
ghost use Rattle.lat_session.specs.Table.{SameEnd};

use crate::ask::Ask;
use crate::table::Sessions;
use lat_base::{Payload, SessionState};
use lat_slots::{SlotKind, write_slot_head};
use lat_stream::Formed;

/// How many bytes a reject has.
const REJECT_BYTES: u16 = 4;

/// How far the packing of a message has come.
#[derive(Clone, Copy)]
pub(crate) struct Progress {
    /// How many bytes may still be added.
    pub(crate) room: u16,
    /// How many slots were added.
    pub(crate) formed: u8,
    /// A slot didn't fit.
    pub(crate) ended: bool,
}

impl Progress {
    fn goes(&self) -> bool
        ensures { result ≡ (not self.now.ended && nat_lt self.now.formed 255) }
    {
        !self.ended && self.formed < 255
    }

    // What a turn added: so many bytes.
    fn count(&mut self, formed: Formed, bytes: u16)
        requires { (bytes ≤ self.old.room) × (self.old.formed < 255) }
        ensures { self.new ≡ counted formed bytes self.old }
    {
        self.room -= bytes;
        match formed {
            Formed::Nothing => {}
            Formed::Unfit => self.ended = true,
            Formed::Slot => self.formed += 1,
        }
    }
}

// The id served last, after the turn of this one.
fn served_after(formed: Formed, id: u8, served: u8) -> u8
    ensures { result ≡ served_next formed id served }
{
    match formed {
        Formed::Slot => id,
        _ => served,
    }
}

impl Sessions {
    /// Packs the slots of one message into at most `room` bytes: the rejects that wait, in the order in which their asks
    /// were heard, and then the sessions once round, beginning behind the id served last. Packing ends at the first slot
    /// that doesn't fit and at 255 slots. It adds their texts to `out` and gives their number.
    pub fn pack(&mut self, room: u16, out: &mut Payload) -> u8
        requires { (room ≤ 1492) × (length out.old + room ≤ 1500) }
        ensures state { (e : States) → Stands self.old e → Stands self.new (pack room e).after }
        ensures text { (e : States) →
            Stands self.old e →
            out.new ≡ out.old ++ slots_text (wire_of (pack room e).slots) }
        ensures count { (e : States) → Stands self.old e → result ≡ length (pack room e).slots }
        ensures formed { (e : States) → Stands self.old e →
            Each IsFormed (wire_of (pack room e).slots) }
        ensures room { (length out.old ≤ length out.new)
            × (length out.new ≤ length out.old + room) }
        ensures same { SameEnd self.old self.new }
    {
        let served = self.served;
        let last = served.max(self.last_reached());
        let mut progress = Progress {
            room,
            formed: 0,
            ended: false,
        };
        self.pack_rejects(&mut progress, out);
        self.pack_ids(served, last, &mut progress, out);
        self.pack_ids(0, served, &mut progress, out);
        progress.formed
    }

    // An id behind which none has a session.
    fn last_reached(&self) -> u8
        ensures within { result ≤ length self.now.sessions }
        ensures free { (e : States) (id : ℕ) → Stands self.now e → result < id →
            free (named e id) ≡ true }
    {
        self.sessions.reached().len() as u8
    }

    // Packs the rejects that wait.
    fn pack_rejects(&mut self, progress: &mut Progress, out: &mut Payload)
        requires { length out.old + progress.old.room ≤ 1500 }
        ensures packed { (before : List ℕ) (p : Packing) →
            Packed before self.old progress.old out.old p →
            Packed before self.new progress.new out.new (turn_all (waiting_rejects p.after) p) }
        ensures sent { (before : List ℕ) (p : Packing) →
            Packed before self.old progress.old out.old p →
            NoRejects (turn_all (waiting_rejects p.after) p) }
        ensures room { (length out.old ≤ length out.new)
            × (length out.new + progress.new.room ≡ length out.old + progress.old.room) }
        ensures same { SameEnd self.old self.new }
    {
        let mut at = 0;
        for _ in 0..self.asks.len() {
            if !self.pack_reject(at, progress, out) {
                at += 1;
            }
        }
    }

    // The turn of the ask at this place: where its reject waits and fits, it is sent, and the ask is gone.
    fn pack_reject(&mut self, at: usize, progress: &mut Progress, out: &mut Payload) -> bool
        requires at { at < length self.old.asks }
        requires room { length out.old + progress.old.room ≤ 1500 }
        ensures packed { (before : List ℕ) (p : Packing) →
            Packed before self.old progress.old out.old p →
            Packed before self.new progress.new out.new (turn p
            (slice_index_or (open_serials p.after) at 0)) }
        ensures open { (before : List ℕ) (p : Packing) →
            Packed before self.old progress.old out.old p →
            open_serials (turn p (slice_index_or (open_serials p.after) at 0)).after
            ≡ cond result (remove (open_serials p.after) at) (open_serials p.after) }
        ensures count { length self.old.asks ≡ length self.new.asks + cond result 1 0 }
        ensures room { (length out.old ≤ length out.new)
            × (length out.new + progress.new.room ≡ length out.old + progress.old.room) }
        ensures same { SameEnd self.old self.new }
    {
        let Ask::Rejected { peer, reason } = self.asks[at] else {
            return false;
        };
        if !progress.goes() {
            return false;
        }
        if progress.room < REJECT_BYTES {
            progress.count(Formed::Unfit, 0);
            return false;
        }
        self.asks.remove(at);
        write_reject(out, peer, reason);
        progress.count(Formed::Slot, REJECT_BYTES);
        true
    }

    // Packs the sessions of the ids from `from` + 1 to `to`.
    fn pack_ids(&mut self, from: u8, to: u8, progress: &mut Progress, out: &mut Payload)
        requires ids { (from ≤ to) × (to ≤ length self.old.sessions) }
        requires room { length out.old + progress.old.room ≤ 1500 }
        ensures packed { (before : List ℕ) (p : Packing) →
            Packed before self.old progress.old out.old p →
            NoRejects p →
            Packed before self.new progress.new out.new (turn_all (map p.after.at_id
            (upwards from (to - from))) p) }
        ensures sent { (p : Packing) →
            NoRejects p →
            NoRejects (turn_all (map p.after.at_id (upwards from (to - from))) p) }
        ensures room { (length out.old ≤ length out.new)
            × (length out.new + progress.new.room ≡ length out.old + progress.old.room) }
        ensures same { SameEnd self.old self.new }
    {
        for at in from..to {
            self.pack_id(at + 1, progress, out);
        }
    }

    // The turn of the session of an id. A free one has nothing to send.
    fn pack_id(&mut self, id: u8, progress: &mut Progress, out: &mut Payload)
        requires id { (1 ≤ id) × (id ≤ length self.old.sessions) }
        requires room { length out.old + progress.old.room ≤ 1500 }
        ensures packed { (before : List ℕ) (p : Packing) →
            Packed before self.old progress.old out.old p →
            NoRejects p →
            Packed before self.new progress.new out.new (turn p (p.after.at_id id)) }
        ensures room { (length out.old ≤ length out.new)
            × (length out.new + progress.new.room ≡ length out.old + progress.old.room) }
        ensures same { SameEnd self.old self.new }
    {
        if progress.goes() && self.is_held(id) {
            self.form_id(id, progress, out);
        }
    }

    fn is_held(&self, id: u8) -> bool
        requires { (1 ≤ id) × (id ≤ length self.now.sessions) }
        ensures { (d : Kept) → result
            ≡ is_held (slice_index_or self.now.sessions (id - 1) d).state }
    {
        let session = &self.sessions[id as usize - 1];
        !matches!(session.state(), SessionState::Free)
    }

    fn form_id(&mut self, id: u8, progress: &mut Progress, out: &mut Payload)
        requires id { (1 ≤ id) × (id ≤ length self.old.sessions) }
        requires room { length out.old + progress.old.room ≤ 1500 }
        requires goes { (not progress.old.ended && nat_lt progress.old.formed 255) ≡ true }
        requires held { (d : Kept) → is_held (slice_index_or self.old.sessions (id - 1) d).state
            ≡ true }
        ensures packed { (before : List ℕ) (p : Packing) →
            Packed before self.old progress.old out.old p →
            Packed before self.new progress.new out.new (turn p (p.after.at_id id)) }
        ensures room { (length out.old ≤ length out.new)
            × (length out.new + progress.new.room ≡ length out.old + progress.old.room) }
        ensures same { SameEnd self.old self.new }
    {
        let start = out.len();
        let master = self.master;
        let session = self.sessions.reach(id as usize - 1);
        let formed = session.form(master, id, progress.room, out);
        progress.count(formed, (out.len() - start) as u16);
        self.served = served_after(formed, id, self.served);
    }
}

fn write_reject(out: &mut Payload, peer: u8, reason: u8)
    requires reason { reason ≤ 15 }
    requires room { length out.old + 4 ≤ 1500 }
    ensures text { out.new ≡ out.old ++ slot_text (formed_as (sessions.Reject peer 0 reason)) }
    ensures small { reason ≤ 15 }
{
    write_slot_head(out, peer, 0, 0, SlotKind::Reject, reason);
}
