//! What the table tells of its sessions. No call takes memory. Of an id that no session had, each tells that there is
//! none.

ghost use Rattle.std.specs.Prelude.{◌≡◌, ◌+◌, ◌-◌, ◌<◌, ◌≤◌, cond, length, position, count_by, filter, false, not, nat_eq, MatchOption, IfSome};
ghost use Rattle.std.specs.List.{list_all, list_any};
ghost use Rattle.std.specs.Option.{is_some, option_copied};
ghost use Rattle.lat_base.specs.declared.state.SessionState.TheVariants as states;
ghost use Rattle.lat_model.specs.Lists.{upwards};
ghost use Rattle.lat_model.specs.sessions.Hearing.{is_full};
ghost use Rattle.lat_model.specs.sessions.Session.{state, peer, gone, put_open, take_open, unframed, waits};
ghost use Rattle.lat_model.specs.sessions.Sessions.{Sessions as States, named, held, least_free};
ghost use Rattle.lat_model.specs.sessions.Slots.{items, credits, costs};
ghost use Rattle.lat_stream.specs.Kept.{Kept, state_of, saturated, end_of};
ghost use Rattle.lat_session.specs.Stands.{Stands};
ghost use Rattle.lat_session.specs.States.{is_free, is_gone, is_asked, held_in, asked_at, asked_of};
ghost use Rattle.lat_session.specs.Table.{session_at, state_at, waiting_at, has_room};

use crate::table::Sessions;
use lat_base::{Name, SessionEnd, SessionState};
use lat_stream::Stream;

/// A session that the peer asks for.
#[derive(Clone, Copy)]
pub struct Asked {
    /// This end's id of it.
    pub id: u8,
    pub service: Name,
    /// The request that it answers, where it has one.
    pub request: Option<u16>,
}

fn is_free(session: &Stream) -> bool
    ensures { result ≡ is_free session.now.state }
{
    matches!(session.state(), SessionState::Free)
}

fn is_gone(session: &Stream) -> bool
    ensures { result ≡ is_gone session.now.state }
{
    matches!(session.state(), SessionState::Free | SessionState::Left)
}

fn is_asked(session: &Stream) -> bool
    ensures { result ≡ is_asked session.now.state }
{
    matches!(session.state(), SessionState::Asked)
}

impl Sessions {
    /// The state of the present or last session of an id.
    pub fn state(&self, id: u8) -> SessionState
        ensures value { result ≡ state_at self.now id }
        ensures model { (e : States) → Stands self.now e →
            result ≡ state_of (state e.master (named e id)) }
    {
        self.session(id).map_or(SessionState::Free, Stream::state)
    }

    /// The flag of the attention that it heard last, `None` where it heard none.
    pub fn mark(&self, id: u8) -> Option<u8>
        ensures { (e : States) → Stands self.now e → result ≡ (named e id).mark }
    {
        self.session(id)?.mark()
    }

    /// How many sessions aren't free.
    pub fn held(&self) -> u8
        ensures value { result ≡ held_in self.now.sessions }
        ensures model { (e : States) → Stands self.now e → result ≡ held e }
    {
        self.count_held()
    }

    /// Whether any session isn't free.
    pub fn is_any_held(&self) -> bool
        ensures { (e : States) → Stands self.now e → result ≡ not (nat_eq (held e) 0) }
    {
        self.has_held()
    }

    /// How many items `take` could give now, 0 where it is refused.
    pub fn waiting(&self, id: u8) -> u16
        ensures value { result ≡ waiting_at self.now id }
        ensures model { (e : States) →
            Stands self.now e →
            result ≡ cond (take_open (named e id))
            (length (items (named e id).came) - (named e id).taken) 0 }
    {
        self.session(id).map_or(0, Stream::waiting)
    }

    /// How many bytes `put` could take now, 0 where it is refused.
    pub fn room(&self, id: u8) -> u16
        ensures { (e : States) → Stands self.now e → result ≡ cond (put_open (named e id))
            (4096 - length (unframed (named e id))) 0 }
    {
        self.session(id).map_or(0, Stream::room)
    }

    /// Whether each session is free or left.
    pub fn are_gone(&self) -> bool
        ensures { (e : States) → Stands self.now e →
            result ≡ list_all (λ id. gone (named e id)) (upwards 0 64) }
    {
        !self.has_other()
    }

    /// The credits that this end gave in it, and those that it used. Either stops at the greatest number of 64 bits.
    pub fn totals(&self, id: u8) -> (u64, u64)
        ensures { (e : States) →
            Stands self.now e →
            result ≡ (saturated (credits (named e id).out), saturated (costs (named e id).out)) }
    {
        self.session(id).map_or((0, 0), Stream::totals)
    }

    /// How it ended, `None` while it isn't over.
    pub fn ended(&self, id: u8) -> Option<SessionEnd>
        ensures { (e : States) → Stands self.now e → result ≡ end_of (named e id) }
    {
        self.session(id)?.end()
    }

    /// The peer's id of it, 0 where it isn't known.
    pub fn peer(&self, id: u8) -> u8
        ensures { (e : States) → Stands self.now e → result ≡ peer (named e id) }
    {
        self.session(id).map_or(0, Stream::peer)
    }

    /// The number of sessions that may be held.
    pub fn agreed(&self) -> u8
        ensures value { result ≡ self.now.agreed }
        ensures least { 1 ≤ result }
        ensures model { (e : States) → Stands self.now e → result ≡ e.agreed }
    {
        self.agreed
    }

    /// The asked session with the least id, `None` where none is asked for.
    pub fn asked(&self) -> Option<Asked>
        ensures model { (e : States) → Stands self.now e → result ≡ asked_of e }
        ensures state { IfSome result (λ a. state_at self.now a.id ≡ states.Asked) }
    {
        let at = self.first_asked()?;
        Some(self.asked_here(at))
    }

    /// How many sessions are asked for.
    pub fn asked_count(&self) -> u8
        ensures model { (e : States) →
            Stands self.now e →
            result ≡ length (filter (λ id.
            is_asked (state_of (state e.master (named e id)))) (upwards 0 64)) }
        ensures slave { (e : States) →
            Stands self.now e →
            e.master ≡ false →
            result ≡ length (filter (λ id. waits (named e id)) (upwards 0 64)) }
    {
        self.count_asked()
    }

    /// The session of an id where it is asked for, else `None`.
    pub fn asked_at(&self, id: u8) -> Option<Asked>
        ensures value { is_some result ≡ is_asked (state_at self.now id) }
        ensures id { IfSome result (λ a. a.id ≡ id) }
        ensures model { (e : States) →
            Stands self.now e →
            result ≡ cond (is_asked (state_of (state e.master (named e id))))
            (Some (asked_at e id)) None }
        ensures slave { (e : States) → Stands self.now e → e.master ≡ false →
            is_some result ≡ waits (named e id) }
    {
        let at = self.place(id)?;
        if is_asked(&self.sessions[at]) {
            Some(self.asked_here(at))
        } else {
            None
        }
    }

    // The session at a place, which is asked for.
    fn asked_here(&self, at: usize) -> Asked
        requires within { at < length self.now.sessions }
        requires asked { state_at self.now (at + 1) ≡ states.Asked }
        ensures id { result.id ≡ at + 1 }
        ensures model { (e : States) → Stands self.now e → result ≡ asked_at e (at + 1) }
    {
        let Some(opening) = self.sessions[at].start() else {
            unreachable!()
        };
        Asked {
            id: at as u8 + 1,
            service: opening.service,
            request: opening.request,
        }
    }

    fn has_held(&self) -> bool
        ensures { result ≡ list_any (λ (k : Kept). not (is_free k.state)) self.now.sessions }
    {
        let mut reached = self.sessions.reached().iter();
        reached.any(|session| !is_free(session))
    }

    // Whether any session is neither free nor left.
    fn has_other(&self) -> bool
        ensures { result ≡ list_any (λ (k : Kept). not (is_gone k.state)) self.now.sessions }
    {
        let mut reached = self.sessions.reached().iter();
        reached.any(|session| !is_gone(session))
    }

    fn count_held(&self) -> u8
        ensures { result ≡ held_in self.now.sessions }
    {
        let reached = self.sessions.reached().iter();
        reached.filter(|session| !is_free(session)).count() as u8
    }

    fn count_asked(&self) -> u8
        ensures { result ≡ count_by (λ (k : Kept). is_asked k.state) self.now.sessions }
    {
        let reached = self.sessions.reached().iter();
        reached.filter(|session| is_asked(session)).count() as u8
    }

    // The session of an id, `None` of an id that no session has.
    fn session(&self, id: u8) -> Option<&Stream>
        ensures { option_copied result ≡ session_at self.now id }
    {
        let at = (id as usize).checked_sub(1)?;
        self.sessions.all().get(at)
    }

    // Where the session of an id stands, `None` of an id that no session has.
    pub(crate) fn place(&self, id: u8) -> Option<usize>
        ensures { MatchOption result
            (session_at self.now id ≡ None)
            (λ i. (i + 1 ≡ id) × (i < length self.now.sessions)) }
    {
        let at = (id as usize).checked_sub(1)?;
        if at < self.sessions.len() {
            Some(at)
        } else {
            None
        }
    }

    fn first_asked(&self) -> Option<usize>
        ensures { result ≡ position (λ (k : Kept). is_asked k.state) self.now.sessions }
    {
        let mut reached = self.sessions.reached().iter();
        reached.position(|session| is_asked(session))
    }

    // The place of the least free id, `None` where the agreed number is held.
    pub(crate) fn free_place(&self) -> Option<usize>
        ensures model { (e : States) → Stands self.now e →
            result ≡ cond (is_full e) None (Some (least_free e - 1)) }
        ensures room { is_some result ≡ has_room self.now }
        ensures within { IfSome result (λ i. i < length self.now.sessions) }
    {
        if self.held() >= self.agreed {
            return None;
        }
        self.first_free()
    }

    // Where the first place is whose session is free.
    fn first_free(&self) -> Option<usize>
        ensures { result ≡ position (λ (k : Kept). is_free k.state) self.now.sessions }
    {
        let mut all = self.sessions.all().iter();
        all.position(|session| is_free(session))
    }
}
