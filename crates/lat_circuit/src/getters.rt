//! What a circuit tells. No call takes memory.

ghost use Rattle.std.specs.Prelude.{◌≡◌, ◌-◌, cond, length, filter, false, is_none, None, Some, IfSome};
ghost use Rattle.std.specs.Option.{is_some};
ghost use Rattle.lat_base.specs.declared.state.SessionState.TheVariants as states;
ghost use Rattle.lat_model.specs.Lists.{upwards};
ghost use Rattle.lat_model.specs.ends.End.{End, lives};
ghost use Rattle.lat_model.specs.sessions.Session.{state, peer, take_open, waits};
ghost use Rattle.lat_model.specs.sessions.Sessions.{named, held};
ghost use Rattle.lat_model.specs.sessions.Slots.{items, credits, costs};
ghost use Rattle.lat_machines.specs.values.Addresses.{address};
ghost use Rattle.lat_machines.specs.cores.Looks.{put_room, end_drained, end_look};
ghost use Rattle.lat_stream.specs.Kept.{saturated, state_of};
ghost use Rattle.lat_session.specs.States.{asked_of, asked_at, is_asked, held_in};
ghost use Rattle.lat_session.specs.Table.{state_at, waiting_at};
ghost use Rattle.lat_circuit.specs.Agrees.{span_of};
ghost use Rattle.lat_circuit.specs.Stands.{Stands};
ghost use Rattle.lat_circuit.specs.Info.{session_state, session_end, circuit_end};
ghost use Rattle.lat_circuit.specs.Looks.{circuit_look_of};

use crate::circuit::Circuit;
use crate::config::CircuitConfig;
use lat_base::{CircuitLook, SessionEnd, SessionState};
use lat_seq::Span;
use lat_session::Asked;

impl Circuit {
    /// What it was made of.
    pub fn config(&self) -> CircuitConfig
        ensures { result ≡ self.now.facts.config }
    {
        self.config
    }

    /// Whether it has not ended.
    pub fn lives(&self) -> bool
        ensures value { result ≡ is_none self.now.ended }
        ensures model { (e : End) → Stands self.now e → result ≡ lives e }
    {
        self.ended.is_none()
    }

    /// The reason of its end, `None` exactly while it lives.
    pub fn ended_by(&self) -> Option<u8>
        ensures value { result ≡ self.now.ended }
        ensures model { (e : End) → Stands self.now e → result ≡ e.ended }
    {
        self.ended
    }

    /// Whether the reply was heard, at a slave always.
    pub fn running(&self) -> bool
        ensures value { result ≡ self.now.running }
        ensures model { (e : End) → Stands self.now e → result ≡ e.running }
    {
        self.running
    }

    /// Whether this end is its master.
    pub fn is_master(&self) -> bool
        ensures value { result ≡ self.now.facts.master }
        ensures model { (e : End) → Stands self.now e → result ≡ e.master }
    {
        self.link.ids().master
    }

    /// How far its message numbers count.
    pub fn span(&self) -> Span
        ensures { result ≡ span_of self.now.facts.wide }
    {
        self.link.span()
    }

    /// Its id at this end.
    pub fn id(&self) -> u16
        ensures { result ≡ self.now.facts.id }
    {
        self.link.ids().from
    }

    /// Its id at the peer, 0 where it isn't known.
    pub fn peer_id(&self) -> u16
        ensures value { result ≡ self.now.facts.peer }
        ensures model { (e : End) → Stands self.now e → result ≡ e.peer }
    {
        self.link.ids().to
    }

    /// The latest moment that it was given.
    pub fn moment(&self) -> u64
        ensures { result ≡ self.now.moments.now }
    {
        self.moments.now
    }

    /// How many sessions it may hold.
    pub fn agreed(&self) -> u8
        ensures value { result ≡ self.now.sessions.agreed }
        ensures model { (e : End) → Stands self.now e → result ≡ e.half.sessions.agreed }
    {
        self.sessions.agreed()
    }

    /// How many sessions aren't free, while it lives.
    pub fn held(&self) -> u8
        ensures value { result ≡ held_in self.now.sessions.sessions }
        ensures model { (e : End) → Stands self.now e → result ≡ held e.half.sessions }
    {
        self.sessions.held()
    }

    /// The asked session with the least id, `None` where none is asked for.
    pub fn asked(&self) -> Option<Asked>
        ensures model { (e : End) → Stands self.now e → result ≡ asked_of e.half.sessions }
        ensures state { IfSome result (λ a. state_at self.now.sessions a.id ≡ states.Asked) }
    {
        self.sessions.asked()
    }

    /// How many sessions are asked for, also after the end of the circuit those that were.
    pub fn asked_count(&self) -> u8
        ensures model { (e : End) →
            Stands self.now e →
            result ≡ length (filter
            (λ id. is_asked (state_of (state e.half.sessions.master (named e.half.sessions id))))
            (upwards 0 64)) }
        ensures slave { (e : End) →
            Stands self.now e →
            e.half.sessions.master ≡ false →
            result ≡ length (filter (λ id. waits (named e.half.sessions id)) (upwards 0 64)) }
    {
        self.sessions.asked_count()
    }

    /// The session of an id where it is asked for, also after the end of the circuit where it was; else `None`.
    pub fn asked_at(&self, id: u8) -> Option<Asked>
        ensures value { is_some result ≡ is_asked (state_at self.now.sessions id) }
        ensures id { IfSome result (λ a. a.id ≡ id) }
        ensures model { (e : End) →
            Stands self.now e →
            result ≡ cond (is_asked (state_of (state e.half.sessions.master
            (named e.half.sessions id))))
            (Some (asked_at e.half.sessions id))
            None }
        ensures slave { (e : End) →
            Stands self.now e →
            e.half.sessions.master ≡ false →
            is_some result ≡ waits (named e.half.sessions id) }
    {
        self.sessions.asked_at(id)
    }

    /// The state of the present or last session of an id; free after the end of the circuit.
    pub fn state(&self, id: u8) -> SessionState
        ensures living { self.now.ended ≡ None → result ≡ state_at self.now.sessions id }
        ensures model { (e : End) → Stands self.now e → result ≡ session_state e id }
    {
        if self.ended.is_none() {
            self.sessions.state(id)
        } else {
            SessionState::Free
        }
    }

    /// How the last session of an id ended: `Circuit` where the circuit ended before it. `None` exactly where the id was never
    /// used, or its session isn't free.
    pub fn ended(&self, id: u8) -> Option<SessionEnd>
        ensures { (e : End) → Stands self.now e → result ≡ session_end e id }
    {
        match self.sessions.state(id) {
            SessionState::Free => self.sessions.ended(id),
            _ => self.circuit_end(),
        }
    }

    // How a session ended that wasn't free when the circuit ended.
    fn circuit_end(&self) -> Option<SessionEnd>
        ensures { result ≡ circuit_end self.now.ended }
    {
        self.ended.map(SessionEnd::Circuit)
    }

    /// The flag of the attention that a session heard last, `None` where it heard none.
    pub fn mark(&self, id: u8) -> Option<u8>
        ensures { (e : End) → Stands self.now e → result ≡ (named e.half.sessions id).mark }
    {
        self.sessions.mark(id)
    }

    /// How many items `take` could give now, 0 where it would be refused, and after the end of the circuit.
    pub fn waiting(&self, id: u8) -> u16
        ensures value { result ≡ cond (is_none self.now.ended) (waiting_at self.now.sessions id) 0 }
        ensures model { (e : End) →
            Stands self.now e →
            result ≡ cond (lives e)
            (cond (take_open (named e.half.sessions id))
            (length (items (named e.half.sessions id).came) - (named e.half.sessions id).taken)
            0)
            0 }
    {
        if self.ended.is_none() {
            self.sessions.waiting(id)
        } else {
            0
        }
    }

    /// How many bytes `put` could take now, 0 where it would be refused, and after the end of the circuit.
    pub fn room(&self, id: u8) -> u16
        ensures { (e : End) → Stands self.now e →
            result ≡ cond (lives e) (put_room (named e.half.sessions id)) 0 }
    {
        if self.ended.is_none() {
            self.sessions.room(id)
        } else {
            0
        }
    }

    /// Whether each session is free or left, and the peer has taken all messages.
    pub fn is_drained(&self) -> bool
        ensures { (e : End) → Stands self.now e → result ≡ end_drained e }
    {
        self.sessions.are_gone() && self.link.unacknowledged() == 0
    }

    /// What is told of it in a list of circuits.
    pub fn look(&self) -> CircuitLook
        ensures { (e : End) →
            Stands self.now e →
            result ≡ circuit_look_of (end_look self.now.facts.id (address self.now.facts.config.peer.0)
            self.now.facts.config.peer_name e) }
    {
        let config = self.config();
        CircuitLook {
            id: self.id(),
            peer_id: self.peer_id(),
            peer: config.peer,
            name: config.peer_name,
            timer: self.timer,
            keep_alive: self.keepalive,
            held: self.held(),
            unacknowledged: self.link.unacknowledged(),
            rounds: self.rounds,
        }
    }

    /// The credits that this end gave in the present or last session of an id, and those that it used. Either stops at the
    /// greatest number of 64 bits.
    pub fn totals(&self, id: u8) -> (u64, u64)
        ensures { (e : End) →
            Stands self.now e →
            result ≡ (
              saturated (credits (named e.half.sessions id).out),
              saturated (costs (named e.half.sessions id).out),
            ) }
    {
        self.sessions.totals(id)
    }

    /// The peer's id of the present or last session of an id, 0 where it isn't known.
    pub fn peer(&self, id: u8) -> u8
        ensures { (e : End) → Stands self.now e → result ≡ peer (named e.half.sessions id) }
    {
        self.sessions.peer(id)
    }
}
