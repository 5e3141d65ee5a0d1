//! What one end keeps of one session.

ghost use Rattle.std.specs.Prelude.{◌≡◌, ◌≢◌, ◌≤◌, ◌-◌, Bool, true, false, ℕ, Some, length, cond, IfOk};
ghost use Rattle.std.specs.Option.{is_some};
ghost use Rattle.lat_base.specs.declared.state.SessionState.TheVariants as states;
ghost use Rattle.lat_model.specs.sessions.Session.{Session, blank, state, peer, put_open, take_open, unframed};
ghost use Rattle.lat_model.specs.sessions.Slots.{items, credits, costs};
ghost use Rattle.lat_stream.specs.Begins.{called, asked};
ghost use Rattle.lat_stream.specs.Kept.{stream_of, state_of, saturated, end_of, start_left};
ghost use Rattle.lat_stream.specs.Sound.{Sound};
ghost use Rattle.lat_stream.specs.Steps.{can_put, can_take, can_hear};

use crate::opening::Opening;
use crate::ring::ItemRing;
use circular_buffer::HeapCircularBuffer;
use lat_base::{Memory, Name, SessionEnd, SessionState};
use lat_credit::Credits;
use std::alloc::Global;
use std::marker::Model;

/// How many items may be put and not framed.
pub const UNFRAMED_ITEMS: usize = 4096;

/// How many items may be heard and not taken: 15 slots of 255.
pub const HEARD_ITEMS: usize = 3825;

/// How many slots may be held at once: the greatest ceiling.
pub const HELD_SLOTS: usize = 15;

/// One session, as one end keeps it. It stands for a session of the model, which forgets nothing: contracts say for every
/// session that it stands for (`stream_of`) what it stands for afterwards. All memory is taken when it is made.
/// See "Sessions" in docs/PROTOCOL.md.
pub struct Stream {
    pub(crate) state: SessionState,
    pub(crate) closed: bool,
    pub(crate) stop_formed: bool,
    pub(crate) stop_heard: bool,
    pub(crate) peer: u8,
    pub(crate) size: u8,
    pub(crate) start: Option<Opening>,
    pub(crate) attention: Option<u8>,
    pub(crate) mark: Option<u8>,
    pub(crate) ceiling: u8,
    pub(crate) credits: Credits,
    pub(crate) given: u64,
    pub(crate) used: u64,
    pub(crate) unframed: ItemRing,
    pub(crate) heard: ItemRing,
    pub(crate) held: HeapCircularBuffer<u8>,
    pub(crate) end: Option<SessionEnd>,
}

impl Drop for Stream {
    fn drop(self) {
        let Self {
            state,
            closed,
            stop_formed,
            stop_heard,
            peer,
            size,
            start,
            attention,
            mark,
            ceiling,
            credits,
            given,
            used,
            unframed,
            heard,
            held,
            end,
        } = self;
    }
}

impl Model for Stream {
    ghost use Rattle.std.specs.Prelude.{◌≡◌, ◌≤◌, length, true};
    ghost use Rattle.std.specs.Option.{is_some};
    ghost use Rattle.lat_base.specs.declared.state.SessionState.TheVariants as states;
    ghost use Rattle.lat_stream.specs.Kept.{Kept};

    ghost Value = { Kept };

    ghost view = { λ a. record {
      state = a.state;
      closed = a.closed;
      stop_formed = a.stop_formed;
      stop_heard = a.stop_heard;
      peer = a.peer;
      size = a.size;
      start = a.start;
      attention = a.attention;
      mark = a.mark;
      credits = a.credits;
      given = a.given;
      used = a.used;
      unframed = a.unframed.items;
      heard = a.heard.items;
      held = a.held.items;
      end = a.end;
    } };

    ghost invariant = { λ a.
        (a.unframed.capacity ≡ 4096) × (a.unframed.settings ≡ 4096)
        × (a.heard.capacity ≡ 3825) × (a.heard.settings ≡ 15) × (a.held.capacity ≡ 15)
        × (length a.held.items ≡ a.credits.held)
        × (a.ceiling ≡ a.credits.ceiling) × (1 ≤ a.ceiling) × (a.ceiling ≤ 15)
        × (a.state ≡ states.Asked → is_some a.start ≡ true) };
}

impl Stream {
    /// A place for sessions, in which there was none yet. `ceiling` is 1 to 15. It takes room for all items and slots that
    /// may ever wait: 8 KB for items that are bytes, 32 KB for 4,096 settings that were put, and little for the 15 settings
    /// that may have been heard, as each stands in a held slot of its own. Nothing of it is written before an item comes,
    /// and of the room for settings only as much as there ever wait. `Memory` where none is found.
    pub fn make(alloc: Global, ceiling: u8) -> Result<Stream, Memory>
        requires { (1 ≤ ceiling) × (ceiling ≤ 15) }
        ensures { IfOk result (λ k. (master : Bool) → k ≡ stream_of master ceiling blank) }
    {
        Ok(Stream {
            state: SessionState::Free,
            closed: false,
            stop_formed: false,
            stop_heard: false,
            peer: 0,
            size: 0,
            start: None,
            attention: None,
            mark: None,
            ceiling,
            credits: Credits::make(ceiling),
            given: 0,
            used: 0,
            held: HeapCircularBuffer::with_capacity(alloc, HELD_SLOTS)?,
            heard: ItemRing::with_capacity(alloc, HEARD_ITEMS, HELD_SLOTS)?,
            unframed: ItemRing::with_capacity(alloc, UNFRAMED_ITEMS, UNFRAMED_ITEMS)?,
            end: None,
        })
    }

    /// The place as `make` makes it, in the memory that it has. `ceiling` is 1 to 15.
    pub fn reset(&mut self, ceiling: u8)
        requires { (1 ≤ ceiling) × (ceiling ≤ 15) }
        ensures { (master : Bool) → self.new ≡ stream_of master ceiling blank }
    {
        self.state = SessionState::Free;
        self.closed = false;
        self.stop_formed = false;
        self.stop_heard = false;
        self.peer = 0;
        self.size = 0;
        self.start = None;
        self.attention = None;
        self.mark = None;
        self.ceiling = ceiling;
        self.credits = Credits::make(ceiling);
        self.given = 0;
        self.used = 0;
        self.unframed.clear();
        self.heard.clear();
        self.held.clear();
        self.end = None;
    }

    /// The session of a master that connects to a service, in place of the last one. It may answer a request.
    pub fn call(&mut self, service: &Name, request: Option<u16>)
        ensures { (id : ℕ) → id ≢ 0 →
            self.new ≡ stream_of true self.old.credits.ceiling (called id service.now request) }
    {
        self.forget();
        self.wait(
            SessionState::Calling,
            Opening {
                service: *service,
                request,
            },
        );
    }

    /// The session of a slave that hears an ask from the peer's id `from`, in place of the last one. `credits`, at most 15,
    /// are those that the ask gives, `size` is the most bytes of a data slot that the peer takes.
    pub fn ask(&mut self, from: u8, credits: u8, size: u8, opening: Opening)
        requires { credits ≤ 15 }
        ensures { (id generation : ℕ) → id ≢ 0 →
            self.new ≡ stream_of false self.old.credits.ceiling (asked id generation from credits size opening) }
    {
        self.forget();
        self.wait(SessionState::Asked, opening);
        self.know(from, size);
        let Ok(()) = self.grant(credits) else {
            unreachable!()
        };
    }

    fn forget(&mut self)
        ensures { (master : Bool) → self.new ≡ stream_of master self.old.credits.ceiling blank }
    {
        self.reset(self.ceiling);
    }

    fn wait(&mut self, state: SessionState, opening: Opening)
        ensures { self.new ≡ record self.old { state = state; start = Some opening } }
    {
        self.state = state;
        self.start = Some(opening);
    }

    // What the peer's start states.
    pub(crate) fn know(&mut self, from: u8, size: u8)
        ensures { self.new ≡ record self.old { peer = from; size = size } }
    {
        self.peer = from;
        self.size = size;
    }

    /// Its state.
    pub fn state(&self) -> SessionState
        ensures value { result ≡ self.now.state }
        ensures model { (master : Bool) (ceiling : ℕ) (s : Session) →
            self.now ≡ stream_of master ceiling s →
            result ≡ state_of (state master s) }
    {
        self.state
    }

    /// The flag of the attention that was heard last.
    pub fn mark(&self) -> Option<u8>
        ensures value { result ≡ self.now.mark }
        ensures model { (master : Bool) (ceiling : ℕ) (s : Session) →
            self.now ≡ stream_of master ceiling s →
            result ≡ s.mark }
    {
        self.mark
    }

    /// The peer's id, 0 where it isn't known.
    pub fn peer(&self) -> u8
        ensures value { result ≡ self.now.peer }
        ensures model { (master : Bool) (ceiling : ℕ) (s : Session) →
            self.now ≡ stream_of master ceiling s →
            result ≡ peer s }
    {
        self.peer
    }

    /// The credits that this end gave, and those that it used. Either stops at the greatest number of 64 bits.
    pub fn totals(&self) -> (u64, u64)
        ensures value { result ≡ (self.now.given, self.now.used) }
        ensures model { (master : Bool) (ceiling : ℕ) (s : Session) →
            self.now ≡ stream_of master ceiling s →
            result ≡ (saturated (credits s.out), saturated (costs s.out)) }
    {
        (self.given, self.used)
    }

    /// How it ended. `None` while it isn't over, and where there was none.
    pub fn end(&self) -> Option<SessionEnd>
        ensures value { result ≡ self.now.end }
        ensures model { (master : Bool) (ceiling : ℕ) (s : Session) →
            self.now ≡ stream_of master ceiling s →
            result ≡ end_of s }
    {
        self.end
    }

    /// What its start says, while that waits to be formed: also while it is asked for.
    pub fn start(&self) -> Option<Opening>
        ensures value { result ≡ self.now.start }
        ensures asked { self.now.state ≡ states.Asked → is_some result ≡ true }
        ensures model { (master : Bool) (ceiling : ℕ) (s : Session) →
            self.now ≡ stream_of master ceiling s →
            result ≡ start_left s }
    {
        self.start
    }

    /// How many items `take` could give now: at most 3,825, and 0 where it is refused.
    pub fn waiting(&self) -> u16
        ensures value { result ≡ cond (can_take self.now) (length self.now.heard) 0 }
        ensures model { (master : Bool) (ceiling : ℕ) (s : Session) →
            Sound master ceiling s → self.now ≡ stream_of master ceiling s →
            result ≡ cond (take_open s) (length (items s.came) - s.taken) 0 }
    {
        self.count_waiting()
    }

    fn count_waiting(&self) -> u16
        ensures { result ≡ cond (can_take self.now) (length self.now.heard) 0 }
    {
        if self.gives_items() {
            self.heard.len() as u16
        } else {
            0
        }
    }

    /// How many bytes `put` could take now: at most 4,096, and 0 where it is refused.
    pub fn room(&self) -> u16
        ensures value { result ≡ cond (can_put self.now) (4096 - length self.now.unframed) 0 }
        ensures model { (master : Bool) (ceiling : ℕ) (s : Session) →
            Sound master ceiling s → self.now ≡ stream_of master ceiling s →
            result ≡ cond (put_open s) (4096 - length (unframed s)) 0 }
    {
        self.count_room()
    }

    fn count_room(&self) -> u16
        ensures { result ≡ cond (can_put self.now) (4096 - length self.now.unframed) 0 }
    {
        if self.takes_items() {
            (UNFRAMED_ITEMS - self.unframed.len()) as u16
        } else {
            0
        }
    }

    // Items may be put.
    pub(crate) fn takes_items(&self) -> bool
        ensures { result ≡ can_put self.now }
    {
        matches!(self.state, SessionState::Calling | SessionState::Live) && !self.closed
    }

    // Items may be taken.
    pub(crate) fn gives_items(&self) -> bool
        ensures { result ≡ can_take self.now }
    {
        !matches!(self.state, SessionState::Free | SessionState::Asked) && !self.closed
    }

    // Data, an attention or a stop may come.
    pub(crate) fn hears(&self) -> bool
        ensures { result ≡ can_hear self.now }
    {
        matches!(self.state, SessionState::Live | SessionState::Closing) && !self.stop_heard
    }
}
