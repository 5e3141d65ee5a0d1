//! The table of the sessions of one end of a circuit.

ghost use Rattle.std.specs.Prelude.{◌≡◌, ◌≤◌, min, length, IfOk};
ghost use Rattle.lat_model.specs.ends.Starting.{no_sessions};
ghost use Rattle.lat_model.specs.sessions.Sessions.{Sessions as States};
ghost use Rattle.lat_session.specs.Stands.{Stands};
ghost use Rattle.lat_session.specs.Table.{SameEnd};

use crate::ask::Ask;
use crate::places::Places;
use lat_base::Memory;
use std::alloc::Global;
use std::marker::Model;

/// How many asks may be open: each has another source, and a source is 1 to 255.
pub(crate) const OPEN_ASKS: usize = 255;

/// The sessions of one end of a circuit. They stand for the sessions of the model, which forget nothing: contracts say for
/// every state that they stand for (`Stands`) what it is afterwards. Only `make` takes memory.
/// See "Sessions", "Packing" and "Bad slots" in docs/PROTOCOL.md.
pub struct Sessions {
    pub(crate) master: bool,
    pub(crate) agreed: u8,
    pub(crate) ceiling: u8,
    pub(crate) served: u8,
    pub(crate) sessions: Places,
    pub(crate) asks: Vec<Ask>,
}

impl Drop for Sessions {
    fn drop(self) {
        let Self {
            master,
            agreed,
            ceiling,
            served,
            sessions,
            asks,
        } = self;
    }
}

impl Model for Sessions {
    ghost use Rattle.std.specs.Prelude.{◌≡◌, ◌≤◌, length, vec_capacity};
    ghost use Rattle.std.specs.List.{All};
    ghost use Rattle.lat_session.specs.Table.{Table, reason_of};

    ghost Value = { Table };

    ghost view = { λ a. record {
      master = a.master;
      agreed = a.agreed;
      ceiling = a.ceiling;
      served = a.served;
      sessions = a.sessions;
      asks = a.asks.items;
    } };

    ghost invariant = { λ a.
        (a.served ≤ length a.sessions)
        × (1 ≤ a.agreed) × (a.agreed ≤ length a.sessions) × (length a.sessions ≤ 64)
        × (1 ≤ a.ceiling) × (a.ceiling ≤ 15)
        × (length a.asks.items ≤ 255) × (255 ≤ vec_capacity a.asks)
        × All (λ x. reason_of x ≤ 15) a.asks.items };
}

impl Sessions {
    /// A table without a session, for `agreed` sessions, 1 to 64, at this side. `ceiling`, 1 to 15, is that of each
    /// session's credits. It takes all the memory that the sessions will need; `Memory` where none is found.
    pub fn make(alloc: Global, master: bool, agreed: u8, ceiling: u8) -> Result<Sessions, Memory>
        requires agreed { (1 ≤ agreed) × (agreed ≤ 64) }
        requires ceiling { (1 ≤ ceiling) × (ceiling ≤ 15) }
        ensures state { IfOk result (λ t. Stands t (no_sessions master agreed ceiling)) }
        ensures size { IfOk result (λ t. length t.sessions ≡ agreed) }
        ensures side { IfOk result (λ t. (t.master ≡ master) × (t.agreed ≡ agreed)) }
    {
        Ok(Sessions {
            master,
            agreed,
            ceiling,
            served: 0,
            sessions: Places::make(alloc, agreed, ceiling)?,
            asks: Vec::with_capacity(alloc, OPEN_ASKS)?,
        })
    }

    /// The table as `make` makes it, in the memory that it has: `agreed` is at most the number that it was made for.
    pub fn reset(&mut self, master: bool, agreed: u8, ceiling: u8)
        requires agreed { (1 ≤ agreed) × (agreed ≤ length self.old.sessions) }
        requires ceiling { (1 ≤ ceiling) × (ceiling ≤ 15) }
        ensures state { Stands self.new (no_sessions master agreed ceiling) }
        ensures size { length self.new.sessions ≡ length self.old.sessions }
        ensures side { (self.new.master ≡ master) × (self.new.agreed ≡ agreed) }
    {
        self.master = master;
        self.agreed = agreed;
        self.ceiling = ceiling;
        self.served = 0;
        self.sessions.reset(ceiling);
        self.asks.clear();
    }

    /// Both ends have agreed on so many sessions, which is at most what this end had stated.
    pub fn agree(&mut self, agreed: u8)
        requires { (1 ≤ agreed) × (agreed ≤ self.old.agreed) }
        ensures state { (e : States) → Stands self.old e →
            Stands self.new (record e { agreed = min agreed e.agreed }) }
        ensures same { SameEnd self.old self.new }
    {
        self.agreed = agreed;
    }

    /// The number of sessions that it was made for.
    pub fn size(&self) -> u8
        ensures { result ≡ length self.now.sessions }
    {
        self.sessions.len() as u8
    }
}
