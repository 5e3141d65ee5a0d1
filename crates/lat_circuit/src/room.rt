//! The memory of a circuit.

ghost use Rattle.std.specs.Prelude.{◌≡◌, ◌≤◌, IfOk};

use crate::link::Link;
use lat_base::Memory;
use lat_session::Sessions;
use std::alloc::Global;
use std::marker::Model;

/// The memory that a circuit needs, for one circuit after another. Contracts see the number of sessions that it was made for.
#[derive(Drop)]
pub struct CircuitRoom {
    pub(crate) link: Link,
    pub(crate) sessions: Sessions,
}

impl Model for CircuitRoom {
    ghost use Rattle.std.specs.Prelude.{ℕ, length};

    ghost Value = { ℕ };

    ghost view = { λ a. length a.sessions.sessions };
}

impl CircuitRoom {
    /// The memory of a circuit with so many sessions, 1 to 64. `Memory` where none is found.
    pub fn make(alloc: Global, sessions: u8) -> Result<CircuitRoom, Memory>
        requires { (1 ≤ sessions) × (sessions ≤ 64) }
        ensures { IfOk result (λ room. room ≡ sessions) }
    {
        Ok(CircuitRoom {
            link: Link::make(alloc)?,
            sessions: Sessions::make(alloc, true, sessions, 1)?,
        })
    }
}
