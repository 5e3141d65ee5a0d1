//! The mind of a line that serves caller after caller. It touches neither the line nor the core: it is shown what stands under
//! the lock, says the next move, and is told what came of it. `docs/PROTOCOL.md`, "Lines of a daemon", has the rules.
#![tactic(auto)]

mod after;
mod fact;
mod kind;
pub mod laws;
mod line_look;
mod look;
mod mind;
mod phase;

pub use fact::{Fact, Move};
pub use kind::Kind;
pub use look::{Look, Owner};
pub use mind::LineMind;
pub use phase::{Guest, Phase, Waiter};
