//! The worker of a line that serves caller after caller. A turn is a look at the line, the move that its mind makes at it, and
//! what came of that, told with the same look. What has an event is done under one hold of the lock; what waits for the outside
//! is done without it. The desk of a worker has its whole life, which exists in the proofs alone: so each law of `lat_mind` holds
//! of what a worker does. `docs/PROTOCOL.md`, "Lines of a daemon", has the rules.
#![tactic(auto)]

mod acting;
mod desk;
mod door;
mod events;
mod hand;
mod holding;
mod kept;
pub mod laws;
mod life;
mod told;
mod tray;
mod worker;
mod write;

pub use acting::act;
pub use desk::Desk;
pub use door::{Device, Door};
pub use holding::{Held, NoCount, hold};
pub use kept::{Sessions, Stay};
pub use worker::{LineDone, LineWorker};
