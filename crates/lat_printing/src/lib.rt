//! What a worker of print jobs does under the lock, for a job of a port. `docs/PROTOCOL.md`, "Print jobs", has the rules.
#![tactic(auto)]

mod desk;
mod events;
mod hand;
mod holding;
pub mod laws;
mod post;
mod tray;

pub use desk::JobDesk;
pub use holding::{Held, hold};
pub use post::{JobPost, News};
