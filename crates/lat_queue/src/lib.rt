//! The requests that nodes queue at a server: one record for each key, and a line of those that wait for each service.
#![tactic(auto)]

mod entry;
mod key;
mod line;
mod queue;
mod record;
mod services;

pub use key::Key;
pub use queue::Queue;
pub use record::Record;
pub use services::Services16;
