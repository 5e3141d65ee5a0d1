//! The service directory of a server: which nodes announced what, and which node is the best for a service. The
//! rules are those of `docs/PROTOCOL.md`, "Announcements and choice"; the definitions that its contracts cite are those of
//! the machines (`lat_machines`).
#![tactic(auto)]

mod best;
mod directory;
mod groups;
mod node;
mod nodes;
mod offers;

pub use best::Best;
pub use directory::{DirFault, Directory};
#[doc(hidden)]
pub use node::Node;
#[doc(hidden)]
pub use offers::{Offer, Offers};
