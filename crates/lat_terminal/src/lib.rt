//! What stands between a terminal and a line: the filter that takes telnet's commands out of what a client sends, and the
//! editor of the lines that are typed in local mode. Both are told bytes in pieces, and what comes of them doesn't depend on
//! where the pieces were cut. `docs/PROTOCOL.md`, "Terminals", has the rules.
#![tactic(auto)]

mod doubling;
mod echo;
mod editor;
mod key;
pub mod laws;
mod line_state;
mod negotiation;
mod option_state;
mod place;
mod telnet;

pub use doubling::double;
pub use echo::{Echo, MOST_SHOWN};
pub use editor::{Editor, Fed, Stop};
pub use key::Key;
pub use line_state::LineState;
pub use negotiation::{Negotiation, Verb};
pub use option_state::OptionState;
pub use place::{Command, Place, Token};
pub use telnet::{Heard, Telnet};
