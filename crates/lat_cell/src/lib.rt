//! A core and its history under a lock, the workers of the wire and of the clock round it, and what is printed at the end. What a
//! worker does with a cell that is lent to it, the contracts say whole; taking the lock alone hides what happens. See "Cells" and
//! "Workers" in docs/PROTOCOL.md.
#![tactic(auto)]

mod clock;
mod ending;
mod logging;
mod telling;
mod wire;

pub use clock::{Announcing, Course, TickDone, Winding, tick, time_worker, wind_up};
pub use ending::print_end;
pub use lat_history::{
    Blanks, Cell, CellFault, LineShare, Receipt, SeatFault, Seen, Shares, Stage,
};
pub use lat_past::Past;
pub use lat_turns::LineDone;
pub use logging::{Heading, LogWriter, log_worker};
pub use telling::halt;
pub use wire::{hear, wire_worker};
