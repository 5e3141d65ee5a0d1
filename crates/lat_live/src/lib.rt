//! A daemon: it reads its words, opens the carrier and the lines, runs the workers of a cell in threads, and prints what came
//! of it. See "Workers" in docs/PROTOCOL.md, and "The daemon's words" in docs/FORMATS.md.
#![tactic(auto)]

mod cores;
mod daemon;
mod lines;
mod lists;
mod logging;
mod opening;
mod plan;
mod post;
mod ran;
mod rated;
mod refusal;
mod roles;
mod running;
mod said;
mod seats;
mod serving;

pub use daemon::serve;
pub use lat_cell::print_end;
pub use lists::{Ends, Lines};
pub use logging::Log;
pub use opening::{PortOf, Refused, StartFault};
pub use plan::{LinePlan, Plan, Post};
pub use ran::{Ran, Served};
pub use rated::{RateRule, tariff_of};
pub use refusal::refused_text;
pub use seats::Given;
pub use serving::{CoreServed, serve_core};
