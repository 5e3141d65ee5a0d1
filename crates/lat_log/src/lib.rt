//! What a daemon's log says, as values and as lines of text, and what of an event is logged, from what a core shows behind it.
//! `docs/FORMATS.md`, "The log", has the lines. No entry has a byte that a caller or a host sent through a session.
#![tactic(auto)]

mod bad_rate;
mod circuits;
mod daemon;
mod entry;
mod hint;
mod journal;
mod laws;
mod left;
mod line;
mod lines;
mod news;
mod offers;
mod page;
mod seen;
mod services;
mod sessions;
mod sight;
mod stamp;
mod trigger;
mod waiting;
mod watch;
mod why;

pub use bad_rate::{BadRate, BadTold};
pub use entry::{
    CallerNews, Cause, Circuit, CircuitNews, Entry, Flow, Offered, OfferedNews, Over, Request,
    RequestNews, Role, Session, SessionNews,
};
pub use hint::Hint;
pub use journal::Journal;
pub use laws::{few_are_said_once, services_are_silent, unchanged_is_silent};
pub use left::Left;
pub use line::{level_of, line_onto};
pub use news::News;
pub use page::{PAGE_ENTRIES, Page, Stamped};
pub use seen::{LineSeen, LineSight, Reached, SessionSeen, Side, Waiting};
pub use trigger::{Trigger, bad_of, concerns_lists};
pub use watch::Watch;
