//! The run of a schedule.

ghost use Rattle.std.specs.Prelude.{◌≡◌, ◌++◌, OnOk, string_bytes};
ghost use Rattle.lat_trace.specs.Courses.{stop_status};
ghost use Rattle.lat_trace.specs.TraceText.{last_line};

use crate::entries::Entries;
use lat_node::RatingRule;
use lat_schedule::Schedule;
use lat_wire::{Refused, Wire, refused_onto};
use std::alloc::AllocError;

/// The event that was refused.
#[derive(Clone, Copy)]
pub struct Stop {
    /// Its line in the text of the schedule, counted from 1.
    pub line: u64,
    pub why: Refused,
}

/// A schedule that was played: up to its end, or up to the first event that was refused.
pub struct Run<H: RatingRule> {
    pub schedule: Schedule,
    /// What happened at each event that wasn't refused.
    pub entries: Entries,
    /// The event that was refused, if one was.
    pub stop: Option<Stop>,
    /// Both ends behind the last of these events, with all frames that either sent.
    pub wire: Wire<H>,
}

impl<H: RatingRule> Drop for Run<H> {
    fn drop(self) {
        let Self {
            schedule,
            entries,
            stop,
            wire,
        } = self;
    }
}

/// Adds the last line of a run: `done`, or why its last event is refused.
pub(crate) fn last_onto(text: &mut String, stop: Option<Stop>) -> Result<(), AllocError>
    ensures { OnOk result (string_bytes text.new ≡ string_bytes text.old ++ last_line stop) }
{
    match stop {
        Some(stop) => refused_onto(text, stop.line, stop.why),
        None => text.push_str("done\n"),
    }
}

impl<H: RatingRule> Run<H> {
    /// The status of what is told of it: 0, or that of the refused event.
    pub fn status(&self) -> u8
        ensures { result ≡ stop_status self.now.stop }
    {
        match self.stop {
            Some(stop) => stop.why.status(),
            None => 0,
        }
    }
}
