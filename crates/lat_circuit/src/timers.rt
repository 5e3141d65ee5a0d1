//! What is due at the latest moment of a circuit.

ghost use Rattle.std.specs.Prelude.{◌≡◌, ◌+◌, ◌≤◌, ◌&&◌, ◌||◌, ◌*◌, nat_le, not, true};
ghost use Rattle.lat_model.specs.ends.End.{End, all_known};
ghost use Rattle.lat_model.specs.ends.Timers.{passed, silent, unused, may_form};
ghost use Rattle.lat_circuit.specs.Stands.{Stands};

use crate::circuit::Circuit;

/// How long messages wait for an acknowledgement, and a START for its reply, until they go out again, in milliseconds.
const REPEAT: u64 = 1000;

// Whether so many milliseconds have passed since a moment.
fn passed(since: u64, ms: u64, now: u64) -> bool
    requires { since ≤ now }
    ensures { result ≡ nat_le (since + ms) now }
{
    now - since >= ms
}

impl Circuit {
    /// Whether it runs, and has heard no frame for three times the keep-alive.
    pub(crate) fn is_silent(&self) -> bool
        ensures { (e : End) → Stands self.now e → result ≡ silent e }
    {
        let time = 3000 * u64::from(self.keepalive);
        let is_over = passed(self.moments.heard_at, time, self.moments.now);
        self.running && is_over
    }

    /// Whether it is a master that runs, and has held no session for the keep-alive.
    pub(crate) fn is_unused(&self) -> bool
        ensures { (e : End) → Stands self.now e → result ≡ unused e }
    {
        self.keepalive_is_over(self.moments.empty_at) && !self.is_held()
    }

    /// Whether messages are unacknowledged, and it is time that they go out again.
    pub(crate) fn repeats_are_due(&self) -> bool
        ensures { (e : End) → Stands self.now e →
            result ≡ (not (all_known e) && passed e.since 1000 e) }
    {
        let is_over = passed(self.moments.since, REPEAT, self.moments.now);
        let waits = !self.all_known();
        waits && is_over
    }

    /// Whether it is time that START goes out again.
    pub(crate) fn start_is_due(&self) -> bool
        ensures { (e : End) → Stands self.now e → result ≡ passed e.start_at 1000 e }
    {
        passed(self.moments.start_at, REPEAT, self.moments.now)
    }

    /// Whether the timer is due.
    pub(crate) fn timer_is_due(&self) -> bool
        ensures { (e : End) → Stands self.now e → result ≡ passed (e.due_at) (10 * e.timer) e }
    {
        let time = 10 * u64::from(self.timer);
        passed(self.moments.due_at, time, self.moments.now)
    }

    /// Whether it is a master that runs, and has sent nothing for the keep-alive.
    pub(crate) fn answer_is_due(&self) -> bool
        ensures model { (e : End) → Stands self.now e →
            result ≡ (e.master && e.running && passed e.sent_at (1000 * e.keepalive) e) }
        ensures running { result ≡ true → self.now.running ≡ true }
    {
        self.keepalive_is_over(self.moments.sent_at)
    }

    // Whether it is a master that runs, and the keep-alive has passed since a moment.
    fn keepalive_is_over(&self, since: u64) -> bool
        requires { since ≤ self.now.moments.now }
        ensures model { (e : End) → Stands self.now e →
            result ≡ (e.master && e.running && passed since (1000 * e.keepalive) e) }
        ensures running { result ≡ true → self.now.running ≡ true }
    {
        let time = 1000 * u64::from(self.keepalive);
        let is_over = passed(since, time, self.moments.now);
        let master = self.is_master();
        master && self.running && is_over
    }

    /// Whether a due timer gives it an occasion: a slave only once it has heard a RUN.
    pub(crate) fn may_form(&self) -> bool
        ensures value { result ≡ (self.now.running
            && (self.now.facts.master || self.now.heard_run)) }
        ensures model { (e : End) → Stands self.now e → result ≡ may_form e }
    {
        let master = self.is_master();
        self.running && (master || self.heard_run)
    }
}
