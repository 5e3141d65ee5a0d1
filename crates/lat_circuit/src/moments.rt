//! The moments that a circuit looks back at.

ghost use Rattle.std.specs.Prelude.{◌≡◌};

/// Moments of one end of a circuit, in milliseconds. None is later than `now`, the latest that it was given.
#[derive(Clone, Copy)]
pub struct Moments {
    pub now: u64,
    /// When the timer was last due.
    pub due_at: u64,
    /// When a frame of the circuit was last heard.
    pub heard_at: u64,
    /// When one was last sent.
    pub sent_at: u64,
    /// The latest of the last new acknowledgement, the last round, and the forming of the first unacknowledged message.
    pub since: u64,
    /// When START was last sent.
    pub start_at: u64,
    /// Since when there is no session.
    pub empty_at: u64,
}

impl Moments {
    /// Those of a master that is called now.
    pub(crate) fn called(now: u64) -> Moments
        ensures { result ≡ record {
          now = now;
          due_at = now;
          heard_at = 0;
          sent_at = now;
          since = 0;
          start_at = now;
          empty_at = 0;
        } }
    {
        Moments {
            now,
            due_at: now,
            heard_at: 0,
            sent_at: now,
            since: 0,
            start_at: now,
            empty_at: 0,
        }
    }

    /// Those of a slave that answers now.
    pub(crate) fn answered(now: u64) -> Moments
        ensures { result ≡ record {
          now = now;
          due_at = now;
          heard_at = now;
          sent_at = now;
          since = now;
          start_at = 0;
          empty_at = now;
        } }
    {
        Moments {
            now,
            due_at: now,
            heard_at: now,
            sent_at: now,
            since: now,
            start_at: 0,
            empty_at: now,
        }
    }
}
