//! What is carried of a job.

ghost use Rattle.std.specs.Prelude.{◌≡◌};
ghost use Rattle.lat_jobs.specs.declared.mind.JobMind.{JobMind};

use lat_jobs::JobMind;

/// What is carried of a job from hand to hand: its mind, its client, and what was read or taken for it.
pub trait Load: Drop {
    // Its mind.
    ghost mind_of: { Self → JobMind };

    /// The job's mind.
    fn mind(&self) -> JobMind
        ensures { result ≡ mind_of self.now };
}
