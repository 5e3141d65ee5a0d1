//! How a run ends.

ghost use Rattle.std.specs.Prelude.{◌≡◌, ◌≢◌, ◌⊎◌, ◌≤◌, None};
ghost use Rattle.lat_outside.specs.Causes.{Rose};
ghost use Rattle.lat_cmd.specs.Answers.{Answer, HandsBack};
ghost use Rattle.lat_cmd.specs.Outcomes.{WritesAnswer};

use lat_node::RatingRule;
use lat_outside::{Sink, write_all};
use lat_replay::World;

/// What a run ended with: its status, and the world behind the last event, where it made one and its status is 0.
#[derive(Drop)]
pub struct RunEnd<H: RatingRule> {
    pub status: u8,
    pub world: Option<World<H>>,
}

impl<H: RatingRule> RunEnd<H> {
    /// A status alone.
    pub(crate) fn of(status: u8) -> RunEnd<H>
        ensures { result ≡ record { status = status; world = None } }
    {
        RunEnd {
            status,
            world: None,
        }
    }
}

/// Writes the text, and ends with the status and the world, or with 5 alone where it couldn't be written.
pub(crate) fn end_with<H: RatingRule, K: Sink>(
    out: &mut K,
    status: u8,
    text: &str,
    world: Option<World<H>>,
) -> RunEnd<H>
    requires { status ≢ 5 }
    ensures tells { (a : Answer) →
        status ≡ a.status →
        text.now ≡ a.text →
        HandsBack a.world world →
        WritesAnswer a result (K.written out.old) (K.written out.new) }
    ensures status { (result.status ≡ status) ⊎ (result.status ≡ 5) }
    ensures fault { result.status ≡ 5 → Rose (K.faults out.old) (K.faults out.new) }
    ensures later { K.faults out.old ≤ K.faults out.new }
{
    match write_all(out, text.as_bytes()) {
        Ok(()) => RunEnd { status, world },
        Err(_) => RunEnd::of(5),
    }
}
