//! What a command comes to.

ghost use Rattle.std.specs.Prelude.{◌≡◌, None, Some};

use crate::before::Before;
use lat_node::RatingRule;
use lat_replay::World;

/// The status of a command, the text that it writes, and the world that it made, where it made one and answers 0.
pub(crate) struct Outcome<H: RatingRule> {
    pub(crate) status: u8,
    pub(crate) text: String,
    pub(crate) world: Option<World<H>>,
    /// The last event that a core refused in front of one that names no frame.
    pub(crate) before: Option<Before>,
}

impl<H: RatingRule> Outcome<H> {
    /// A status and a text alone.
    pub(crate) fn plain(status: u8, text: String) -> Outcome<H>
        ensures { result ≡ record { status = status; text = text; world = None; before = None } }
    {
        Outcome {
            status,
            text,
            world: None,
            before: None,
        }
    }

    /// The same, with the last event that a core refused before.
    pub(crate) fn stopped(status: u8, text: String, before: Option<Before>) -> Outcome<H>
        ensures { result ≡ record { status = status; text = text; world = None; before = before } }
    {
        Outcome {
            status,
            text,
            world: None,
            before,
        }
    }

    /// Status 0, and a text with the world that it tells of.
    pub(crate) fn done(text: String, world: World<H>) -> Outcome<H>
        ensures { result ≡ record { status = 0; text = text; world = Some world; before = None } }
    {
        Outcome {
            status: 0,
            text,
            world: Some(world),
            before: None,
        }
    }
}
