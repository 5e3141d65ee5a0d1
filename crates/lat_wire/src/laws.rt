//! What holds of every wire, as contracts of functions that take nothing.

ghost use Rattle.lat_wire.specs.Stands.{WorldsAreSafe};

use lat_node::RatingRule;

/// Of every world that a wire stands for all laws of the two machines hold: both ends agree, frames are true, none breaks a
/// circuit, the queue is legal, and no grant is left open.
pub fn worlds_are_safe<H: RatingRule>()
    ensures { WorldsAreSafe H }
{}
