//! What holds of the node machine, as contracts of functions that take nothing.

ghost use Rattle.lat_machines.specs.world.Home.{NodeStaysHome};
ghost use Rattle.lat_node.specs.Laws.{RatingsTellFullness, FramesAreMachines};

use crate::hook::RatingRule;
use crate::node::NodeCore;

/// A heard frame leaves each living circuit whose peer has another address as it was.
pub fn heard_stays_home()
    ensures { NodeStaysHome }
{}

/// Each rating of an announcement or a response is 0 exactly where all lines were held when it was made, whatever the rule.
pub fn ratings_tell_fullness<H: RatingRule>()
    ensures { RatingsTellFullness H.may H.fact }
{}

/// Whatever the rule, what goes out at an event are the machine's frames with as many ratings as it asks for, each one that the
/// rule may give of some service at the lines then held.
pub fn frames_are_machines<H: RatingRule>()
    ensures { FramesAreMachines H.may }
{}

/// A node may go to another thread where its rule of rating may.
pub fn is_send<H: RatingRule + Send>() {
    sent::<NodeCore<H>>();
}

// It may be called where values of the type may go to another thread.
fn sent<T: Send>() {}
