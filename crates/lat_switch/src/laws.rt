//! What holds of switches, as contracts of functions that take nothing.

ghost use Rattle.lat_switch.specs.Runs.{InnerEventsAreARun};
ghost use Rattle.lat_switch.specs.Shown.{ShownInOrder};

use crate::switch::SwitchCore;

/// Whatever a switch is told, its server has done the inner events of all of it in order, and the switch's frames are theirs.
pub fn inner_events_are_a_run()
    ensures { InnerEventsAreARun }
{}

/// Whatever a switch is told from its opening on, of each session that it ever had: what takes gave of it while it was shown is
/// all that was taken of it, and the bytes that puts consumed while it was shown, without the keys, are all that were put on
/// it; both in order.
pub fn shown_in_order()
    ensures { ShownInOrder }
{}

/// A switch may go to another thread.
pub fn is_send() {
    sent::<SwitchCore>();
}

// It may be called where values of the type may go to another thread.
fn sent<T: Send>() {}
