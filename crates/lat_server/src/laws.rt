//! What holds of the server machine, as contracts of functions that take nothing.

ghost use Rattle.lat_machines.specs.world.Home.{ServerHearsAtHome, ServerStaysHome};

use crate::server::ServerCore;

/// A heard frame leaves each living circuit whose peer has another address as it was (`hearing`), but for the sessions that
/// the grants after the event connect (`step`).
pub fn heard_stays_home()
    ensures hearing { ServerHearsAtHome }
    ensures step { ServerStaysHome }
{}

/// A server may go to another thread.
pub fn is_send() {
    sent::<ServerCore>();
}

// It may be called where values of the type may go to another thread.
fn sent<T: Send>() {}
