//! What payloads are read as.

use lat_frames::Message;
use lat_notices::Notice;

/// What a payload is.
#[derive(Drop)]
pub enum Value {
    /// A message of a circuit.
    Circuit(Message),
    /// A notice, which stands outside circuits.
    Notice(Notice),
}
