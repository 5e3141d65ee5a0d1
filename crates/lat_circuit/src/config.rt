//! What a circuit is made of.

use lat_base::{Addr, Name};
use lat_frames::Timing;

/// The two ends of a circuit, by address and name, and the numbers of its own end.
#[derive(Clone, Copy)]
pub struct CircuitConfig {
    /// The addresses of this end and of the other.
    pub own: Addr,
    pub peer: Addr,
    /// The names that STARTs state: of this end and of the other.
    pub name: Name,
    pub peer_name: Name,
    pub timing: Timing,
}
