//! Where the node is, and the times of a circuit.

use lat_base::Addr;
use lat_lines::Timing;

/// Where the node is.
pub const NODE: Addr = Addr([0xaa, 0x00, 0x04, 0x00, 0x02, 0x04]);

/// What a circuit is offered.
pub const USUAL: Timing = Timing {
    timer: 8,
    keepalive: 20,
    sessions: 8,
    extra: 7,
    ceiling: 4,
    wide: false,
};
