//! What a node is made of.

use lat_base::{Addr, Bytes, Name};
use lat_lines::Timing;
use lat_queue::Services16;

/// What a node is made of. Valid where it has 1 to 64 lines, its timer is at least 1, the mask has at most 32 bytes, the timing
/// is valid, and the id of its first circuit isn't 0.
pub struct NodeConfig {
    /// Its address.
    pub own: Addr,
    pub name: Name,
    /// Which run of the node it is.
    pub incarnation: u16,
    /// How many lines it has.
    pub lines: u8,
    /// The services that it offers.
    pub services: Services16,
    /// After how many seconds the next announcement is due, as announcements and responses state it.
    pub timer: u8,
    /// The mask of its announcements: bit g mod 8 of byte g / 8 is that of group g. An empty one is for every server.
    pub groups: Bytes,
    pub timing: Timing,
    /// Whether it tells a stranger at once that his circuit doesn't live here, and takes a START that follows for the end of the
    /// slaves before it. See "How a circuit ends" in docs/PROTOCOL.md.
    pub prompt: bool,
    /// The id of its first circuit, 1 to 65,535; the next ones follow it, 1 behind 65,535. See "Circuits" in
    /// docs/PROTOCOL.md.
    pub first: u16,
}

impl Drop for NodeConfig {
    fn drop(self) {
        let Self {
            own,
            name,
            incarnation,
            lines,
            services,
            timer,
            groups,
            timing,
            prompt,
            first,
        } = self;
    }
}
