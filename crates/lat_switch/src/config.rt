//! What a switch is made of.

use lat_base::{Addr, Name};
use lat_lines::Timing;

/// What a switch is made of. Valid where it has 1 to 8 lines, the timing is valid, and the id of its first circuit isn't 0. It
/// has no offers.
#[derive(Clone, Copy)]
pub struct SwitchConfig {
    /// Its address.
    pub own: Addr,
    pub name: Name,
    /// How many lines it has. Each has four inner lines.
    pub lines: u8,
    /// The mask of the groups that it listens to: bit g mod 8 of byte g / 8 is that of group g.
    pub groups: [u8; 32],
    pub timing: Timing,
    /// Whether it tells a station at once that its RUN names no circuit that lives here.
    pub prompt: bool,
    /// The id of its first circuit, 1 to 65,535.
    pub first: u16,
}
