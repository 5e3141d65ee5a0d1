//! What a line of a capture says.

use lat_base::Bytes;

/// A payload of a capture, of any length.
pub struct Entry {
    /// Whether the circuit's master sent it.
    pub by_master: bool,
    pub payload: Bytes,
}

impl Drop for Entry {
    fn drop(self) {
        let Self { by_master, payload } = self;
    }
}
