//! The ids of a circuit.

/// The ids of a circuit, as one of its ends knows them.
#[derive(Clone, Copy)]
pub struct Ids {
    /// Whether this end is the circuit's master.
    pub master: bool,
    /// The circuit's id at the peer.
    pub to: u16,
    /// The circuit's id at this end.
    pub from: u16,
}
