//! What a start says.

use lat_base::Name;

/// What the start of a session says: the service, and the request that it answers, where it has one.
#[derive(Clone, Copy)]
pub struct Opening {
    pub service: Name,
    pub request: Option<u16>,
}
