//! What is told of a request.

use crate::key::Key;
use lat_base::{Kept, Name};

/// The record of a request: its key and service as first heard, what is kept of it now, and the number of its grant,
/// counted from 1 over all services (None where it was never granted).
#[derive(Clone, Copy)]
pub struct Record {
    pub key: Key,
    pub service: Name,
    pub kept: Kept,
    pub grant: Option<u32>,
}
