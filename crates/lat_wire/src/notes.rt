//! The events that the report notes.

use crate::report::Noted;

/// An event that was noted, counted from 1.
#[derive(Clone, Copy)]
pub struct Note {
    pub event: u64,
    pub noted: Noted,
}
