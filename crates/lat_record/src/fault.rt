//! Why a text isn't read.

/// Why no record is read.
#[derive(Clone, Copy, Debug)]
pub enum RecordFault {
    /// The line of this number, counted from 1, is no record's.
    Form { line: usize },
    /// No memory was found.
    Memory,
}
