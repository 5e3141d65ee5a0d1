//! The answer to a command.

use crate::status::Status;

/// Whether these bytes are an answer with the empty line behind it.
pub fn is_whole(bytes: &[u8]) -> bool {
    bytes == b"\n".as_slice() || bytes.ends_with(b"\n\n")
}

/// A whole answer.
#[derive(Drop)]
pub struct Answer {
    bytes: Vec<u8>,
}

impl Answer {
    /// The answer of these bytes, which end with the empty line.
    pub fn of(bytes: Vec<u8>) -> Answer {
        Answer { bytes }
    }

    /// Its lines, without the empty one behind them.
    pub fn text(&self) -> &[u8] {
        match self.bytes.as_slice().split_last() {
            Some((_, text)) => text,
            None => &[],
        }
    }

    /// Whether the command was done: an answer that begins with `?` or `no line`, and `busy`, say that it wasn't.
    pub fn status(&self) -> Status {
        let text = self.text();
        if text.starts_with(b"?") || text.starts_with(b"no line") || text == b"busy\n".as_slice() {
            return Status::Refused;
        }
        Status::Done
    }
}
