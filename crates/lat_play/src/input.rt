//! The input of the program's next runs, as it is put together.

ghost use Rattle.std.specs.Prelude.{◌≤◌, length};

use lat_base::Memory;
use std::alloc::Global;

/// The input of the program's next runs: lines of text.
#[derive(Drop)]
pub struct Input {
    pub bytes: Vec<u8>,
}

// Where the line of this number begins, counted from 1; the end where there is none.
fn line_at(bytes: &[u8], number: u64) -> usize
    ensures { result ≤ length bytes.now }
{
    let mut feeds = number.saturating_sub(1);
    for (at, byte) in bytes.iter().enumerate() {
        if feeds == 0 {
            return at;
        }
        if *byte == b'\n' {
            feeds -= 1;
        }
    }
    bytes.len()
}

impl Input {
    /// Nothing.
    pub fn new(alloc: Global) -> Input {
        Input {
            bytes: Vec::new(alloc),
        }
    }

    /// Puts a text behind it.
    pub fn put(&mut self, text: &str) -> Result<(), Memory> {
        Ok(self.bytes.extend_from_slice(text.as_bytes())?)
    }

    /// Puts a text and a line feed behind it, so often.
    pub fn repeat(&mut self, count: u64, text: &str) -> Result<(), Memory> {
        for _ in 0..count {
            self.put(text)?;
            self.bytes.push(b'\n')?;
        }
        Ok(())
    }

    /// Keeps the first lines alone.
    pub fn keep(&mut self, lines: u64) {
        let end = line_at(&self.bytes, lines.saturating_add(1));
        self.bytes.truncate(end);
    }

    /// Puts a text in the place of the line of this number, counted from 1.
    pub fn replace(&mut self, alloc: Global, number: u64, text: &str) -> Result<(), Memory> {
        let begin = line_at(&self.bytes, number);
        let end = line_at(&self.bytes, number.saturating_add(1));
        let mut bytes = Vec::new(alloc);
        bytes.extend_from_slice(&self.bytes[..begin])?;
        bytes.extend_from_slice(text.as_bytes())?;
        bytes.push(b'\n')?;
        bytes.extend_from_slice(&self.bytes[end..])?;
        self.bytes = bytes;
        Ok(())
    }
}
