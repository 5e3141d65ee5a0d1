//! The talk with a daemon.

use crate::answer::{Answer, is_whole};
use std::alloc::Global;
use std::io::{self, ErrorKind, Read, Write};
use std::net::Net;
use std::os::unix::net::UnixStream;

/// How many bytes are read at once.
const PIECE_BYTES: usize = 16_384;

/// The most reads of one answer.
const MOST_READS: usize = 2_097_152;

/// Why an answer isn't there.
#[derive(Clone, Copy)]
pub enum TalkFault {
    /// It broke off.
    Broken,
    /// No memory was found for it.
    Memory,
}

/// A talk with a daemon.
#[derive(Drop)]
pub struct Talk {
    stream: UnixStream,
}

impl Talk {
    /// Connects to the socket at this path.
    pub fn open<R: Net>(rt: &R, path: &str) -> io::Result<Talk> {
        let stream = UnixStream::connect(rt, path)?;
        Ok(Talk { stream })
    }

    // Reads once, behind what was read.
    fn read_on(&mut self, bytes: &mut Vec<u8>) -> Result<(), TalkFault> {
        let mut buf = [0; PIECE_BYTES];
        match self.stream.read(buf.as_mut_slice()) {
            Ok(0) => Err(TalkFault::Broken),
            Ok(count) => match bytes.extend_from_slice(&buf[..count]) {
                Ok(()) => Ok(()),
                Err(_) => Err(TalkFault::Memory),
            },
            Err(error) if error.kind() == ErrorKind::Interrupted => Ok(()),
            Err(_) => Err(TalkFault::Broken),
        }
    }

    /// Gives a line, and reads its answer. A daemon that serves eight others has said so and hung up, and then the line can't be
    /// written: what it said is the answer.
    pub fn ask(&mut self, alloc: Global, line: &str) -> Result<Answer, TalkFault> {
        let _ = self.stream.write_all(line.as_bytes());
        let mut bytes = Vec::new(alloc);
        for _ in 0..MOST_READS {
            self.read_on(&mut bytes)?;
            if is_whole(bytes.as_slice()) {
                return Ok(Answer::of(bytes));
            }
        }
        Err(TalkFault::Broken)
    }
}
