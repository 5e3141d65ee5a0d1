//! A line over TCP.

ghost use Rattle.std.specs.Prelude.{◌≡◌, ◌≤◌, None};

use crate::fault::{WAIT_MS, is_quiet, more};
use lat_outside::{Failed, LineEnd, LineGot};
use std::io::{Read, Write};
use std::net::TcpStream;
use std::thread;
use std::time::{Clock, Duration};

/// One accepted connection, whose reads wait for 10 ms. It tells no bytes.
#[derive(Drop)]
pub struct TcpLine<R: Clock + Drop> {
    rt: R,
    stream: TcpStream,
    faults: u64,
}

impl<R: Clock + Drop> TcpLine<R> {
    /// A line over this connection. Its count of faults is 0.
    pub fn new(rt: R, stream: TcpStream) -> TcpLine<R>
        ensures { result.faults ≡ 0 }
    {
        TcpLine {
            rt,
            stream,
            faults: 0,
        }
    }
}

impl<R: Clock + Drop> LineEnd for TcpLine<R> {
    ghost left = { λ line. None };

    ghost written = { λ line. None };

    ghost faults = { λ line. line.faults };

    fn read(&mut self, buf: &mut [u8]) -> Result<LineGot, Failed> {
        match self.stream.read(buf) {
            Ok(0) => Ok(LineGot::End),
            Ok(count) => Ok(LineGot::Bytes(count)),
            Err(error) => {
                if is_quiet(error.kind()) {
                    return Ok(LineGot::Quiet);
                }
                more(&mut self.faults);
                Err(Failed)
            }
        }
    }

    fn write(&mut self, piece: &[u8]) -> Result<usize, Failed> {
        match self.stream.write(piece) {
            Ok(count) => {
                if count == 0 && !piece.is_empty() {
                    more(&mut self.faults);
                }
                Ok(count)
            }
            Err(_) => {
                more(&mut self.faults);
                Err(Failed)
            }
        }
    }

    fn pause(&mut self) {
        thread::sleep(&self.rt, Duration::from_millis(WAIT_MS));
    }
}
