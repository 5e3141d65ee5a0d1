//! A client over a Unix socket.

ghost use Rattle.std.specs.Prelude.{◌≡◌, ◌≤◌, ◌↔◌, [], IsTrue, IfOk};
ghost use Rattle.std.specs.declared.io.ErrorKind.{ErrorKind};
ghost use Rattle.lat_outside.specs.Causes.{Rose};
ghost use Rattle.lat_control.specs.Clients.{IsFresh, IsQuiet};

use crate::client::Client;
use lat_outside::{CALLER_BYTES, CallerGot, Failed};
use lat_tale::Tale;
use std::io::{self, ErrorKind, Read, Write};
use std::os::unix::net::UnixStream;

/// One more fault. The count stops at its greatest number.
pub(crate) fn more(faults: &mut u64)
    ensures { (faults.old ≤ faults.new) × Rose faults.old faults.new }
{
    *faults = faults.saturating_add(1);
}

/// Whether a call failed only because it would have waited, or was interrupted.
pub(crate) fn is_quiet(kind: ErrorKind) -> bool
    ensures { IsTrue result ↔ IsQuiet kind }
{
    matches!(kind, ErrorKind::WouldBlock | ErrorKind::Interrupted)
}

/// A client over a Unix socket. No call waits: a write takes what is taken at once.
#[derive(Drop)]
pub struct UnixClient {
    stream: UnixStream,
    given: Tale<u8>,
    written: Tale<u8>,
    faults: u64,
}

impl UnixClient {
    /// A client who has just come.
    pub(crate) fn make(stream: UnixStream) -> io::Result<UnixClient>
        ensures { IfOk result (λ client. IsFresh (⟦<UnixClient as Client>⟧.given client) (⟦<UnixClient as Client>⟧.written client)) }
    {
        stream.set_nonblocking(true)?;
        Ok(UnixClient {
            stream,
            given: Tale::new(),
            written: Tale::new(),
            faults: 0,
        })
    }
}

impl Client for UnixClient {
    ghost given = { λ c. c.given.items };

    ghost written = { λ c. c.written.items };

    ghost faults = { λ c. c.faults };

    fn read(&mut self, buf: &mut [u8; CALLER_BYTES]) -> Result<CallerGot, Failed> {
        match self.stream.read(buf.as_mut_slice()) {
            Ok(0) => Ok(CallerGot::Ended),
            Ok(count) => {
                self.given.push_all(&buf[..count]);
                Ok(CallerGot::Bytes(count))
            }
            Err(error) if is_quiet(error.kind()) => Ok(CallerGot::Quiet),
            Err(_) => {
                more(&mut self.faults);
                Err(Failed)
            }
        }
    }

    fn write(&mut self, piece: &[u8]) -> Result<usize, Failed> {
        match self.stream.write(piece) {
            Ok(count) => {
                self.written.push_all(&piece[..count]);
                Ok(count)
            }
            Err(error) if is_quiet(error.kind()) => Ok(0),
            Err(_) => {
                more(&mut self.faults);
                Err(Failed)
            }
        }
    }
}
