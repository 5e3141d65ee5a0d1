//! Who comes to the lines of daemons.

use std::io::{self, ErrorKind, Read, Write};
use std::net::{Ipv4Addr, Net, TcpListener, TcpStream};
use std::thread;
use std::time::{Clock, Duration};

/// Who came to a line at this port: a caller at a line of a server, or a host at one of a node. Who is turned away knocks again.
#[derive(Drop)]
pub struct End {
    port: u16,
    stream: TcpStream,
}

fn connected<R: Net<Listener = TcpListener, Stream = TcpStream> + Clock>(
    rt: &R,
    port: u16,
) -> io::Result<TcpStream> {
    for _ in 0..500 {
        if let Ok(stream) = TcpStream::connect(rt, (Ipv4Addr::LOCALHOST, port)) {
            stream.set_read_timeout(Some(Duration::from_millis(10)))?;
            return Ok(stream);
        }
        thread::sleep(rt, Duration::from_millis(10));
    }
    Err(ErrorKind::NotFound.into())
}

fn is_quiet(kind: ErrorKind) -> bool {
    matches!(kind, ErrorKind::WouldBlock | ErrorKind::TimedOut)
}

impl End {
    /// Who knocks at this port.
    pub fn at<R: Net<Listener = TcpListener, Stream = TcpStream> + Clock>(
        rt: &R,
        port: u16,
    ) -> io::Result<End> {
        Ok(End {
            port,
            stream: connected(rt, port)?,
        })
    }

    /// Says this byte, if the line is still there. Who was turned away is told when he hears.
    pub fn say(&mut self, byte: u8) {
        let _ = self.stream.write_all(&[byte]);
    }

    // Knocks again.
    fn knock<R: Net<Listener = TcpListener, Stream = TcpStream> + Clock>(
        &mut self,
        rt: &R,
    ) -> io::Result<()> {
        self.stream = connected(rt, self.port)?;
        Ok(())
    }

    /// A byte that comes within some time, and whether he was turned away and has knocked again.
    pub fn hear<R: Net<Listener = TcpListener, Stream = TcpStream> + Clock>(
        &mut self,
        rt: &R,
    ) -> io::Result<(Option<u8>, bool)> {
        let mut bytes = [0; 1];
        match self.stream.read(&mut bytes) {
            Ok(1) => Ok((bytes.first().copied(), false)),
            Err(error) if is_quiet(error.kind()) => Ok((None, false)),
            _ => {
                self.knock(rt)?;
                Ok((None, true))
            }
        }
    }
}
