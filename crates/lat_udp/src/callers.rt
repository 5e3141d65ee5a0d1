//! A line's callers over TCP.

ghost use Rattle.std.specs.Prelude.{◌≡◌, ◌≤◌, option_map, IfOk};
ghost use Rattle.lat_outside.specs.Visits.{no_visits};

use crate::connection::Connection;
use crate::fault::{WAIT_MS, is_quiet, more};
use lat_outside::{CALLER_BYTES, CallerGot, Callers, Failed, Knock, Presence, Visit};
use lat_tale::Tale;
use std::io;
use std::net::{Ipv4Addr, Net, SocketAddr, SocketAddrV4, TcpListener, TcpStream};
use std::time::Duration;

/// How long a dial waits for an answer, in milliseconds.
const DIAL_MS: u64 = 1000;

/// How many a call turns away at most.
const MOST_TURNED_AWAY: usize = 16;

/// A port that is listened at, on the loopback address.
#[derive(Drop)]
pub struct Listening {
    port: u16,
    socket: TcpListener,
}

// No read waits, and a write no longer than 10 ms.
fn prepare(stream: &TcpStream) -> io::Result<()> {
    stream.set_nonblocking(true)?;
    stream.set_write_timeout(Some(Duration::from_millis(WAIT_MS)))?;
    stream.set_nodelay(true)
}

// Who answers at this port within a second. A connection that answers itself is nobody's: the system may give the calling end the
// very port that it dials, where nobody listens there.
fn answered<R: Net<Listener = TcpListener, Stream = TcpStream>>(
    rt: &R,
    port: u16,
) -> io::Result<TcpStream> {
    let at = SocketAddr::V4(SocketAddrV4::new(Ipv4Addr::LOCALHOST, port));
    let stream = TcpStream::connect_timeout(rt, &at, Duration::from_millis(DIAL_MS))?;
    if stream.local_addr()? == at {
        return Err(io::ErrorKind::ConnectionRefused.into());
    }
    prepare(&stream)?;
    Ok(stream)
}

impl Listening {
    /// Listens at this port from now on.
    pub fn open<R: Net<Listener = TcpListener, Stream = TcpStream>>(
        rt: &R,
        port: u16,
    ) -> io::Result<Listening>
        ensures { IfOk result (λ listening. listening.port ≡ port) }
    {
        let socket = TcpListener::bind(rt, (Ipv4Addr::LOCALHOST, port))?;
        socket.set_nonblocking(true)?;
        Ok(Listening { port, socket })
    }

    // Who knocks.
    fn knock(&self) -> io::Result<Option<TcpStream>> {
        match self.socket.accept() {
            Ok((stream, _)) => {
                prepare(&stream)?;
                Ok(Some(stream))
            }
            Err(error) if is_quiet(error.kind()) => Ok(None),
            Err(error) => Err(error),
        }
    }

    // Closes who knocks, and tells whether somebody did.
    fn close_one(&self) -> bool {
        self.socket.accept().is_ok()
    }

    // Closes who knock, and answers how many.
    fn close_all(&self) -> usize
        ensures { result ≤ 16 }
    {
        for count in 0..MOST_TURNED_AWAY {
            if !self.close_one() {
                return count;
            }
        }
        MOST_TURNED_AWAY
    }
}

/// A line's callers over TCP, on the loopback address: who come to its port, if it listens at one, and who are dialled. A caller's
/// descriptor is freed when it is hung up.
#[derive(Drop)]
pub struct TcpCallers<R: Net<Listener = TcpListener, Stream = TcpStream> + Drop> {
    rt: R,
    listening: Option<Listening>,
    dials: Tale<u16>,
    over: Tale<Visit>,
    beside: Option<Connection<TcpStream>>,
    present: Option<Connection<TcpStream>>,
    faults: u64,
}

impl<R: Net<Listener = TcpListener, Stream = TcpStream> + Drop> TcpCallers<R> {
    /// A line without a caller, which listens so, if at all. Its count of faults is 0.
    pub fn new(rt: R, listening: Option<Listening>) -> TcpCallers<R>
        ensures visits { ⟦<TcpCallers<R> as Callers>⟧.visits result ≡ no_visits (option_map (λ l. l.port) listening) }
        ensures faults { ⟦<TcpCallers<R> as Callers>⟧.faults result ≡ 0 }
    {
        TcpCallers {
            rt,
            listening,
            dials: Tale::new(),
            over: Tale::new(),
            beside: None,
            present: None,
            faults: 0,
        }
    }
}

impl<R: Net<Listener = TcpListener, Stream = TcpStream> + Drop> Callers for TcpCallers<R> {
    ghost use Rattle.std.specs.Prelude.{option_map};

    ghost visits = { λ c. record {
      port = option_map (λ l. l.port) c.listening;
      dials = c.dials.items;
      over = c.over.items;
      beside = option_map (λ g. g.visit) c.beside;
      present = option_map (λ g. g.visit) c.present;
    } };

    ghost faults = { λ c. c.faults };

    fn accept(&mut self) -> Result<Knock, Failed> {
        if self.present.is_some() {
            return Ok(Knock::Quiet);
        }
        let Some(listening) = &self.listening else {
            return Ok(Knock::Quiet);
        };
        match listening.knock() {
            Ok(None) => Ok(Knock::Quiet),
            Ok(Some(stream)) => {
                self.present = Some(Connection::new(stream, None));
                Ok(Knock::Came)
            }
            Err(_) => {
                more(&mut self.faults);
                Err(Failed)
            }
        }
    }

    fn dial(&mut self, port: u16) -> Result<(), Failed> {
        self.dials = self.dials.and(&port);
        if self.beside.is_none()
            && let Ok(stream) = answered(&self.rt, port)
        {
            self.beside = self.present.take();
            self.present = Some(Connection::new(stream, Some(port)));
            return Ok(());
        }
        more(&mut self.faults);
        Err(Failed)
    }

    fn read(&mut self, buf: &mut [u8; CALLER_BYTES]) -> Result<CallerGot, Failed> {
        if let Some(caller) = &mut self.present
            && let Ok(got) = caller.read(buf)
        {
            return Ok(got);
        }
        more(&mut self.faults);
        Err(Failed)
    }

    fn write(&mut self, piece: &[u8]) -> Result<usize, Failed> {
        if let Some(caller) = &mut self.present
            && let Ok(count) = caller.write(piece)
        {
            return Ok(count);
        }
        more(&mut self.faults);
        Err(Failed)
    }

    fn watch(&mut self) -> Result<Presence, Failed> {
        if let Some(caller) = &mut self.present
            && let Ok(presence) = caller.watch()
        {
            return Ok(presence);
        }
        more(&mut self.faults);
        Err(Failed)
    }

    fn hang_up(&mut self) {
        if let Some(caller) = self.present.take() {
            let visit = caller.hang_up();
            self.over = self.over.and(&visit);
            self.present = self.beside.take();
        }
    }

    fn turn_away(&mut self) -> usize {
        match &self.listening {
            None => 0,
            Some(listening) => listening.close_all(),
        }
    }
}
