//! Those at the lines of daemons, and what they do, one thing after another.

use std::alloc::Global;
use std::io::{self, ErrorKind, Read, Write};
use std::net::{Ipv4Addr, Net, TcpListener, TcpStream};
use std::thread;
use std::time::{Clock, Duration};

/// How long a read waits, and each try of a connection, in milliseconds.
const TRY_MS: u64 = 10;

/// How many tries are ten seconds.
const TRIES: u32 = 1000;

/// What somebody at a line does, or what happens to him.
#[derive(Clone, Copy, Drop)]
pub enum Deed {
    /// He says these bytes.
    Says(&'static [u8]),
    /// He says these bytes so many times, up to the first that aren't taken.
    Pours(&'static [u8], u32),
    /// These bytes are what comes to him next.
    Hears(&'static [u8]),
    /// Within so many milliseconds he is hung up, and nothing comes to him before.
    IsHungUp(u32),
}

/// A step of a scene. Who is who is told by a number.
#[derive(Clone, Copy, Drop)]
pub enum Step {
    /// He comes to this port, and knocks until somebody listens there.
    Comes(usize, u16),
    /// He comes to this port, says these bytes and hears those, and comes anew until he does.
    Reaches(usize, u16, &'static [u8], &'static [u8]),
    /// Whoever knocks at this port is turned away at once.
    IsTurnedAway(u16),
    /// A host listens at this port.
    Listens(usize, u16),
    /// The host of this number is dialled; who is at its end of the connection has the other number.
    IsDialled(usize, usize),
    /// He does this.
    Does(usize, Deed),
    /// He hangs up.
    Leaves(usize),
}

/// Who is there, by their numbers.
#[derive(Drop)]
pub struct Stage {
    streams: Vec<Option<TcpStream>>,
    hosts: Vec<Option<TcpListener>>,
}

// A connection to this port, once somebody listens there.
fn connected<R: Net<Listener = TcpListener, Stream = TcpStream> + Clock>(
    rt: &R,
    port: u16,
) -> io::Result<TcpStream> {
    for _ in 0..TRIES {
        if let Ok(stream) = TcpStream::connect(rt, (Ipv4Addr::LOCALHOST, port)) {
            stream.set_read_timeout(Some(Duration::from_millis(TRY_MS)))?;
            return Ok(stream);
        }
        thread::sleep(rt, Duration::from_millis(TRY_MS));
    }
    Err(ErrorKind::NotFound.into())
}

fn is_quiet(kind: ErrorKind) -> bool {
    matches!(kind, ErrorKind::WouldBlock | ErrorKind::TimedOut)
}

/// What a read brings within some time.
#[derive(Clone, Copy, Drop, PartialEq)]
enum Came {
    Byte(u8),
    Nothing,
    End,
}

// What the next read of a byte brings, tried so many times.
fn next(stream: &mut TcpStream, tries: u32) -> Came {
    for _ in 0..tries {
        let mut byte = [0; 1];
        match stream.read(&mut byte) {
            Ok(1) => return Came::Byte(byte[0]),
            Err(error) if is_quiet(error.kind()) => {}
            _ => return Came::End,
        }
    }
    Came::Nothing
}

// Says these bytes so many times, up to the first that aren't taken.
fn pours(stream: &mut TcpStream, bytes: &[u8], times: u32) -> bool {
    if stream
        .set_write_timeout(Some(Duration::from_millis(TRY_MS)))
        .is_err()
    {
        return false;
    }
    for _ in 0..times {
        if stream.write_all(bytes).is_err() {
            return true;
        }
    }
    true
}

// Whether these bytes are what comes next.
fn hears(stream: &mut TcpStream, bytes: &[u8]) -> bool {
    bytes
        .iter()
        .all(|byte| next(stream, TRIES) == Came::Byte(*byte))
}

// Whether this is done, or happens.
fn is_done(stream: &mut TcpStream, deed: Deed) -> bool {
    match deed {
        Deed::Says(bytes) => stream.write_all(bytes).is_ok(),
        Deed::Pours(bytes, times) => pours(stream, bytes, times),
        Deed::Hears(bytes) => hears(stream, bytes),
        Deed::IsHungUp(ms) => next(stream, ms / 10) == Came::End,
    }
}

// Whether whoever knocks at this port is turned away.
fn is_turned_away<R: Net<Listener = TcpListener, Stream = TcpStream> + Clock>(
    rt: &R,
    port: u16,
) -> io::Result<bool> {
    let mut stream = connected(rt, port)?;
    Ok(next(&mut stream, TRIES) == Came::End)
}

// Who comes to this port, says these bytes and hears those, once he does.
fn reached<R: Net<Listener = TcpListener, Stream = TcpStream> + Clock>(
    rt: &R,
    port: u16,
    says: &[u8],
    hears_then: &[u8],
) -> io::Result<Option<TcpStream>> {
    for _ in 0..TRIES {
        let mut stream = connected(rt, port)?;
        if stream.write_all(says).is_ok() && hears(&mut stream, hears_then) {
            return Ok(Some(stream));
        }
        thread::sleep(rt, Duration::from_millis(TRY_MS));
    }
    Ok(None)
}

// The connection of whoever dials this host, within some time.
fn dialled<R: Net<Listener = TcpListener, Stream = TcpStream> + Clock>(
    rt: &R,
    host: &TcpListener,
) -> io::Result<Option<TcpStream>> {
    for _ in 0..TRIES {
        match host.accept() {
            Ok((stream, _)) => {
                stream.set_nonblocking(false)?;
                stream.set_read_timeout(Some(Duration::from_millis(TRY_MS)))?;
                return Ok(Some(stream));
            }
            Err(_) => thread::sleep(rt, Duration::from_millis(TRY_MS)),
        }
    }
    Ok(None)
}

// Puts what comes at this place of a list of as many as are there.
fn put<T: Drop>(all: &mut [Option<T>], at: usize, new: Option<T>) -> bool {
    let is_there = new.is_some();
    match all.get_mut(at) {
        Some(place) => {
            *place = new;
            is_there
        }
        None => false,
    }
}

impl Stage {
    /// Nobody is there. Numbers go up to seven.
    pub fn new(alloc: Global) -> io::Result<Stage> {
        let mut stage = Stage {
            streams: Vec::new(alloc),
            hosts: Vec::new(alloc),
        };
        for _ in 0..8 {
            stage.streams.push(None)?;
            stage.hosts.push(None)?;
        }
        Ok(stage)
    }

    /// Whether this is done, or happens.
    pub fn does<R: Net<Listener = TcpListener, Stream = TcpStream> + Clock>(
        &mut self,
        rt: &R,
        step: Step,
    ) -> io::Result<bool> {
        Ok(match step {
            Step::Comes(who, port) => {
                let stream = connected(rt, port)?;
                put(self.streams.as_mut_slice(), who, Some(stream))
            }
            Step::Reaches(who, port, says, hears) => {
                let stream = reached(rt, port, says, hears)?;
                put(self.streams.as_mut_slice(), who, stream)
            }
            Step::Listens(host, port) => {
                let listener = TcpListener::bind(rt, (Ipv4Addr::LOCALHOST, port))?;
                listener.set_nonblocking(true)?;
                put(self.hosts.as_mut_slice(), host, Some(listener))
            }
            Step::IsDialled(host, who) => match self.hosts.get(host) {
                Some(Some(listener)) => {
                    let stream = dialled(rt, listener)?;
                    put(self.streams.as_mut_slice(), who, stream)
                }
                _ => false,
            },
            Step::IsTurnedAway(port) => is_turned_away(rt, port)?,
            Step::Does(who, deed) => match self.streams.get_mut(who) {
                Some(Some(stream)) => is_done(stream, deed),
                _ => false,
            },
            Step::Leaves(who) => {
                put(self.streams.as_mut_slice(), who, None);
                true
            }
        })
    }

    /// How many of these steps are done one after another, up to the first one that isn't.
    pub fn plays<R: Net<Listener = TcpListener, Stream = TcpStream> + Clock>(
        &mut self,
        rt: &R,
        steps: &[Step],
    ) -> io::Result<usize> {
        for (at, step) in steps.iter().enumerate() {
            if !self.does(rt, *step)? {
                return Ok(at);
            }
        }
        Ok(steps.len())
    }
}
