//! One caller's connection.

ghost use Rattle.std.specs.Prelude.{◌≡◌, ◌≤◌, [], length, false, IfOk};
ghost use Rattle.std.specs.Io.KnownBytes.{Consumes, Keeps, WriteAppends};
ghost use Rattle.lat_outside.specs.Visits.{GaveWithin, GivesAs, StaysAs, TakesAs, fresh_visit, read_by, watched_by, written_by};
ghost use Rattle.lat_udp.specs.Aheads.{got_bytes, waiting};

use crate::ahead::{Ahead, Filled};
use crate::fault::is_quiet;
use lat_outside::{CALLER_BYTES, CallerGot, Failed, Presence, Standing, Visit};
use std::io::{Read, Write};
use std::marker::Model;
use std::net::{OpenStream, Shutdown};

/// How many reads a hang-up makes at most to clear what its caller had still sent.
const LAST_READS: usize = 64;

/// A caller's connection, whose stream is non-blocking and has a time-out for writes. Contracts see the stream, what was read ahead
/// of it, whether it couldn't be made non-blocking again, and the caller's visit.
#[derive(Drop)]
pub struct Connection<S: Read + Write + OpenStream + Drop> {
    stream: S,
    ahead: Ahead,
    broken: bool,
    visit: Visit,
}

impl<S: Read + Write + OpenStream + Drop> Model for Connection<S> {
    ghost use Rattle.lat_udp.specs.Aheads.{ConnectionView};

    ghost Value = { ConnectionView S };

    ghost view = { λ a. record {
      stream = a.stream;
      ahead = a.ahead;
      broken = a.broken;
      visit = a.visit;
    } };
}

impl<S: Read + Write + OpenStream + Drop> Connection<S> {
    /// The connection of a caller who has just come: to the line's port, or dialled at this one.
    pub fn new(stream: S, dialled: Option<u16>) -> Connection<S>
        ensures { result ≡ record { stream = stream; ahead = []; broken = false; visit = fresh_visit dialled } }
    {
        Connection {
            stream,
            ahead: Ahead::new(),
            broken: false,
            visit: Visit::new(dialled),
        }
    }

    // It can be used no more.
    fn fail(&mut self) -> Failed
        ensures { self.new ≡ record self.old { visit = record self.old.visit { standing = Standing.Failed } } }
    {
        self.visit.set_standing(Standing::Failed);
        Failed
    }

    // It gives no more.
    fn end(&mut self) -> CallerGot
        ensures visit { self.new ≡ record self.old { visit = record self.old.visit { standing = Standing.Ended } } }
        ensures ended { result ≡ CallerGot.Ended }
    {
        self.visit.set_standing(Standing::Ended);
        CallerGot::Ended
    }

    // None was read ahead: the stream is read.
    fn read_on(&mut self, buf: &mut [u8; CALLER_BYTES]) -> Result<CallerGot, Failed>
        ensures bound { IfOk result (λ got. GaveWithin got 1024) }
        ensures visit { self.new.visit ≡ read_by result buf.new self.old.visit }
        ensures bytes { Consumes (S.remaining self.old.stream) (S.remaining self.new.stream) (got_bytes result buf.new) }
        ensures ahead { self.new.ahead ≡ self.old.ahead }
    {
        match self.stream.read(buf.as_mut_slice()) {
            Ok(0) => Ok(self.end()),
            Ok(count) => {
                self.visit.gave(&buf[..count]);
                Ok(CallerGot::Bytes(count))
            }
            Err(error) if is_quiet(error.kind()) => Ok(CallerGot::Quiet),
            Err(_) => Err(self.fail()),
        }
    }

    /// As `Callers::read`. What was read ahead comes first; no byte is lost, and none comes twice.
    pub fn read(&mut self, buf: &mut [u8; CALLER_BYTES]) -> Result<CallerGot, Failed>
        ensures bound { IfOk result (λ got. GaveWithin got 1024) }
        ensures visit { self.new.visit ≡ read_by result buf.new self.old.visit }
        ensures bytes { Consumes (waiting self.old.ahead (S.remaining self.old.stream))
            (waiting self.new.ahead (S.remaining self.new.stream)) (got_bytes result buf.new) }
        ensures may { GivesAs self.old.visit.standing result }
    {
        match self.visit.standing() {
            Standing::Failed => return Err(self.fail()),
            Standing::Ended => return Ok(self.end()),
            Standing::Stays | Standing::Leaves => {}
        }
        let count = self.ahead.take(buf);
        if count > 0 {
            self.visit.gave(&buf[..count]);
            return Ok(CallerGot::Bytes(count));
        }
        if self.visit.standing() == Standing::Leaves {
            return Ok(self.end());
        }
        if self.broken {
            return Err(self.fail());
        }
        self.read_on(buf)
    }

    /// As `Callers::watch`. What it reads ahead isn't lost.
    pub fn watch(&mut self) -> Result<Presence, Failed>
        ensures visit { self.new.visit ≡ watched_by result self.old.visit }
        ensures bytes { Consumes (waiting self.old.ahead (S.remaining self.old.stream))
            (waiting self.new.ahead (S.remaining self.new.stream)) [] }
        ensures may { StaysAs self.old.visit.standing result }
    {
        match self.visit.standing() {
            Standing::Failed => return Err(self.fail()),
            Standing::Leaves | Standing::Ended => return Ok(Presence::Leaves),
            Standing::Stays => {}
        }
        if self.broken {
            return Err(self.fail());
        }
        match self.ahead.fill(&mut self.stream) {
            Filled::Goes => Ok(Presence::Stays),
            Filled::Ended => {
                self.visit.set_standing(Standing::Leaves);
                Ok(Presence::Leaves)
            }
            Filled::Failed => Err(self.fail()),
        }
    }

    // Writes once, and answers how many bytes the stream took.
    fn write_once(&mut self, piece: &[u8]) -> Result<usize, Failed>
        ensures bound { IfOk result (λ n. n ≤ length piece.now) }
        ensures bytes { WriteAppends (S.contents self.old.stream) (S.contents self.new.stream) result piece.now }
        ensures same { (self.new.visit ≡ self.old.visit) × (self.new.ahead ≡ self.old.ahead) × (self.new.broken ≡ self.old.broken) }
    {
        match self.stream.write(piece) {
            Ok(count) => Ok(count),
            Err(error) if is_quiet(error.kind()) => Ok(0),
            Err(_) => Err(Failed),
        }
    }

    // Writes once, and waits for at most the stream's time-out until all is taken.
    fn write_waiting(&mut self, piece: &[u8]) -> Result<usize, Failed>
        ensures bound { IfOk result (λ n. n ≤ length piece.now) }
        ensures bytes { WriteAppends (S.contents self.old.stream) (S.contents self.new.stream) result piece.now }
        ensures same { (self.new.visit ≡ self.old.visit) × (self.new.ahead ≡ self.old.ahead) }
    {
        if self.stream.set_nonblocking(false).is_err() {
            return Ok(0);
        }
        let took = self.write_once(piece);
        self.broken = self.stream.set_nonblocking(true).is_err();
        took
    }

    // As much of the piece as is taken at once, and then of its rest.
    fn write_both(&mut self, piece: &[u8]) -> Result<usize, Failed>
        ensures bound { IfOk result (λ n. n ≤ length piece.now) }
        ensures bytes { WriteAppends (S.contents self.old.stream) (S.contents self.new.stream) result piece.now }
        ensures same { (self.new.visit ≡ self.old.visit) × (self.new.ahead ≡ self.old.ahead) }
    {
        let first = self.write_once(piece)?;
        if first == piece.len() {
            return Ok(first);
        }
        let (_, rest) = piece.split_at(first);
        match self.write_waiting(rest) {
            Ok(more) => Ok(first + more),
            Err(fault) if first == 0 => Err(fault),
            // the next call will fail again
            Err(_) => Ok(first),
        }
    }

    /// As `Callers::write`. The bytes that it answers are those that the stream took, in order.
    pub fn write(&mut self, piece: &[u8]) -> Result<usize, Failed>
        ensures bound { IfOk result (λ n. n ≤ length piece.now) }
        ensures visit { self.new.visit ≡ written_by result piece.now self.old.visit }
        ensures bytes { WriteAppends (S.contents self.old.stream) (S.contents self.new.stream) result piece.now }
        ensures may { TakesAs self.old.visit.standing result }
    {
        if self.visit.standing() == Standing::Failed || self.broken {
            return Err(self.fail());
        }
        match self.write_both(piece) {
            Ok(count) => {
                self.visit.wrote(&piece[..count]);
                Ok(count)
            }
            Err(_) => Err(self.fail()),
        }
    }

    /// Hangs up. What was written still goes out: nothing unread is left that would make the system reset the connection.
    pub fn hang_up(mut self) -> Visit
        ensures { result ≡ self.visit }
    {
        if !self.broken && self.stream.shutdown(Shutdown::Write).is_ok() {
            let mut place = [0; CALLER_BYTES];
            for _ in 0..LAST_READS {
                match self.stream.read(place.as_mut_slice()) {
                    Ok(count) if count > 0 => {}
                    _ => break,
                }
            }
        }
        self.visit
    }
}
