//! What lines tell. No call takes memory.

ghost use Rattle.std.specs.Prelude.{◌≡◌, ◌≤◌, ◌&&◌, true, false, not, cond, nat_eq};
ghost use Rattle.std.specs.Prelude.{length, filter, find, Some, None, IfSome};
ghost use Rattle.std.specs.Option.{option_map};
ghost use Rattle.lat_base.specs.declared.addr.Addr.{Addr};
ghost use Rattle.lat_model.specs.Lists.{least, upwards};
ghost use Rattle.lat_model.specs.circuits.Arriving.{living};
ghost use Rattle.lat_model.specs.ends.End.{lives};
ghost use Rattle.lat_model.specs.sessions.Session.{waits};
ghost use Rattle.lat_machines.specs.values.Addresses.{address};
ghost use Rattle.lat_machines.specs.cores.Books.{book};
ghost use Rattle.lat_machines.specs.cores.Cores.{Core, span};
ghost use Rattle.lat_machines.specs.cores.Hearing.{names};
ghost use Rattle.lat_machines.specs.cores.Lines.{has_session, used, ended, saturated_count, line_exists, line_state, waiting_at};
ghost use Rattle.lat_machines.specs.cores.Looks.{line_look, newest, number_in, end_in, correspondent, correspondent_in, circuit_in_place, room_at, is_drained, ids_left};
ghost use Rattle.lat_session.specs.States.{asked_at};
ghost use Rattle.lat_stream.specs.Kept.{state_of, saturated};
ghost use Rattle.lat_circuit.specs.Looks.{line_look_of, correspondent_of, circuit_look_of};
ghost use Rattle.lat_lines.specs.circuits.Kept.{has_id};
ghost use Rattle.lat_lines.specs.circuits.Info.{sessions_at, session_at, some_span};
ghost use Rattle.lat_lines.specs.circuits.Opens.{id_or_zero};
ghost use Rattle.lat_lines.specs.Kept.{side_of, IsLine};
ghost use Rattle.lat_lines.specs.Answers.{ready};
ghost use Rattle.lat_lines.specs.Stands.{Stands, book_shown, book_info, end_shown, session_shown, session_info};
ghost use Rattle.lat_lines.specs.Peers.{newest_peer};
ghost use Rattle.lat_lines.specs.declared.seat.Seat.{Seat};

use crate::lines::Lines;
use crate::seat::Seat;
use lat_base::{
    Addr, CircuitLook, Correspondent, LineBook, LineLook, LineSession, Name, SessionEnd,
    SessionState,
};
use lat_circuit::Asked;
use lat_seq::Span;

impl Lines {
    /// The core's moment, in milliseconds.
    pub fn moment(&self) -> u64
        ensures value { result ≡ self.now.circuits.moment }
        ensures model { (c : Core) → Stands self.now c → result ≡ c.moment }
    {
        self.circuits.moment()
    }

    /// The core's name.
    pub fn name(&self) -> Name
        ensures { result ≡ self.now.circuits.name }
    {
        self.circuits.name()
    }

    /// How many lines there are, 1 to 64.
    pub fn count(&self) -> u8
        ensures value { result ≡ self.now.lines }
        ensures some { (1 ≤ result) × (result ≤ 64) }
    {
        self.count
    }

    /// Whether there is a line of this number: they are numbered from 1.
    pub fn exists(&self, line: u8) -> bool
        ensures value { result ≡ line_exists self.now.lines line }
    {
        line >= 1 && line <= self.count
    }

    /// Whether the line has a session.
    pub fn has_session(&self, line: u8) -> bool
        ensures { (c : Core) → Stands self.now c → result ≡ has_session c line }
    {
        seat_of(self.seats.as_slice(), line).is_some()
    }

    /// How many lines have a session.
    pub fn used(&self) -> u16
        ensures value { result ≤ self.now.lines }
        ensures model { (c : Core) → Stands self.now c → result ≡ used c }
    {
        self.seats.len() as u16
    }

    /// How many sessions lines have had. It stops at the greatest number of 64 bits.
    pub fn made(&self) -> u64
        ensures { (c : Core) → Stands self.now c → result ≡ saturated (length c.seats) }
    {
        self.made
    }

    /// How many line sessions are over. It stops at the greatest number of 32 bits.
    pub fn finished(&self) -> u32
        ensures { (c : Core) → Stands self.now c → result ≡ saturated_count (ended c) }
    {
        self.finished
    }

    /// What is told of a line in one look. A line that there isn't shows as one that never had a session.
    pub fn look(&self, line: u8) -> LineLook
        ensures waiting { result.waiting ≡ ready self.now line }
        ensures model { (c : Core) → Stands self.now c →
            result ≡ line_look_of (line_look (side_of self.now) c line) }
    {
        let session = self.newest(line);
        LineLook {
            newest: number_of(&session),
            state: self.state(line),
            waiting: self.waiting(line),
            room: self.room(line),
            end: end_of(&session),
        }
    }

    /// Whom the newest session of a line is or was with, and what for. `None` exactly where the line never had one, or where
    /// there is no such line.
    pub fn correspondent(&self, line: u8) -> Option<Correspondent>
        ensures { (c : Core) → Stands self.now c →
            result ≡ option_map correspondent_of (correspondent c line) }
    {
        self.newest(line).map(whom)
    }

    /// How many circuits live, at most 8.
    pub fn living(&self) -> u8
        ensures { (c : Core) → Stands self.now c → result ≡ living c.circuits }
    {
        self.circuits.living() as u8
    }

    /// Whether on each circuit that lives all sessions are free or left, and the peer has taken all messages.
    pub fn is_drained(&self) -> bool
        ensures { (c : Core) → Stands self.now c → result ≡ is_drained c }
    {
        self.circuits.is_drained()
    }

    /// How many ids of circuits are left: 65,535 less those that were drawn.
    pub fn ids_left(&self) -> u16
        ensures { (c : Core) → Stands self.now c → result ≡ ids_left c }
    {
        u16::MAX - self.circuits.drawn()
    }

    /// The circuit that lives at this place of the order of ids, counted from 0. `None` exactly behind the last.
    pub fn circuit(&self, at: usize) -> Option<CircuitLook>
        ensures { (c : Core) → Stands self.now c →
            result ≡ option_map circuit_look_of (circuit_in_place c at) }
    {
        self.circuits.look(at)
    }

    // The state of the line's session: `Free` where it has none.
    fn state(&self, line: u8) -> SessionState
        ensures { (c : Core) → Stands self.now c →
            result ≡ state_of (line_state (side_of self.now) c line) }
    {
        match seat_of(self.seats.as_slice(), line) {
            Some(seat) => self
                .circuits
                .state(seat.session.circuit, seat.session.session),
            None => SessionState::Free,
        }
    }

    // How many heard items a take on this line could give now, 0 where it would be refused.
    fn waiting(&self, line: u8) -> u16
        ensures value { result ≡ ready self.now line }
        ensures model { (c : Core) → Stands self.now c → result ≡ waiting_at c line }
    {
        match seat_of(self.seats.as_slice(), line) {
            Some(seat) => self
                .circuits
                .waiting(seat.session.circuit, seat.session.session),
            None => 0,
        }
    }

    // How many bytes a put on this line could take now, 0 where it would be refused.
    fn room(&self, line: u8) -> u16
        ensures { (c : Core) → Stands self.now c → result ≡ room_at c line }
    {
        match seat_of(self.seats.as_slice(), line) {
            Some(seat) => self
                .circuits
                .room(seat.session.circuit, seat.session.session),
            None => 0,
        }
    }

    // The present session of a line, or the last one where it has none.
    fn newest(&self, line: u8) -> Option<LineSession>
        ensures { (c : Core) → Stands self.now c →
            option_map session_shown result ≡ option_map session_info (newest c line) }
    {
        if !self.exists(line) {
            return None;
        }
        let LineBook { present, last } = self.book(line);
        present.or(last)
    }

    /// The last two sessions of a line, which must exist.
    pub fn book(&self, line: u8) -> LineBook
        requires { IsLine self.now.lines line }
        ensures { (c : Core) → Stands self.now c → book_shown result ≡ book_info (book c line) }
    {
        LineBook {
            present: seat_of(self.seats.as_slice(), line).map(|seat| seat.session),
            last: self.last[line as usize - 1],
        }
    }

    /// The station that the newest session of a line is or was with, `None` where it never had one. The line must exist.
    pub fn newest_peer(&self, line: u8) -> Option<Addr>
        requires { IsLine self.now.lines line }
        ensures { (c : Core) → Stands self.now c →
            option_map (λ (a : Addr). address a.0) result ≡ newest_peer c line }
    {
        let LineBook { present, last } = self.book(line);
        present.or(last).map(|session| session.peer)
    }

    /// The least line without a session, `None` where each has one.
    pub fn free_line(&self) -> Option<u8>
        ensures model { (c : Core) →
            Stands self.now c →
            id_or_zero result
            ≡ least (λ line. not (has_session c line)) (upwards 0 self.now.lines) }
        ensures line { IfSome result (λ line. IsLine self.now.lines line) }
    {
        (1..self.count + 1).find(|line| !self.has_session(*line))
    }

    /// Whether a RUN from a station with these ids names a living circuit whose reply was heard.
    pub fn names(&self, from: Addr, to: u16, source: u16) -> bool
        ensures { (c : Core) → Stands self.now c →
            result ≡ names c.circuits (address from.0) to source }
    {
        self.circuits.names(from, to, source)
    }

    /// How far the message numbers of a circuit count, `None` exactly where no circuit of this id lives.
    pub fn span(&self, circuit: u16) -> Option<Span>
        ensures { (c : Core) → Stands self.now c → result ≡ some_span (span c circuit) }
    {
        self.circuits.span(circuit)
    }

    /// Whether a circuit of this id lives.
    pub fn lives(&self, circuit: u16) -> bool
        ensures { (c : Core) → Stands self.now c →
            result ≡ lives (c.circuits.circuit_at circuit).end }
    {
        self.circuits.lives(circuit)
    }

    /// The session of an id where it waits for this end's answer on a living circuit, at a node.
    pub fn asked_at(&self, circuit: u16, id: u8) -> Option<Asked>
        ensures { (c : Core) →
            Stands self.now c →
            self.now.circuits.server ≡ false →
            result ≡ cond (lives (c.circuits.circuit_at circuit).end
            && waits (session_at c circuit id))
            (Some (asked_at (sessions_at c circuit) id))
            None }
    {
        self.circuits.asked_at(circuit, id)
    }

    /// How many sessions of a held circuit wait for this end's answer, or did when it ended, at a node.
    pub fn asked_count(&self, circuit: u16) -> u8
        ensures { (c : Core) →
            Stands self.now c →
            self.now.circuits.server ≡ false →
            has_id circuit self.now.circuits ≡ true →
            result ≡ length (filter (λ id. waits (session_at c circuit id)) (upwards 0 64)) }
    {
        self.circuits.asked_count(circuit)
    }
}

// The number of a line's newest session, 0 where it never had one.
fn number_of(newest: &Option<LineSession>) -> u64
    ensures { result ≡ number_in (option_map session_shown newest.now) }
{
    match newest {
        Some(session) => session.number,
        None => 0,
    }
}

// How a line's newest session ended.
fn end_of(newest: &Option<LineSession>) -> Option<SessionEnd>
    ensures { option_map end_shown result ≡ end_in (option_map session_shown newest.now) }
{
    match newest {
        Some(session) => session.end,
        None => None,
    }
}

// Whom a session is or was with, and what for.
fn whom(session: LineSession) -> Correspondent
    ensures { result ≡ correspondent_of (correspondent_in (session_shown session)) }
{
    Correspondent {
        peer: session.peer,
        service: session.service,
        request: session.request,
    }
}

// The session of a line, as it is kept.
pub(crate) fn seat_of(seats: &[Seat], line: u8) -> Option<Seat>
    ensures { result ≡ find (λ (s : Seat). nat_eq s.line line) seats.now }
{
    seats.iter().find(|seat| seat.line == line).copied()
}
