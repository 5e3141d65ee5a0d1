//! Sessions that a server connects, and that a node accepts.

ghost use Rattle.std.specs.Prelude.{◌≡◌, ℕ, ◌≤◌, ◌+◌, ◌&&◌, true, false, [], map, length, None, IfOk, OnOk, OnErr};
ghost use Rattle.lat_model.specs.ends.End.{lives};
ghost use Rattle.lat_model.specs.sessions.Calls.{Connect, RejectAsk};
ghost use Rattle.lat_model.specs.sessions.Session.{waits};
ghost use Rattle.lat_model.specs.sessions.Sessions.{named, least_free};
ghost use Rattle.lat_machines.specs.values.Addresses.{address};
ghost use Rattle.lat_machines.specs.cores.Cores.{Core};
ghost use Rattle.lat_machines.specs.cores.Lines.{has_session};
ghost use Rattle.lat_machines.specs.server.Server.{ServerConfig, server_side, has_room, can_open, opens};
ghost use Rattle.lat_queue.specs.Histories.{key_shown, some_key};
ghost use Rattle.lat_payload.specs.Frames.{Emits};
ghost use Rattle.lat_frames.specs.Timings.{IsTiming};
ghost use Rattle.lat_lines.specs.circuits.Kept.{side_of as circuits_side, next_id, HasRooms, IsClear, SameCore, SameCircuits, has_id};
ghost use Rattle.lat_lines.specs.circuits.Stands.{calling, Simulates, Stands as CircuitsStand};
ghost use Rattle.lat_lines.specs.circuits.Info.{telling};
ghost use Rattle.lat_lines.specs.circuits.Living.{has_room_at};
ghost use Rattle.lat_lines.specs.Later.{Leads, asked_for};
ghost use Rattle.lat_lines.specs.Kept.{side_of, SameLines, IsLine};
ghost use Rattle.lat_lines.specs.Stands.{Stands, freed_between, session_shown};
ghost use Rattle.lat_lines.specs.Opens.{opening, way, IsWay, reaches, reached, seated_core, session_begun, accepted_core, request_of};

use crate::circuits::{CIRCUITS, Circuits, Info};
use crate::getters::seat_of;
use crate::lines::Lines;
use crate::seat::Seat;
use lat_base::{Addr, LineSession, Name, OutBox};
use lat_queue::Key;

/// Why no session can be had with a station.
#[derive(Clone, Copy)]
pub enum OpenFault {
    /// The circuit to it holds as many sessions as were agreed.
    SessionsFull,
    /// As many circuits live as may.
    CircuitsFull,
    /// No circuit id is left.
    IdsOut,
}

impl Lines {
    /// Whether a session with a station can be had, on its living circuit or by calling one.
    pub fn can_open(&self, peer: Addr) -> bool
        ensures { (c : Core) → Stands self.now c → result ≡ can_open c (address peer.0) }
    {
        self.opening(peer).is_ok()
    }

    // The living circuit to a station, `None` where one is to be called; or why no session can be had.
    fn opening(&self, peer: Addr) -> Result<Option<u16>, OpenFault>
        ensures way { (c : Core) → Stands self.now c → result ≡ way c (address peer.0) }
        ensures open { IfOk result (IsWay self.now.circuits) }
    {
        match self.circuits.to(peer) {
            Some(circuit) if self.circuits.has_room(circuit) => Ok(Some(circuit)),
            Some(_) => Err(OpenFault::SessionsFull),
            None if self.circuits.living() >= CIRCUITS => Err(OpenFault::CircuitsFull),
            None if self.circuits.drawn() == u16::MAX => Err(OpenFault::IdsOut),
            None => Ok(None),
        }
    }

    /// Connects a line without a session to a station whose node has this name, for a request where a key is given: on the
    /// living circuit to it, or on one that is called, with START in `out`. It gives the ids of circuit and session at this
    /// end. After a fault nothing has changed. At a server alone; no circuit that has ended may be held, and there must be
    /// memory for a circuit more (`reserve`).
    pub fn open(
        &mut self,
        line: u8,
        peer: Addr,
        node: &Name,
        service: &Name,
        key: Option<Key>,
        out: &mut OutBox,
    ) -> Result<(u16, u8), OpenFault>
        requires server { self.old.circuits.server ≡ true }
        requires clear { IsClear self.old.circuits }
        requires memory { HasRooms 1 self.old.circuits }
        requires line { IsLine self.old.lines line }
        requires room { length out.old + 16 ≤ 256 }
        ensures opened { (config : ServerConfig) (c : Core) →
            server_side config ≡ side_of self.old →
            Stands self.old c →
            has_session c line ≡ false →
            OnOk result (Stands self.new
            (opens config line (address peer.0) node.now service.now (some_key key)
            (request_of key) c).core
            × Emits (opens config line (address peer.0) node.now service.now (some_key key)
            (request_of key) c).frames out.old out.new) }
        ensures answer { (c : Core) → Stands self.old c → result ≡ opening c (address peer.0) }
        ensures err { OnErr result ((self.new ≡ self.old) × (out.new ≡ out.old)) }
        ensures same { SameLines self.old self.new }
        ensures clear { IsClear self.new.circuits }
        ensures moment { self.new.circuits.moment ≡ self.old.circuits.moment }
        ensures freed { OnOk result (self.new.freed ≡ []) }
        ensures rooms { length self.old.circuits.rooms ≤ length self.new.circuits.rooms + 1 }
        ensures most { length out.new ≤ length out.old + 1 }
    {
        let way = self.opening(peer)?;
        let circuit = reach(&mut self.circuits, way, peer, node, out);
        let request = request_in(&key);
        let session = connect(&mut self.circuits, circuit, service, request);
        self.reap();
        // An opening frees none.
        self.freed.clear();
        self.seat(line, key, circuit, session, *service, request);
        Ok((circuit, session))
    }

    /// Accepts the asked session of this id for a line without a session, at a node. `freed` tells then whose sessions became
    /// free.
    pub fn accept(&mut self, line: u8, circuit: u16, id: u8)
        requires node { self.old.circuits.server ≡ false }
        requires line { IsLine self.old.lines line }
        ensures state { (c : Core) →
            Stands self.old c →
            has_session c line ≡ false →
            lives (c.circuits.circuit_at circuit).end ≡ true →
            waits (named (c.circuits.circuit_at circuit).end.half.sessions id) ≡ true →
            Stands self.new (accepted_core (side_of self.old) line circuit id c) }
        ensures freed { (c : Core) →
            Stands self.old c →
            map key_shown self.new.freed
            ≡ freed_between c (accepted_core (side_of self.old) line circuit id c) }
        ensures same { SameLines self.old self.new }
    {
        let asked = self.circuits.asked_at(circuit, id);
        self.circuits.answer(circuit, id);
        // An answer ends no session and changes nothing that lines tell of theirs.
        self.rest();
        if let Some(asked) = asked {
            self.seat(line, None, circuit, id, asked.service, asked.request);
        }
    }

    /// Rejects the asked session of this id for a reason, 0 to 15, at a node. `freed` tells then whose sessions became free.
    pub fn reject(&mut self, circuit: u16, id: u8, reason: u8)
        requires reason { reason ≤ 15 }
        ensures state { (c : Core) →
            Stands self.old c →
            Stands self.new (calling (side_of self.old) circuit (RejectAsk id reason) c) }
        ensures freed { (c : Core) →
            Stands self.old c →
            map key_shown self.new.freed
            ≡ freed_between c (calling (side_of self.old) circuit (RejectAsk id reason) c) }
        ensures same { SameLines self.old self.new }
    {
        self.circuits.reject(circuit, id, reason);
        self.reap();
    }

    // The line, which has no session, has this one from now on, where its circuit is held: one that was asked for this service,
    // and may answer a request.
    fn seat(
        &mut self,
        line: u8,
        key: Option<Key>,
        circuit: u16,
        session: u8,
        service: Name,
        request: Option<u16>,
    )
        requires line { IsLine self.old.lines line }
        ensures state { (c : Core) (serial : ℕ) →
            Stands self.old c →
            has_session c line ≡ false →
            lives (c.circuits.circuit_at circuit).end ≡ true →
            Leads (c.circuits.circuit_at circuit).end.half.sessions session serial →
            asked_for (named (c.circuits.circuit_at circuit).end.half.sessions session) ≡ (service, request) →
            Stands self.new (seated_core c (record {
              line = line;
              circuit = circuit;
              id = session;
              serial = serial;
              key = some_key key;
            })) }
        ensures side { (c : Core) →
            Stands self.old c →
            has_session c line ≡ false →
            lives (c.circuits.circuit_at circuit).end ≡ true →
            (c.circuits.circuit_at circuit).end.half.sessions.master ≡ self.old.circuits.server }
        ensures lines { self.new.lines ≡ self.old.lines }
        ensures circuits { self.new.circuits ≡ self.old.circuits }
        ensures freed { self.new.freed ≡ self.old.freed }
    {
        if seat_of(self.seats.as_slice(), line).is_some() {
            return;
        }
        if let Some(info) = self.circuits.info(circuit, session) {
            self.made = self.made.saturating_add(1);
            let session = begun(self.made, circuit, session, service, request, info);
            self.seats.push_reserved(Seat { line, key, session });
        }
    }
}

// The living circuit to a station: this one, or one that is called, where fewer than 8 live, an id is left, and there is
// memory for it.
fn reach(
    circuits: &mut Circuits,
    way: Option<u16>,
    peer: Addr,
    node: &Name,
    out: &mut OutBox,
) -> u16
    requires server { circuits.old.server ≡ true }
    requires clear { IsClear circuits.old }
    requires way { IsWay circuits.old way }
    requires memory { HasRooms 1 circuits.old }
    requires room { length out.old + 16 ≤ 256 }
    ensures did { Simulates (reaches (circuits_side circuits.old) (address peer.0) node.now way)
        circuits.old circuits.new out.old out.new }
    ensures id { result ≡ reached (next_id circuits.old) way }
    ensures free { has_room_at circuits.new result ≡ true }
    ensures timing { way ≡ None → IsTiming circuits.old.timing }
    ensures core { SameCore circuits.old circuits.new }
    ensures moment { circuits.new.moment ≡ circuits.old.moment }
    ensures clear { IsClear circuits.new }
    ensures held { (x : ℕ) → has_id x circuits.old ≡ true → has_id x circuits.new ≡ true }
    ensures rooms { length circuits.old.rooms ≤ length circuits.new.rooms + 1 }
    ensures most { length out.new ≤ length out.old + 1 }
{
    match way {
        Some(circuit) => circuit,
        None => circuits.call(peer, node, out),
    }
}

// Asks for a session on a living circuit with room, and gives its id.
fn connect(circuits: &mut Circuits, circuit: u16, service: &Name, request: Option<u16>) -> u8
    requires server { circuits.old.server ≡ true }
    requires room { has_room_at circuits.old circuit ≡ true }
    ensures id { (c : Core) →
        CircuitsStand circuits.old c →
        (lives (c.circuits.circuit_at circuit).end && has_room c circuit) ≡ true →
        result ≡ least_free (c.circuits.circuit_at circuit).end.half.sessions }
    ensures state { (c : Core) →
        CircuitsStand circuits.old c →
        CircuitsStand circuits.new (calling (circuits_side circuits.old) circuit (Connect service.now request) c) }
    ensures same { SameCircuits circuits.old circuits.new }
    ensures clear { IsClear circuits.old → IsClear circuits.new }
{
    let Ok(session) = circuits.connect(circuit, service, request) else {
        unreachable!()
    };
    session
}

// What is known of a line session at its beginning.
fn begun(
    number: u64,
    circuit: u16,
    session: u8,
    service: Name,
    request: Option<u16>,
    info: Info,
) -> LineSession
    ensures value { session_shown result
        ≡ session_begun number circuit session service request (telling info) }
    ensures unended { result.end ≡ None }
{
    LineSession {
        number,
        peer: info.peer,
        service,
        request,
        circuit,
        session,
        peer_circuit: info.peer_circuit,
        peer_session: info.peer_session,
        given: info.given,
        used: info.used,
        end: None,
    }
}

// The number of the request that a session is granted for.
fn request_in(key: &Option<Key>) -> Option<u16>
    ensures { result ≡ request_of key.now }
{
    match key {
        Some(key) => Some(key.request),
        None => None,
    }
}
