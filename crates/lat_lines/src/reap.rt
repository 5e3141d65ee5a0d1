//! What lines learn of their sessions after each act of the circuits.

ghost use Rattle.std.specs.Prelude.{◌≡◌, ◌≤◌, ◌<◌, ◌+◌, true, false, [], ◌∷◌, map, length, filter, is_none, vec_len, vec_capacity};
ghost use Rattle.std.specs.List.{AllZip};
ghost use Rattle.lat_model.specs.Lists.{Each};
ghost use Rattle.lat_model.specs.ends.End.{lives};
ghost use Rattle.lat_machines.specs.cores.Cores.{Core};
ghost use Rattle.lat_lines.specs.circuits.Stands as circuits;
ghost use Rattle.lat_lines.specs.Kept.{SameLines, IsLine};
ghost use Rattle.lat_lines.specs.Stands.{Seated, freed_between, session_shown};
ghost use Rattle.lat_lines.specs.Calm.{CoreCalm};
ghost use Rattle.lat_lines.specs.Cores.{CoreLater, Covers};
ghost use Rattle.lat_lines.specs.Looks.{Looks, session_closed, session_reviewed, last_after, finished_after, freed_after};
ghost use Rattle.lat_lines.specs.circuits.Info.{telling};
ghost use Rattle.lat_queue.specs.Histories.{key_shown};
ghost use Rattle.lat_lines.specs.declared.seat.Seat.{Seat};

use crate::circuits::{Circuits, Info};
use crate::lines::Lines;
use crate::seat::Seat;
use lat_base::{LineSession, SessionEnd};
use lat_queue::Key;

impl Lines {
    /// Looks at the session of each line: one that has become free, in any way, is the line's last one now.
    pub(crate) fn reap(&mut self)
        ensures state { (c d : Core) →
            Seated self.old c →
            Covers self.old →
            circuits.Stands self.old.circuits d →
            CoreLater c d →
            Seated self.new d × (map key_shown self.new.freed ≡ freed_between c d) }
        ensures same { SameLines self.old self.new }
        ensures circuits { self.new.circuits ≡ self.old.circuits }
    {
        let Lines {
            circuits,
            seats,
            last,
            finished,
            freed,
            ..
        } = self;
        look_all(seats.as_mut_slice(), circuits);
        freed.clear();
        note_all(seats.as_slice(), last.as_mut_slice(), finished, freed);
        keep_open(seats);
    }

    /// No session has become free, and lines know all of theirs.
    pub(crate) fn rest(&mut self)
        ensures { self.new ≡ record self.old { freed = [] } }
    {
        self.freed.clear();
    }

    /// Reaps, unless lines know all of their sessions.
    pub(crate) fn reap_unless(&mut self, is_calm: bool)
        ensures state { (c d : Core) →
            Seated self.old c →
            Covers self.old →
            circuits.Stands self.old.circuits d →
            CoreLater c d →
            lives (c.circuits.circuit_at 0).end ≡ false →
            (is_calm ≡ true → CoreCalm c d) →
            Seated self.new d × (map key_shown self.new.freed ≡ freed_between c d) }
        ensures same { SameLines self.old self.new }
        ensures circuits { self.new.circuits ≡ self.old.circuits }
    {
        if is_calm {
            self.rest();
        } else {
            self.reap();
        }
    }
}

fn look_all(seats: &mut [Seat], circuits: &Circuits)
    ensures { AllZip (Looks circuits.now) seats.old seats.new }
{
    for seat in seats.iter_mut() {
        seat.look(circuits);
    }
}

impl Seat {
    // Its session as it is told of now.
    fn look(&mut self, circuits: &Circuits)
        ensures { Looks circuits.now self.old self.new }
    {
        if let Some(info) = circuits.info(self.session.circuit, self.session.session) {
            self.session = if info.is_asked {
                closed(self.session, info)
            } else {
                reviewed(self.session, info)
            };
        }
    }
}

// Another session has its id already, which waits for this end's answer: it has become free by both stops.
fn closed(session: LineSession, info: Info) -> LineSession
    ensures { session_shown result ≡ session_closed (telling info) (session_shown session) }
{
    LineSession {
        peer: info.peer,
        peer_circuit: info.peer_circuit,
        end: Some(SessionEnd::Closed),
        ..session
    }
}

fn reviewed(session: LineSession, info: Info) -> LineSession
    ensures { session_shown result ≡ session_reviewed (telling info) (session_shown session) }
{
    LineSession {
        peer: info.peer,
        peer_circuit: info.peer_circuit,
        peer_session: info.peer_session,
        given: info.given,
        used: info.used,
        end: info.end,
        ..session
    }
}

fn keep_open(seats: &mut Vec<Seat>)
    ensures items { seats.new.items ≡ filter (λ (s : Seat). is_none s.session.end) seats.old.items }
    ensures capacity { vec_capacity seats.new ≡ vec_capacity seats.old }
{
    seats.retain(|seat| seat.session.end.is_none());
}

// Notes those that are over.
fn note_all(
    seats: &[Seat],
    last: &mut [Option<LineSession>],
    finished: &mut u32,
    freed: &mut Vec<Key>,
)
    requires lines { Each (λ (s : Seat). IsLine (length last.old) s.line) seats.now }
    requires room { vec_len freed.old + length seats.now ≤ vec_capacity freed.old }
    ensures last { last.new ≡ last_after seats.now last.old }
    ensures finished { finished.new ≡ finished_after seats.now finished.old }
    ensures freed { freed.new.items ≡ freed_after seats.now freed.old.items }
    ensures capacity { vec_capacity freed.new ≡ vec_capacity freed.old }
{
    for seat in seats {
        seat.note(last, finished, freed);
    }
}

impl Seat {
    fn note(&self, last: &mut [Option<LineSession>], finished: &mut u32, freed: &mut Vec<Key>)
        requires line { IsLine (length last.old) self.now.line }
        requires room { vec_len freed.old < vec_capacity freed.old }
        ensures last { last.new ≡ last_after (self.now ∷ []) last.old }
        ensures finished { finished.new ≡ finished_after (self.now ∷ []) finished.old }
        ensures freed { freed.new.items ≡ freed_after (self.now ∷ []) freed.old.items }
        ensures capacity { vec_capacity freed.new ≡ vec_capacity freed.old }
        ensures length { vec_len freed.new ≤ vec_len freed.old + 1 }
    {
        if self.session.end.is_none() {
            return;
        }
        last[self.line as usize - 1] = Some(self.session);
        *finished = finished.saturating_add(1);
        if let Some(key) = self.key {
            freed.push_reserved(key);
        }
    }
}
