//! The new sessions of an end.

ghost use Rattle.std.specs.Prelude.{◌≡◌, ◌≤◌, ◌<◌, ◌+◌, ◌-◌, ◌^◌, ℕ, suc, true, false, List, [], ◌∷◌, ◌++◌, length, Some};
ghost use Rattle.lat_machines.specs.cores.Cores.{Seat, no_seat};
ghost use Rattle.lat_machines.specs.cores.Lines.{last_on};
ghost use Rattle.lat_machines.specs.cores.Books.{line_session};
ghost use Rattle.lat_machines.specs.world.Machines.{Setups, Machines, Move, core_of, happens};
ghost use Rattle.lat_lines.specs.Stands.{session_shown, session_info};
ghost use Rattle.lat_laws.specs.tales.Books.{lines_at};
ghost use Rattle.lat_laws.specs.tales.Keeping.{rows_after, connects, accepts};
ghost use Rattle.lat_laws.specs.tales.Mates.{last_named, mate_by_ids};
ghost use Rattle.lat_laws.specs.tales.Rows.{RowsAfter, KeepsRows, figures_of};
ghost use Rattle.lat_replay.specs.roster.Roster.{HasRows, last_row};
ghost use Rattle.lat_wire.specs.Kept.{setups_of};
ghost use Rattle.lat_wire.specs.Stands.{Stands};
ghost use Rattle.lat_replay.specs.roster.Following.{Stage, LeadsTo};
ghost use Rattle.lat_replay.specs.roster.Moves.{IsReached, end_told, items_added};
ghost use Rattle.lat_replay.specs.roster.Present.{IsNewcomer};
ghost use Rattle.lat_replay.specs.roster.Reserved.{HasPlaces};

use crate::roster::Roster;
use crate::roster::books::{made, present_at};
use crate::roster::figures::figures_of;
use crate::roster::newcomer::Newcomer;
use lat_base::LineSession;
use lat_wire::{RatingRule, Wire};
use std::alloc::Global;

/// The new sessions of the end that was told an event become rows at the server, and are matched to rows at the node, in the
/// order of their numbers. The wire is as it stands behind the event, `before` as many sessions as the end had in front of it,
/// `lines` how many lines it has.
pub fn follow<H: RatingRule>(
    alloc: Global,
    wire: &Wire<H>,
    server: bool,
    lines: u8,
    before: u64,
    roster: &mut Roster,
)
    requires lines { lines_at server (setups_of wire.now) ≡ lines }
    requires few { before + lines < 2 ^ 64 - 1 }
    requires places { HasPlaces lines roster.old }
    ensures shows { (u : Setups) (w : Machines) (m : Move) (k : RowsAfter) →
        setups_of wire.now ≡ u →
        IsReached u w →
        end_told u w m ≡ Some server →
        Stands wire.now (happens u w m) →
        before ≡ length (core_of w server).seats →
        KeepsRows u w k →
        HasRows roster.old (items_added u w m k) →
        HasRows roster.new (rows_after u w m k) }
{
    let count = made(wire, server)
        .saturating_sub(before)
        .min(u64::from(lines));
    follow_all(alloc, wire, server, lines, before, count, roster);
}

// The sessions behind the first `before`, as many as are counted.
fn follow_all<H: RatingRule>(
    alloc: Global,
    wire: &Wire<H>,
    server: bool,
    lines: u8,
    before: u64,
    count: u64,
    roster: &mut Roster,
)
    requires lines { lines_at server (setups_of wire.now) ≡ lines }
    requires few { before + count < 2 ^ 64 - 1 }
    requires places { HasPlaces count roster.old }
    ensures { (u : Setups) (x : Machines) (target : RowsAfter) →
        setups_of wire.now ≡ u →
        Stands wire.now x →
        LeadsTo u x server (suc before) count target roster.old →
        LeadsTo u x server (suc (before + count)) 0 target roster.new }
{
    for turn in 0..count {
        follow_one(alloc, wire, server, lines, before + turn + 1, roster);
    }
}

// The session of this number. Behind an event of a world there is one.
fn follow_one<H: RatingRule>(
    alloc: Global,
    wire: &Wire<H>,
    server: bool,
    lines: u8,
    number: u64,
    roster: &mut Roster,
)
    requires lines { lines_at server (setups_of wire.now) ≡ lines }
    requires few { number < 2 ^ 64 - 1 }
    requires places { HasPlaces 1 roster.old }
    ensures places { (n : ℕ) → HasPlaces (suc n) roster.old → HasPlaces n roster.new }
    ensures leads { (u : Setups) (x : Machines) (count : ℕ) (target : RowsAfter) →
        setups_of wire.now ≡ u →
        Stands wire.now x →
        LeadsTo u x server number (suc count) target roster.old →
        LeadsTo u x server (suc number) count target roster.new }
{
    let Some(newcomer) = present_at(wire, server, lines, number) else {
        return;
    };
    if server {
        connect(alloc, newcomer, roster);
    } else {
        accept(wire, newcomer, roster);
    }
}

// A line of the server has got a session.
fn connect(alloc: Global, newcomer: Newcomer, roster: &mut Roster)
    requires { HasPlaces 1 roster.old }
    ensures places { (n : ℕ) → HasPlaces (suc n) roster.old → HasPlaces n roster.new }
    ensures stage { (u : Setups) (x : Machines) (front rest : List Seat) (s : Seat)
        (k target : RowsAfter) →
        Stage u x true front (s ∷ rest) k target roster.old →
        IsNewcomer x.server.core front s newcomer →
        Stage u x true (front ++ s ∷ []) rest
        (connects s (figures_of x.server.core (last_on s.line no_seat front)) k)
        target roster.new }
{
    let Newcomer {
        line,
        session,
        last,
    } = newcomer;
    let before = figures_of(last);
    roster.connects(alloc, line, session.circuit, session.session, before);
}

// A line of the node has got a session.
fn accept<H: RatingRule>(wire: &Wire<H>, newcomer: Newcomer, roster: &mut Roster)
    requires { 0 < newcomer.line }
    ensures places { (n : ℕ) → HasPlaces n roster.old → HasPlaces n roster.new }
    ensures stage { (u : Setups) (x : Machines) (front rest : List Seat) (t : Seat)
        (k target : RowsAfter) →
        setups_of wire.now ≡ u →
        Stage u x false front (t ∷ rest) k target roster.old →
        IsNewcomer x.node.core front t newcomer →
        Stage u x false (front ++ t ∷ []) rest
        (accepts t.line (mate_by_ids u x t)
        (figures_of x.node.core (last_on t.line no_seat front)) k)
        target roster.new }
{
    let place = mate_of(wire, newcomer.session, roster);
    let before = figures_of(newcomer.last);
    roster.accepts(newcomer.line, place, before);
}

// The place of the row that a session of the node belongs to, 0 for none.
fn mate_of<H: RatingRule>(wire: &Wire<H>, session: LineSession, roster: &Roster) -> usize
    ensures within { result ≤ length roster.now.rows }
    ensures is { (u : Setups) (x : Machines) (number : ℕ) (t : Seat) (k : RowsAfter) →
        setups_of wire.now ≡ u →
        session_shown session ≡ session_info (line_session x.node.core number t) →
        HasRows roster.now k →
        ((circuit id : ℕ) →
        last_row circuit id 0 0 k.rows ≡ last_named circuit id 0 0 x.server.core.seats) →
        result ≡ mate_by_ids u x t }
{
    if session.peer == wire.own(true) {
        roster.named(session.peer_circuit, session.peer_session)
    } else {
        0
    }
}
