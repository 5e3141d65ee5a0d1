//! The figures of a session at both ends.

ghost use Rattle.std.specs.Prelude.{◌≡◌, ℕ, ◌<◌, IfOk};
ghost use Rattle.lat_machines.specs.cores.Books.{book};
ghost use Rattle.lat_machines.specs.cores.Cores.{Core};
ghost use Rattle.lat_machines.specs.cores.Lines.{line_exists, seat_at};
ghost use Rattle.lat_machines.specs.node.Node.{Node};
ghost use Rattle.lat_machines.specs.server.Server.{Server};
ghost use Rattle.lat_machines.specs.world.Machines.{Machines};
ghost use Rattle.lat_lines.specs.Stands.{book_shown, book_info};
ghost use Rattle.lat_server.specs.Stands as servers;
ghost use Rattle.lat_node.specs.Stands as nodes;
ghost use Rattle.lat_laws.specs.tales.Rows as rows;
ghost use Rattle.lat_laws.specs.tales.Reported.{server_figures, node_figures};
ghost use Rattle.lat_replay.specs.roster.Rows.{ShowsFigures, some_line};
ghost use Rattle.lat_replay.specs.Rows.{figures_shown};
ghost use Rattle.lat_replay.specs.Standing.{StandsFor, HasHad, RowAt};

use crate::roster::{Figures, Roster, figures_of};
use lat_base::{LineBook, Memory};
use lat_node::NodeCore;
use lat_server::ServerCore;
use lat_wire::{RatingRule, Wire};

// The figures of the newest session of the line that a book is of.
fn figures_by(told: LineBook) -> Figures
    ensures { (c : Core) (line : ℕ) →
        book_shown told ≡ book_info (book c line) →
        HasHad c line →
        ShowsFigures result (rows.figures_of c (seat_at c line)) }
{
    figures_of(told.present.or(told.last))
}

// Whether there is a line of this number.
fn exists(line: u8, lines: u8) -> bool
    ensures { result ≡ line_exists lines line }
{
    line >= 1 && line <= lines
}

// Those of the newest session of a line of the server.
fn at_server(server: &ServerCore, line: u8) -> Figures
    ensures { (s : Server) → servers.Stands server.now s → HasHad s.core line →
        ShowsFigures result (rows.figures_of s.core (seat_at s.core line)) }
{
    let there = exists(line, server.lines());
    if there {
        figures_by(server.book(line))
    } else {
        Figures::NONE
    }
}

// Those of the newest session of a line of the node.
fn at_node<H: RatingRule>(node: &NodeCore<H>, line: u8) -> Figures
    ensures { (s : Node) → nodes.Stands node.now s → HasHad s.core line →
        ShowsFigures result (rows.figures_of s.core (seat_at s.core line)) }
{
    let there = exists(line, node.lines());
    if there {
        figures_by(node.book(line))
    } else {
        Figures::NONE
    }
}

/// What the server's end tells of the session of the row at this place, from 1 on: what stands there while it is the newest of
/// its line, else what was written down.
pub(crate) fn server_figures<H: RatingRule>(
    wire: &Wire<H>,
    roster: &Roster,
    place: usize,
    line: u8,
    written: Figures,
) -> Figures
    requires { 0 < place }
    ensures { (w : Machines) (k : rows.RowsAfter) (r : rows.RowAfter) →
        StandsFor wire.now roster.now w k →
        r.line ≡ line →
        ShowsFigures written r.server →
        ShowsFigures result (server_figures w k place r) }
{
    let newest = roster.newest(true, line) == place;
    if newest {
        at_server(wire.server(), line)
    } else {
        written
    }
}

/// What the node's end tells of the session of the row at this place, from 1 on; nothing where the node gave it no line.
pub(crate) fn node_figures<H: RatingRule>(
    wire: &Wire<H>,
    roster: &Roster,
    place: usize,
    line: Option<u8>,
    written: Figures,
) -> Figures
    requires { 0 < place }
    ensures { (w : Machines) (k : rows.RowsAfter) (r : rows.RowAfter) →
        StandsFor wire.now roster.now w k →
        RowAt k place r →
        line ≡ some_line r.node_line →
        ShowsFigures written r.node →
        ShowsFigures result (node_figures w k place r) }
{
    let Some(line) = line else {
        return Figures::NONE;
    };
    let newest = roster.newest(false, line) == place;
    if newest {
        at_node(wire.node(), line)
    } else {
        written
    }
}

/// The same figures, where they are exact. A count that stands at the greatest number may have been greater: then `Memory`.
pub(crate) fn exact(figures: Figures) -> Result<Figures, Memory>
    ensures { IfOk result (λ f. (r : rows.Figures) → ShowsFigures figures r → figures_shown f ≡ r) }
{
    if figures.given == u64::MAX || figures.used == u64::MAX {
        return Err(Memory);
    }
    Ok(figures)
}
