//! What the two ends tell of their lines.

ghost use Rattle.std.specs.Prelude.{◌≡◌, ◌<◌, length, IfSome, MatchOption};
ghost use Rattle.lat_machines.specs.cores.Books.{book};
ghost use Rattle.lat_machines.specs.world.Machines.{Machines, core_of};
ghost use Rattle.lat_stream.specs.Kept.{saturated};
ghost use Rattle.lat_lines.specs.Kept.{IsLine};
ghost use Rattle.lat_lines.specs.Stands.{book_shown, book_info};
ghost use Rattle.lat_laws.specs.tales.Books.{lines_at};
ghost use Rattle.lat_wire.specs.Kept.{setups_of};
ghost use Rattle.lat_wire.specs.Stands.{Stands};
ghost use Rattle.lat_replay.specs.roster.Present.{IsPresent, NotOn, Finds};

use crate::roster::newcomer::Newcomer;
use lat_base::LineBook;
use lat_wire::{RatingRule, Wire};

/// How many line sessions the server or the node has had. It stops at the greatest number of 64 bits.
pub(crate) fn made<H: RatingRule>(wire: &Wire<H>, server: bool) -> u64
    ensures { (w : Machines) → Stands wire.now w →
        result ≡ saturated (length (core_of w server).seats) }
{
    if server {
        wire.server().made()
    } else {
        wire.node().made()
    }
}

/// The last two sessions of a line of the server or of the node, which must exist.
pub(crate) fn book_on<H: RatingRule>(wire: &Wire<H>, server: bool, line: u8) -> LineBook
    requires { IsLine (lines_at server (setups_of wire.now)) line }
    ensures { (w : Machines) → Stands wire.now w →
        book_shown result ≡ book_info (book (core_of w server) line) }
{
    if server {
        wire.server().book(line)
    } else {
        wire.node().book(line)
    }
}

// The present session of a line, if it has this number.
#[tactic(auto, using(crate::proofs::roster::Present::absent, crate::proofs::roster::Present::another, crate::proofs::roster::Present::found_on))]
fn present_on<H: RatingRule>(
    wire: &Wire<H>,
    server: bool,
    line: u8,
    number: u64,
) -> Option<Newcomer>
    requires { IsLine (lines_at server (setups_of wire.now)) line }
    ensures finds { (w : Machines) → Stands wire.now w →
        MatchOption result (NotOn (core_of w server) number line) (λ n.
        IsPresent (core_of w server) number n) }
    ensures line { IfSome result (λ n. 0 < n.line) }
{
    let book = book_on(wire, server, line);
    let session = book.present?;
    if session.number != number {
        return None;
    }
    Some(Newcomer {
        line,
        session,
        last: book.last,
    })
}

/// The present session of this number, of one of so many lines. A new session is present.
pub(crate) fn present_at<H: RatingRule>(
    wire: &Wire<H>,
    server: bool,
    lines: u8,
    number: u64,
) -> Option<Newcomer>
    requires { lines_at server (setups_of wire.now) ≡ lines }
    ensures finds { (w : Machines) → Stands wire.now w →
        Finds (core_of w server) number lines result }
    ensures line { IfSome result (λ n. 0 < n.line) }
{
    for below in 0..lines {
        let found = present_on(wire, server, below + 1, number);
        if found.is_some() {
            return found;
        }
    }
    None
}
