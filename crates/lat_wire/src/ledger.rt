//! All frames that the two ends of a wire sent, in order, kept with their numbers as these are tallied from marks and answers:
//! what was delivered of them, which is to be delivered next, and whether anything was lost so far; and the circuits that a
//! payload names.

mod heading;
mod post;
mod posts;
mod row;
mod stations;
mod tallies;

ghost use Rattle.std.specs.Prelude.{◌≡◌, ℕ, ◌+◌, ◌-◌, ◌*◌, ◌<◌, ◌≤◌, ◌^◌, Bool, not, cond, List, [], ◌∷◌, ◌++◌, length, map, nat_eq, IfOk, OnOk};
ghost use Rattle.lat_machines.specs.values.Addresses.{address};
ghost use Rattle.lat_machines.specs.values.Frames as machines;
ghost use Rattle.lat_machines.specs.world.Machines.{Setups, Posted, own_of, post_all};
ghost use Rattle.lat_machines.specs.world.Tally.{Tallied, TalliedBy};
ghost use Rattle.lat_model.specs.Lists.{Each};
ghost use Rattle.lat_circuit.specs.Frames.{frame_view};
ghost use Rattle.lat_payload.specs.Frames.{expected, mark_of};
ghost use Rattle.lat_wire.specs.ledger.Posts.{post_shown};
ghost use Rattle.lat_wire.specs.ledger.Tallies.{nothing, tally_at};
ghost use Rattle.lat_wire.specs.ledger.Ways.{CameAtMost};
ghost use Rattle.lat_wire.specs.ledger.Books.{Counts, IsBook, IsPost, IsReadable, no_counts, with_side};
ghost use Rattle.lat_wire.specs.ledger.Books.{behind, behind_all, number_by, tallies_of, tally_by, took_one};

pub use heading::{Heading, heading_of};
use lat_base::{Addr, Mark, Memory, OutFrame};
pub use post::{Post, Sent, SentFrame};
use posts::Posts;
use stations::is_for;
use std::alloc::Global;
use std::marker::Model;
pub use tallies::{Tallies, Tally};

/// The frames that were sent, and the tallies of both ends' circuits.
pub struct Ledger {
    pub posts: Posts,
    pub server: Tallies,
    pub node: Tallies,
}

impl Drop for Ledger {
    fn drop(self) {
        let Self {
            posts,
            server,
            node,
        } = self;
    }
}

impl Model for Ledger {
    ghost use Rattle.lat_wire.specs.ledger.Books.{Kept};

    ghost Value = { Kept };

    ghost view = { λ a. record {
      book = record {
        log = a.posts.log;
        server = a.server;
        node = a.node;
      };
      reserved = a.posts.reserved;
      bytes = a.posts.bytes;
    } };
}

// The number of a frame of this mark behind so many messages of its circuit.
fn number_of(mark: Mark, formed: u64) -> u64
    requires { formed < 2 ^ 32 }
    ensures { (m : machines.FrameMark) → mark ≡ mark_of m → result ≡ number_by m formed }
{
    match mark {
        Mark::Fresh => formed + 1,
        Mark::Again(back) => formed.saturating_sub(u64::from(back)),
        Mark::Bare => formed,
        Mark::Plain => 0,
    }
}

// What is counted of a circuit behind a frame of this mark.
fn tally_behind(mark: Mark, tally: Tally) -> Tally
    requires { tally.formed < 2 ^ 32 }
    ensures value { (m : machines.FrameMark) → mark ≡ mark_of m → result ≡ tally_by m tally }
    ensures formed { result.formed ≤ tally.formed + 1 }
    ensures taken { result.taken ≡ tally.taken }
{
    let Tally {
        formed,
        taken,
        shown,
    } = tally;
    match mark {
        Mark::Fresh => Tally {
            formed: formed + 1,
            taken,
            shown: taken,
        },
        Mark::Again(_) | Mark::Bare => Tally {
            formed,
            taken,
            shown: taken,
        },
        Mark::Plain => Tally {
            formed,
            taken,
            shown,
        },
    }
}

// A frame with its sender and its numbers.
fn post_of(frame: &OutFrame, by_server: bool, tally: Tally) -> Post<'_>
    requires { tally.formed < 2 ^ 32 }
    ensures post { (f : machines.OutFrame) →
        frame_view frame.now ≡ expected f →
        IsReadable f →
        TalliedBy f.mark tally.formed tally.taken f →
        IsPost (post_shown result) (record { by_server = by_server; frame = f }) }
    ensures side { result.by_server ≡ by_server }
    ensures most { length result.frame.payload.now ≤ 1500 }
{
    Post {
        by_server,
        frame: SentFrame {
            to: frame.to,
            payload: frame.payload.bytes(),
            circuit: frame.circuit,
            mark: frame.mark,
        },
        number: number_of(frame.mark, tally.formed),
        acknowledgement: tally.taken,
    }
}

impl Ledger {
    /// Nothing was sent, and nothing is counted. Takes the memory of all tallies; `Memory` where none is found.
    pub fn make(alloc: Global) -> Result<Ledger, Memory>
        ensures book { IfOk result (λ k. (u : Setups) → IsBook u k.book [] [] (λ b. no_counts)) }
        ensures tallies { IfOk result (λ k.
            (b : Bool) (x : ℕ) → tally_at (tallies_of k.book b) x ≡ nothing) }
    {
        Ok(Ledger {
            posts: Posts::make(alloc),
            server: Tallies::make(alloc)?,
            node: Tallies::make(alloc)?,
        })
    }

    /// What is counted of a circuit of the server or of the node.
    pub fn tally(&self, server: bool, circuit: u16) -> Tally
        ensures { result ≡ tally_at (tallies_of self.now.book server) circuit }
    {
        if server {
            self.server.of(circuit)
        } else {
            self.node.of(circuit)
        }
    }

    fn set(&mut self, server: bool, circuit: u16, tally: Tally)
        ensures side { (x : ℕ) →
            tally_at (tallies_of self.new.book server) x
            ≡ cond (nat_eq x circuit) tally (tally_at (tallies_of self.old.book server) x) }
        ensures other { tallies_of self.new.book (not server)
            ≡ tallies_of self.old.book (not server) }
        ensures log { self.new.book.log ≡ self.old.book.log }
        ensures reserved { self.new.reserved ≡ self.old.reserved }
        ensures bytes { self.new.bytes ≡ self.old.bytes }
    {
        if server {
            self.server.set(circuit, tally);
        } else {
            self.node.set(circuit, tally);
        }
    }

    /// Counts a message that a circuit of the server or of the node took.
    pub fn take(&mut self, server: bool, circuit: u16)
        requires { (tally_at (tallies_of self.old.book server) circuit).taken < 2 ^ 64 - 1 }
        ensures side { (x : ℕ) →
            tally_at (tallies_of self.new.book server) x
            ≡ cond (nat_eq x circuit)
            (took_one (tally_at (tallies_of self.old.book server) circuit))
            (tally_at (tallies_of self.old.book server) x) }
        ensures other { tallies_of self.new.book (not server)
            ≡ tallies_of self.old.book (not server) }
        ensures log { self.new.book.log ≡ self.old.book.log }
        ensures reserved { self.new.reserved ≡ self.old.reserved }
        ensures bytes { self.new.bytes ≡ self.old.bytes }
    {
        let Tally {
            formed,
            taken,
            shown,
        } = self.tally(server, circuit);
        self.set(
            server,
            circuit,
            Tally {
                formed,
                taken: taken + 1,
                shown,
            },
        );
    }

    /// Keeps the frames that the server or the node made in one event. The other end's address is `other`. There must be room
    /// for them.
    pub fn enter_all(&mut self, by_server: bool, other: &Addr, frames: &[OutFrame])
        requires reserved { length frames.now ≤ self.old.reserved }
        requires bytes { 1500 * length frames.now ≤ self.old.bytes }
        requires few { length self.old.book.log.posts + length frames.now < 2 ^ 32 }
        requires formed { (x : ℕ) → (tally_at (tallies_of self.old.book by_server) x).formed ≤ length self.old.book.log.posts }
        ensures book { (u : Setups) (sent : List Posted) (done : List ℕ) (counts : Bool → Counts)
            (fs : List machines.OutFrame) →
            own_of u (not by_server) ≡ address other.now.0 →
            map frame_view frames.now ≡ map expected fs →
            Each IsReadable fs →
            Tallied (counts by_server).formed (counts by_server).taken fs →
            IsBook u self.old.book sent done counts →
            IsBook u self.new.book (sent ++ post_all by_server fs) done
            (with_side by_server (behind_all fs (counts by_server)) counts) }
        ensures count { length self.new.book.log.posts
            ≡ length self.old.book.log.posts + length frames.now }
        ensures formed { (x : ℕ) → (tally_at (tallies_of self.new.book by_server) x).formed ≤ length self.new.book.log.posts }
        ensures taken { (x : ℕ) →
            (tally_at (tallies_of self.new.book by_server) x).taken
            ≡ (tally_at (tallies_of self.old.book by_server) x).taken }
        ensures other { tallies_of self.new.book (not by_server)
            ≡ tallies_of self.old.book (not by_server) }
        ensures came { (n : ℕ) → CameAtMost n self.old.book.log.ways →
            CameAtMost n self.new.book.log.ways }
    {
        if let Some((first, rest)) = frames.split_first() {
            self.enter(by_server, other, first);
            self.enter_all(by_server, other, rest);
        }
    }

    fn enter(&mut self, by_server: bool, other: &Addr, frame: &OutFrame)
        requires reserved { 0 < self.old.reserved }
        requires bytes { 1500 ≤ self.old.bytes }
        requires few { length self.old.book.log.posts < 2 ^ 32 }
        requires formed { (x : ℕ) → (tally_at (tallies_of self.old.book by_server) x).formed ≤ length self.old.book.log.posts }
        ensures book { (u : Setups) (sent : List Posted) (done : List ℕ) (counts : Bool → Counts)
            (f : machines.OutFrame) →
            own_of u (not by_server) ≡ address other.now.0 →
            frame_view frame.now ≡ expected f →
            IsReadable f →
            TalliedBy f.mark ((counts by_server).formed f.circuit)
            ((counts by_server).taken f.circuit) f →
            IsBook u self.old.book sent done counts →
            IsBook u self.new.book (sent ++ record { by_server = by_server; frame = f } ∷ []) done
            (with_side by_server (behind f (counts by_server)) counts) }
        ensures count { length self.new.book.log.posts ≡ length self.old.book.log.posts + 1 }
        ensures formed { (x : ℕ) → (tally_at (tallies_of self.new.book by_server) x).formed ≤ length self.new.book.log.posts }
        ensures taken { (x : ℕ) →
            (tally_at (tallies_of self.new.book by_server) x).taken
            ≡ (tally_at (tallies_of self.old.book by_server) x).taken }
        ensures other { tallies_of self.new.book (not by_server)
            ≡ tallies_of self.old.book (not by_server) }
        ensures came { (n : ℕ) → CameAtMost n self.old.book.log.ways →
            CameAtMost n self.new.book.log.ways }
        ensures reserved { self.old.reserved ≡ self.new.reserved + 1 }
        ensures bytes { self.old.bytes ≤ self.new.bytes + 1500 }
    {
        let tally = self.tally(by_server, frame.circuit);
        let post = post_of(frame, by_server, tally);
        self.posts.push(&post, is_for(frame.to, *other));
        self.set(by_server, frame.circuit, tally_behind(frame.mark, tally));
    }
}
