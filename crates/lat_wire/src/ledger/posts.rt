//! All frames that were sent, in order, with their payloads behind one another.

ghost use Rattle.std.specs.Prelude.{◌≡◌, ℕ, ◌+◌, ◌-◌, ◌*◌, ◌<◌, ◌≤◌, ◌^◌, cond, Bool, true, Some, None, List, [], ◌∷◌, ◌++◌, length, OnOk, MatchOption, map, slice_get, vec_len, vec_capacity};
ghost use Rattle.lat_machines.specs.world.Machines.{Setups, Posted, is_for_other};
ghost use Rattle.lat_wire.specs.ledger.Logs.{IsAt, IsLog};
ghost use Rattle.lat_laws.specs.rounds.Rounds.{undelivered_from};
ghost use Rattle.lat_wire.specs.ledger.Posts.{AreWithin, post_shown, posts_in, row_of};
ghost use Rattle.lat_wire.specs.ledger.Ways.{AllThrough, CameAtMost, IsNext, come, come_behind, is_through, mark_of, marked, side_of, turned, way_of};

use crate::ledger::post::{Post, Sent};
use crate::ledger::row::PostRow;
use lat_base::{Memory, OUTBOX_FRAMES, PAYLOAD_BYTES};
use std::alloc::Global;
use std::marker::Model;

/// The frames that one end sent the other, or everyone.
#[derive(Clone, Copy)]
pub struct Way {
    /// How many there are.
    pub turns: u64,
    /// How many of them were delivered at least once.
    pub came: u64,
}

/// The frames of both directions, and whether nothing was lost of them so far.
#[derive(Clone, Copy)]
pub struct Ways {
    /// From the server.
    pub server: Way,
    /// From the node.
    pub node: Way,
    pub lossless: bool,
}

const NONE: Ways = Ways {
    server: Way { turns: 0, came: 0 },
    node: Way { turns: 0, came: 0 },
    lossless: true,
};

/// The frames that were sent, with what was delivered of them. Contracts say for all frames of two machines that they stand
/// for what they stand for afterwards.
pub struct Posts {
    rows: Vec<PostRow>,
    /// The payloads of all frames, in order.
    payloads: Vec<u8>,
    /// The first frame that is still to be delivered, or the number of all frames.
    next: usize,
    ways: Ways,
}

impl Drop for Posts {
    fn drop(self) {
        let Self {
            rows,
            payloads,
            next,
            ways,
        } = self;
    }
}

impl Model for Posts {
    ghost use Rattle.std.specs.Prelude.{◌≤◌, ◌-◌, map, vec_len, vec_capacity};
    ghost use Rattle.lat_wire.specs.ledger.Posts.{AreWithin, posts_in};
    ghost use Rattle.lat_wire.specs.ledger.Ways.{IsNext, Kept, mark_of};

    ghost Value = { Kept };

    ghost view = { λ a. record {
      log = record {
        posts = posts_in a.payloads.items a.rows.items;
        marks = map mark_of a.rows.items;
        ways = a.ways;
      };
      reserved = vec_capacity a.rows - vec_len a.rows;
      bytes = vec_capacity a.payloads - vec_len a.payloads;
    } };

    ghost invariant = { λ a.
        IsNext (map mark_of a.rows.items) a.next
        × AreWithin a.payloads.items a.rows.items
        × (a.ways.server.turns ≤ vec_len a.rows)
        × (a.ways.node.turns ≤ vec_len a.rows) };
}

/// What is known of a frame that was sent, as it was before a delivery.
#[derive(Clone, Copy)]
pub(crate) struct Mark {
    pub(crate) by_server: bool,
    pub(crate) turn: Option<u64>,
    pub(crate) delivered: bool,
}

// The turn of the next frame of the server or of the node.
fn turn_of(ways: Ways, by_server: bool, for_other: bool) -> Option<u64>
    ensures { result ≡ cond for_other (Some (side_of ways by_server).turns) None }
{
    let way = if by_server { ways.server } else { ways.node };
    if for_other { Some(way.turns) } else { None }
}

// What is counted behind a frame that was sent to the other end.
fn turned(ways: Ways, by_server: bool) -> Ways
    requires server { ways.server.turns < 2 ^ 32 }
    requires node { ways.node.turns < 2 ^ 32 }
    ensures { result ≡ turned by_server ways }
{
    let Ways {
        mut server,
        mut node,
        lossless,
    } = ways;
    if by_server {
        server.turns += 1;
    } else {
        node.turns += 1;
    }
    Ways {
        server,
        node,
        lossless,
    }
}

// What is counted where the frame of this turn comes for the first time.
fn come(ways: Ways, by_server: bool, turn: u64) -> Ways
    requires server { ways.server.came < 2 ^ 64 - 1 }
    requires node { ways.node.came < 2 ^ 64 - 1 }
    ensures { result ≡ come by_server turn ways }
{
    let Ways {
        mut server,
        mut node,
        lossless,
    } = ways;
    let came = if by_server { server.came } else { node.came };
    if by_server {
        server.came += 1;
    } else {
        node.came += 1;
    }
    Ways {
        server,
        node,
        lossless: lossless && came == turn,
    }
}

// What is counted where a frame is delivered that was known so.
fn come_behind(ways: Ways, mark: Mark) -> Ways
    requires server { ways.server.came < 2 ^ 64 - 1 }
    requires node { ways.node.came < 2 ^ 64 - 1 }
    ensures { result ≡ come_behind mark ways }
{
    match mark.turn {
        Some(turn) if !mark.delivered => come(ways, mark.by_server, turn),
        _ => ways,
    }
}

// Marks the frame of this index as delivered, and tells what was known of it before.
fn mark_at(rows: &mut Vec<PostRow>, index: usize) -> Mark
    requires { index < vec_len rows.old }
    ensures before { slice_get (map mark_of rows.old.items) index ≡ Some result }
    ensures posts { (bytes : List ℕ) → posts_in bytes rows.new.items ≡ posts_in bytes rows.old.items }
    ensures within { (bytes : List ℕ) → AreWithin bytes rows.old.items →
        AreWithin bytes rows.new.items }
    ensures marks { map mark_of rows.new.items ≡ marked (map mark_of rows.old.items) index }
{
    let row = &mut rows[index];
    let before = Mark {
        by_server: row.by_server,
        turn: row.turn,
        delivered: row.delivered,
    };
    row.delivered = true;
    before
}

// Adds a payload behind those of the other frames. There must be room.
fn payload_onto(payloads: &mut Vec<u8>, payload: &[u8])
    requires { vec_len payloads.old + length payload.now ≤ vec_capacity payloads.old }
    ensures items { payloads.new.items ≡ payloads.old.items ++ payload.now }
    ensures room { vec_capacity payloads.old ≤ vec_capacity payloads.new }
{
    let Ok(()) = payloads.extend_from_slice(payload) else {
        unreachable!()
    };
}

// Keeps a frame of this turn behind the others, with its payload. There must be room.
fn keep(rows: &mut Vec<PostRow>, payloads: &mut Vec<u8>, post: &Post<'_>, turn: Option<u64>)
    requires place { vec_len rows.old < vec_capacity rows.old }
    requires bytes { vec_len payloads.old + length post.now.frame.payload.now
        ≤ vec_capacity payloads.old }
    requires most { length post.now.frame.payload.now ≤ 1500 }
    ensures rows { rows.new.items
        ≡ rows.old.items ++ row_of post.now (vec_len payloads.old) turn ∷ [] }
    ensures count { vec_len rows.new ≡ vec_len rows.old + 1 }
    ensures posts { AreWithin payloads.old.items rows.old.items →
        posts_in payloads.new.items rows.new.items
        ≡ posts_in payloads.old.items rows.old.items ++ post_shown post.now ∷ [] }
    ensures within { AreWithin payloads.old.items rows.old.items →
        AreWithin payloads.new.items rows.new.items }
    ensures places { vec_capacity rows.new ≡ vec_capacity rows.old }
    ensures room { vec_capacity payloads.old - vec_len payloads.old
        ≤ vec_capacity payloads.new - vec_len payloads.new + length post.now.frame.payload.now }
{
    let row = PostRow::of(post, payloads.len(), turn);
    payload_onto(payloads, post.frame.payload);
    rows.push_reserved(row);
}

// Whether the frame is not to be delivered any more.
fn is_through(row: &PostRow) -> bool
    ensures { result ≡ is_through (mark_of row.now) }
{
    row.delivered || row.turn.is_none()
}

// The first frame that is still to be delivered, where none before `from` is.
fn next_in(rows: &[PostRow], from: usize) -> usize
    requires within { from ≤ length rows.now }
    requires before { AllThrough (map mark_of rows.now) from }
    ensures { IsNext (map mark_of rows.now) result }
{
    let mut next = from;
    while next < rows.len() {
        if !is_through(&rows[next]) {
            return next;
        }
        next += 1;
    }
    next
}

impl Posts {
    /// No frame. It takes no memory.
    pub fn make(alloc: Global) -> Posts
        ensures posts { result.log.posts ≡ [] }
        ensures log { (u : Setups) → IsLog u result.log [] [] }
        ensures came { CameAtMost 0 result.log.ways }
    {
        Posts {
            rows: Vec::new(alloc),
            payloads: Vec::new(alloc),
            next: 0,
            ways: NONE,
        }
    }

    /// Takes the room of all frames that one event can make, 256, each with a payload of 1,500 bytes. `Memory` where none is
    /// found.
    pub fn reserve(&mut self) -> Result<(), Memory>
        ensures same { self.new.log ≡ self.old.log }
        ensures ok { OnOk result (256 ≤ self.new.reserved) }
        ensures bytes { OnOk result (1500 * 256 ≤ self.new.bytes) }
    {
        self.rows.reserve(OUTBOX_FRAMES)?;
        self.payloads.reserve(OUTBOX_FRAMES * PAYLOAD_BYTES)?;
        Ok(())
    }

    /// How many frames there are.
    pub fn len(&self) -> usize
        ensures { result ≡ length self.now.log.posts }
    {
        self.rows.len()
    }

    /// The frame of this index; `None` exactly past the last.
    pub fn get(&self, index: u64) -> Option<Sent<'_>>
        ensures { MatchOption result (length self.now.log.posts ≤ index) (IsAt self.now.log index) }
    {
        let row = self.rows.get(index as usize)?;
        Some(row.sent(&self.payloads))
    }

    /// Adds a frame at the end. `for_other` says that it was sent to the other end or to everyone. There must be room.
    pub fn push(&mut self, post: &Post<'_>, for_other: bool)
        requires reserved { 0 < self.old.reserved }
        requires bytes { length post.now.frame.payload.now ≤ self.old.bytes }
        requires most { length post.now.frame.payload.now ≤ 1500 }
        requires few { length self.old.log.posts < 2 ^ 32 }
        ensures posts { self.new.log.posts ≡ self.old.log.posts ++ post_shown post.now ∷ [] }
        ensures log { (u : Setups) (posts : List Posted) (delivered : List ℕ) (p : Posted) →
            IsLog u self.old.log posts delivered →
            p.by_server ≡ post.now.by_server →
            is_for_other u p ≡ for_other →
            IsLog u self.new.log (posts ++ p ∷ []) delivered }
        ensures came { (n : ℕ) → CameAtMost n self.old.log.ways → CameAtMost n self.new.log.ways }
        ensures reserved { self.old.reserved ≡ self.new.reserved + 1 }
        ensures bytes { self.old.bytes ≤ self.new.bytes + length post.now.frame.payload.now }
    {
        let by_server = post.by_server;
        let turn = turn_of(self.ways, by_server, for_other);
        let is_next = self.next == self.rows.len();
        keep(&mut self.rows, &mut self.payloads, post, turn);
        if for_other {
            self.ways = turned(self.ways, by_server);
        } else if is_next {
            self.next += 1;
        }
    }

    /// The frame of this index is delivered.
    pub fn deliver(&mut self, index: usize)
        requires there { index < length self.old.log.posts }
        requires few { CameAtMost (2 ^ 64 - 2) self.old.log.ways }
        ensures posts { self.new.log.posts ≡ self.old.log.posts }
        ensures log { (u : Setups) (posts : List Posted) (delivered : List ℕ) →
            IsLog u self.old.log posts delivered →
            IsLog u self.new.log posts (delivered ++ index ∷ []) }
        ensures came { (n : ℕ) → CameAtMost n self.old.log.ways →
            CameAtMost (n + 1) self.new.log.ways }
    {
        let before = mark_at(&mut self.rows, index);
        self.ways = come_behind(self.ways, before);
        self.next = next_in(&self.rows, self.next);
    }

    /// The first frame that was sent to the other end or to everyone and never delivered. `None` exactly where there is none.
    pub fn undelivered(&self) -> Option<u64>
        ensures { (u : Setups) (posts : List Posted) (delivered : List ℕ) →
            IsLog u self.now.log posts delivered →
            result ≡ undelivered_from u delivered 0 posts }
    {
        if self.next < self.rows.len() {
            Some(self.next as u64)
        } else {
            None
        }
    }

    /// Whether nothing was lost so far.
    pub fn lossless(&self) -> bool
        ensures { result ≡ self.now.log.ways.lossless }
    {
        self.ways.lossless
    }
}
