//! A frame that was sent, as it is kept.

ghost use Rattle.std.specs.Prelude.{◌≡◌, ◌+◌, ◌≤◌, length};
ghost use Rattle.lat_wire.specs.ledger.Posts.{post_in, post_shown, row_of};
ghost use Rattle.lat_wire.specs.ledger.Ways.{mark_of, mark_shown};

use crate::ledger::post::{Post, Sent, SentFrame};
use lat_base::{Addr, Mark};

/// A frame as it is kept. Its payload stands among those of all frames: `len` bytes from `start` on.
#[derive(Clone, Copy)]
pub(crate) struct PostRow {
    pub(crate) by_server: bool,
    pub(crate) to: Addr,
    pub(crate) circuit: u16,
    pub(crate) mark: Mark,
    pub(crate) start: usize,
    pub(crate) len: u16,
    pub(crate) number: u64,
    pub(crate) acknowledgement: u64,
    /// As `Sent` has it.
    pub(crate) turn: Option<u64>,
    pub(crate) delivered: bool,
}

impl PostRow {
    /// What is kept of a frame of this turn, whose payload begins here.
    pub(crate) fn of(post: &Post<'_>, start: usize, turn: Option<u64>) -> PostRow
        requires { length post.now.frame.payload.now ≤ 1500 }
        ensures { result ≡ row_of post.now start turn }
    {
        PostRow {
            by_server: post.by_server,
            to: post.frame.to,
            circuit: post.frame.circuit,
            mark: post.frame.mark,
            start,
            len: post.frame.payload.len() as u16,
            number: post.number,
            acknowledgement: post.acknowledgement,
            turn,
            delivered: false,
        }
    }

    /// The frame, whose payload stands among these bytes.
    pub(crate) fn sent<'a>(&self, bytes: &'a [u8]) -> Sent<'a>
        requires { self.now.start + self.now.len ≤ length bytes.now }
        ensures post { post_shown result.post ≡ post_in bytes.now self.now }
        ensures mark { mark_shown result ≡ mark_of self.now }
    {
        let end = self.start + usize::from(self.len);
        Sent {
            post: Post {
                by_server: self.by_server,
                frame: SentFrame {
                    to: self.to,
                    payload: &bytes[self.start..end],
                    circuit: self.circuit,
                    mark: self.mark,
                },
                number: self.number,
                acknowledgement: self.acknowledgement,
            },
            turn: self.turn,
            delivered: self.delivered,
        }
    }
}
