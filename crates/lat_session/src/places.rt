//! The places of a table's sessions.

ghost use Rattle.std.specs.Prelude.{◌≡◌, ◌<◌, ◌≤◌, true, replicate, length, slice_index_or, IfOk};
ghost use Rattle.std.specs.Borrow.{sem};
ghost use Rattle.lat_model.specs.sessions.Session.{blank};
ghost use Rattle.lat_stream.specs.Kept.{stream_of};
ghost use Rattle.lat_session.specs.Places.{IsReached, LendsPlace};

use lat_base::Memory;
use lat_stream::Stream;
use std::alloc::Global;
use std::marker::Model;
use std::ops::Index;

/// A place for the session of each id, from 1 on. The least free id comes into use first: so a walk over all sessions ends at
/// the last place that was reached, as behind it all are free. Contracts see the list of all places.
pub(crate) struct Places {
    all: Vec<Stream>,
    reached: usize,
}

impl Drop for Places {
    fn drop(self) {
        let Self { all, reached } = self;
    }
}

impl Model for Places {
    ghost use Rattle.std.specs.Prelude.{◌≤◌, List, drop, length};
    ghost use Rattle.lat_stream.specs.Kept.{Kept};
    ghost use Rattle.lat_session.specs.States.{AllFree};

    ghost Value = { List Kept };

    ghost view = { λ a. a.all.items };

    ghost invariant = { λ a. (a.reached ≤ length a.all.items)
        × AllFree (drop a.reached a.all.items) };
}

impl Places {
    /// So many places, in which there was no session yet. `ceiling` is 1 to 15.
    pub fn make(alloc: Global, count: u8, ceiling: u8) -> Result<Places, Memory>
        requires { (1 ≤ ceiling) × (ceiling ≤ 15) }
        ensures { IfOk result (λ places. places ≡ replicate count (stream_of true ceiling blank)) }
    {
        Ok(Places {
            all: streams(alloc, count, ceiling)?,
            reached: 0,
        })
    }

    /// The places as `make` makes them, in the memory that they have. `ceiling` is 1 to 15.
    pub fn reset(&mut self, ceiling: u8)
        requires { (1 ≤ ceiling) × (ceiling ≤ 15) }
        ensures { self.new ≡ replicate (length self.old) (stream_of true ceiling blank) }
    {
        reset_all(&mut self.all, ceiling);
        self.reached = 0;
    }

    /// How many there are.
    pub fn len(&self) -> usize
        ensures { result ≡ length self.now }
    {
        self.all.len()
    }

    /// All of them.
    pub fn all(&self) -> &[Stream]
        ensures { result.now ≡ self.now }
    {
        self.all.as_slice()
    }

    /// Those up to the last one that was reached.
    pub fn reached(&self) -> &[Stream]
        ensures reached { IsReached result.now self.now }
        ensures most { length result.now ≤ length self.now }
    {
        &self.all[..self.reached]
    }

    /// The session at a place, to be written to: the place counts as reached.
    pub fn reach(&mut self, at: usize) -> &mut Stream
        requires { at < length self.old }
        ensures* writes_back { sem 𝓛 (LendsPlace self.entry at result) }
        ensures value { result.now ≡ slice_index_or self.old at result.now }
    {
        self.reached = self.reached.max(at + 1);
        &mut self.all[at]
    }
}

impl Index<usize> for Places {
    type Output = Stream;

    ghost can_index = { λ places at. at < length places };

    ghost index_gives = { λ places at session. session ≡ slice_index_or places at session };

    fn index(&self, at: usize) -> &Stream {
        &self.all[at]
    }
}

fn streams(alloc: Global, count: u8, ceiling: u8) -> Result<Vec<Stream>, Memory>
    requires { (1 ≤ ceiling) × (ceiling ≤ 15) }
    ensures { IfOk result (λ v. v.items ≡ replicate count (stream_of true ceiling blank)) }
{
    let mut all = Vec::with_capacity(alloc, count as usize)?;
    for _ in 0..count {
        all.push(Stream::make(alloc, ceiling)?)?;
    }
    Ok(all)
}

fn reset_all(sessions: &mut [Stream], ceiling: u8)
    requires { (1 ≤ ceiling) × (ceiling ≤ 15) }
    ensures { sessions.new ≡ replicate (length sessions.old) (stream_of true ceiling blank) }
{
    for session in sessions.iter_mut() {
        session.reset(ceiling);
    }
}
