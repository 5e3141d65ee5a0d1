//! The line of those that wait for one service.

ghost use Rattle.std.specs.Prelude.{◌≡◌, ◌<◌, ◌≤◌, [], ◌∷◌, ◌++◌, length, IfOk, IfSome, IsSome, slice_get, position};
ghost use Rattle.lat_queue.specs.Lines.{has_key, place_of, without};

use crate::entry::Waiter;
use crate::key::Key;
use lat_base::Memory;
use std::alloc::Global;
use std::marker::Model;

/// How many may wait for one service.
pub(crate) const LINE: usize = 64;

/// At most 64 that wait, in the order of their first commands. Contracts see the list.
pub(crate) struct Line {
    waiters: Vec<Waiter>,
}

impl Drop for Line {
    fn drop(self) {
        let Self { waiters } = self;
    }
}

impl Model for Line {
    ghost use Rattle.std.specs.Prelude.{List, ◌≤◌, vec_len, vec_capacity};
    ghost use Rattle.lat_queue.specs.declared.entry.Waiter.{Waiter};

    ghost Value = { List Waiter };

    ghost view = { λ a. a.waiters.items };

    ghost invariant = { λ a. (vec_len a.waiters ≤ 64) × (64 ≤ vec_capacity a.waiters) };
}

impl Line {
    /// An empty line, with all the room that it will need.
    pub(crate) fn make(alloc: Global) -> Result<Line, Memory>
        ensures { IfOk result (λ v. v ≡ []) }
    {
        Ok(Line {
            waiters: Vec::with_capacity(alloc, LINE)?,
        })
    }

    /// How many wait.
    pub(crate) fn len(&self) -> usize
        ensures value { result ≡ length self.now }
        ensures most { length self.now ≤ 64 }
    {
        self.waiters.len()
    }

    /// The one at this place, counted from 0.
    pub(crate) fn get(&self, at: usize) -> Option<Waiter>
        ensures { result ≡ slice_get self.now at }
    {
        self.waiters.get(at).copied()
    }

    /// The first of them.
    pub(crate) fn first(&self) -> Option<Waiter>
        ensures { result ≡ slice_get self.now 0 }
    {
        self.waiters.get(0).copied()
    }

    /// One more waits, behind all others. There must be room.
    pub(crate) fn join(&mut self, waiter: Waiter)
        requires { length self.old < 64 }
        ensures { self.new ≡ self.old ++ waiter ∷ [] }
    {
        self.waiters.push_reserved(waiter);
    }

    /// The place of the key, which waits, counted from 1.
    pub(crate) fn place_of(&self, key: &Key) -> u16
        requires { IsSome (position (has_key key.now) self.now) }
        ensures value { result ≡ place_of key.now self.now }
        ensures bounds { (1 ≤ result) × (result ≤ 64) }
    {
        let Some(at) = self.index_of(key) else {
            unreachable!()
        };
        at as u16 + 1
    }

    fn index_of(&self, key: &Key) -> Option<usize>
        ensures value { result ≡ position (has_key key.now) self.now }
        ensures within { IfSome result (λ i. i < length self.now) }
        ensures most { length self.now ≤ 64 }
    {
        self.waiters.iter().position(|w| *key == w.key)
    }

    /// The key waits no longer.
    pub(crate) fn leave(&mut self, key: &Key)
        ensures { self.new ≡ without key.now self.old }
    {
        if let Some(at) = self.index_of(key) {
            self.waiters.remove(at);
        }
    }
}
