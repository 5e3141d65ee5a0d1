//! A list that only clauses see: what a program keeps no longer, but its contracts still speak of.
#![tactic(auto)]

ghost use Rattle.std.specs.Prelude.{◌≡◌, List, [], ◌∷◌, ◌++◌};
ghost use Rattle.std.specs.Borrow.{ftrue};

use std::marker::{Model, PhantomData};

/// A list that grows at its end and exists in the proofs alone: it has no bytes, and its calls change nothing else. A clause
/// reads the list as `items`. Nothing but the clauses of its calls ties it to what a program does, so a type that keeps one
/// says in its invariant what of its other fields it tells.
#[derive(Drop)]
pub struct Tale<A> {
    of: PhantomData<A>,
    pub ghost items: { List A },
}

impl<A> Model for Tale<A> {
    ghost also_owns = { λ _. ftrue };
}

// It owns nothing.
unsafe impl<A: Send> Send for Tale<A> {}

impl<A> Tale<A> {
    /// A list without an item.
    pub fn new() -> Tale<A>
        ensures { result.items ≡ [] }
    {
        Tale { of: PhantomData }
    }

    /// The list with this item behind the others.
    pub fn and(&self, _item: &A) -> Tale<A>
        ensures { result.items ≡ self.now.items ++ _item.now ∷ [] }
    {
        Tale { of: PhantomData }
    }
}

impl<A: Drop> Tale<A> {
    /// Adds these items behind the others, one after another.
    pub fn push_all(&mut self, items: &[A])
        ensures { self.new.items ≡ self.old.items ++ items.now }
    {
        for item in items {
            *self = self.and(item);
        }
    }
}
