//! The services that are offered.

ghost use Rattle.std.specs.Prelude.{◌≡◌, ◌<◌, ◌≤◌, [], ◌∷◌, ◌++◌, length, OnOk, OnErr, IfOk, IfSome, position};
ghost use Rattle.lat_machines.specs.values.Names.{same};

use lat_base::{Memory, Name};
use std::alloc::Global;
use std::marker::Model;

/// A list of at most 32 names of services. The 16 in its name is the most bytes that a service's name has. Contracts see the
/// list of the names, in order.
pub struct Services16 {
    names: Vec<Name>,
}

impl Drop for Services16 {
    fn drop(self) {
        let Self { names } = self;
    }
}

impl Model for Services16 {
    ghost use Rattle.std.specs.Prelude.{ℕ, List, ◌≤◌, length};

    ghost Value = { List (List ℕ) };

    ghost view = { λ a. a.names.items };

    ghost invariant = { λ a. length a.names.items ≤ 32 };
}

impl Services16 {
    /// No service. It takes no memory.
    pub fn make(alloc: Global) -> Services16
        ensures { result ≡ [] }
    {
        Services16 {
            names: Vec::new(alloc),
        }
    }

    /// Adds a name at the end. There must be fewer than 32 so far. After `Memory` nothing has changed.
    pub fn push(&mut self, name: &Name) -> Result<(), Memory>
        requires { length self.old < 32 }
        ensures ok { OnOk result (self.new ≡ self.old ++ name.now ∷ []) }
        ensures err { OnErr result (self.new ≡ self.old) }
    {
        self.names.push(*name)?;
        Ok(())
    }

    /// How many names it has.
    pub fn len(&self) -> usize
        ensures value { result ≡ length self.now }
        ensures most { length self.now ≤ 32 }
    {
        self.names.len()
    }

    /// The names, first to last.
    pub fn as_slice(&self) -> &[Name]
        ensures value { result.now ≡ self.now }
        ensures most { length self.now ≤ 32 }
    {
        self.names.as_slice()
    }

    /// Where the name first stands, counted from 0, without regard to case.
    pub fn place_of(&self, name: &Name) -> Option<usize>
        ensures { result ≡ position (λ n. same name.now n) self.now }
    {
        let key = name.folded();
        self.names.iter().position(|n| key == n.folded())
    }
}
