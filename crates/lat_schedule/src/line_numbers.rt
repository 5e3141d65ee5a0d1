//! The numbers of lines.

ghost use Rattle.std.specs.Prelude.{◌≡◌, ◌∷◌, [], ◌++◌, OnOk, OnErr, get_or};

use lat_base::Memory;
use std::alloc::Global;
use std::marker::Model;

/// Numbers of lines, in order. Contracts see the list.
pub struct LineNumbers {
    numbers: Vec<u32>,
}

impl Drop for LineNumbers {
    fn drop(self) {
        let Self { numbers } = self;
    }
}

impl Model for LineNumbers {
    ghost use Rattle.std.specs.Prelude.{ℕ, List};

    ghost Value = { List ℕ };

    ghost view = { λ a. a.numbers.items };
}

impl LineNumbers {
    /// No number. It takes no memory.
    pub fn new(alloc: Global) -> LineNumbers
        ensures { result ≡ [] }
    {
        LineNumbers {
            numbers: Vec::new(alloc),
        }
    }

    /// Adds a number at the end, for which it may take memory. `Memory` where none is found; then nothing has changed.
    pub fn push(&mut self, number: u32) -> Result<(), Memory>
        ensures ok { OnOk result (self.new ≡ self.old ++ number ∷ []) }
        ensures err { OnErr result (self.new ≡ self.old) }
    {
        match self.numbers.push(number) {
            Ok(()) => Ok(()),
            Err(_) => Err(Memory),
        }
    }

    /// The number of this place, counted from 0; 0 where there are fewer.
    pub fn at(&self, place: usize) -> u32
        ensures { result ≡ get_or self.now place 0 }
    {
        match self.numbers.as_slice().get(place) {
            Some(number) => *number,
            None => 0,
        }
    }
}
