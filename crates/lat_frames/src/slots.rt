//! Lists of slots.

ghost use Rattle.std.specs.Prelude.{◌≡◌, [], ◌∷◌, ◌++◌, OnOk, OnErr};

use lat_base::Memory;
use lat_slots::Slot;
use std::alloc::Global;
use std::marker::Model;

/// The slots of a message, in order. Contracts see the list.
pub struct Slots {
    slots: Vec<Slot>,
}

impl Drop for Slots {
    fn drop(self) {
        let Self { slots } = self;
    }
}

impl Model for Slots {
    ghost use Rattle.std.specs.Prelude.{List};
    ghost use Rattle.lat_slots.specs.declared.slot.Slot.{Slot};

    ghost Value = { List Slot };

    ghost view = { λ a. a.slots.items };
}

impl Slots {
    /// No slot.
    pub fn new(alloc: Global) -> Slots
        ensures { result ≡ [] }
    {
        Slots {
            slots: Vec::new(alloc),
        }
    }

    /// Adds a slot at the end. Takes memory for it; without it nothing has changed.
    pub fn push(&mut self, slot: Slot) -> Result<(), Memory>
        ensures ok { OnOk result (self.new ≡ self.old ++ slot ∷ []) }
        ensures err { OnErr result (self.new ≡ self.old) }
    {
        self.slots.push(slot)?;
        Ok(())
    }

    /// The slots, first to last.
    pub fn as_slice(&self) -> &[Slot]
        ensures { result.now ≡ self.now }
    {
        self.slots.as_slice()
    }
}
