//! The items that were taken for a client.

ghost use Rattle.std.specs.Prelude.{◌≡◌, []};

use lat_base::{Item, Items};
use std::alloc::Global;
use std::marker::Model;

/// The items of the last take, less those that were written. Contracts see the list.
#[derive(Drop)]
pub struct Tray {
    items: Items,
    from: usize,
}

impl Model for Tray {
    ghost use Rattle.std.specs.Prelude.{◌≤◌, List, drop, length};
    ghost use Rattle.lat_base.specs.declared.item.Item.{Item};

    ghost Value = { List Item };

    ghost view = { λ a. drop a.from a.items };

    ghost invariant = { λ a. a.from ≤ length a.items };
}

impl Tray {
    /// Without an item. It takes no memory.
    pub fn new(alloc: Global) -> Tray
        ensures { result ≡ [] }
    {
        Tray {
            items: Items::new(alloc),
            from: 0,
        }
    }

    /// All its items.
    pub fn all(&self) -> &[Item]
        ensures { result.now ≡ self.now }
    {
        let (_, rest) = self.items.as_slice().split_at(self.from);
        rest
    }

    /// These items take the place of what was there.
    pub fn take(&mut self, items: Items)
        ensures { self.new ≡ items }
    {
        self.items = items;
        self.from = 0;
    }
}
