//! The items that were taken for a caller.

ghost use Rattle.std.specs.Prelude.{◌≡◌, ◌≤◌, [], drop, take, length};

use lat_base::{Item, Items};
use std::alloc::Global;
use std::marker::Model;

/// The items of the last take, at most 65,535, less those that were written. Contracts see the list.
#[derive(Drop)]
pub struct Tray {
    items: Items,
    from: usize,
}

impl Model for Tray {
    ghost use Rattle.std.specs.Prelude.{◌≤◌, List, drop, length};
    ghost use Rattle.lat_base.specs.declared.item.Item.{Item};

    ghost Value = { List Item };

    ghost view = { λ a. drop a.from a.items };

    ghost invariant = { λ a. (a.from ≤ length a.items) × (length a.items ≤ 65535) };
}

impl Tray {
    /// Without an item. It takes no memory.
    pub fn new(alloc: Global) -> Tray
        ensures { result ≡ [] }
    {
        Tray {
            items: Items::new(alloc),
            from: 0,
        }
    }

    /// All its items.
    pub fn all(&self) -> &[Item]
        ensures { result.now ≡ self.now }
    {
        let (_, rest) = self.items.as_slice().split_at(self.from);
        rest
    }

    /// The first of its items, so many at most.
    pub fn front(&self, most: u16) -> &[Item]
        ensures { result.now ≡ take most self.now }
    {
        first(self.all(), most as usize)
    }

    /// The first of its items are written.
    pub fn wrote(&mut self, count: u16)
        requires { count ≤ length self.old }
        ensures { self.new ≡ drop count self.old }
    {
        self.from += count as usize;
    }

    /// These items take the place of what was there.
    pub fn take(&mut self, items: Items)
        requires { length items ≤ 65535 }
        ensures { self.new ≡ items }
    {
        self.items = items;
        self.from = 0;
    }
}

/// The first of the items, so many at most.
pub(crate) fn first(items: &[Item], most: usize) -> &[Item]
    ensures items { result.now ≡ take most items.now }
    ensures most { (length result.now ≤ most) × (length result.now ≤ length items.now) }
{
    if most < items.len() {
        &items[..most]
    } else {
        items
    }
}
