//! The pattern of bytes that rounds put and look for.

ghost use Rattle.std.specs.Prelude.{◌≡◌, ◌+◌, ◌-◌, ◌^◌, min, if◌then◌else◌};
ghost use Rattle.lat_script.specs.Pattern.{byte_of, is_byte_of};

use lat_base::Item;

/// The byte that is put as the one of this number.
pub fn byte_of(number: u64) -> u8
    ensures { result ≡ byte_of number }
{
    (number % 251) as u8
}

/// How many items came.
#[derive(Clone, Copy)]
pub struct Came {
    pub items: u64,
    /// Those that weren't the bytes that were put, in order.
    pub wrong: u64,
}

impl Came {
    /// Looks at the next item.
    pub fn look(&mut self, item: Item)
        ensures items { self.new.items ≡ min (self.old.items + 1) (2 ^ 64 - 1) }
        ensures wrong { self.new.wrong ≡ if is_byte_of self.old.items item
            then self.old.wrong else min (self.old.wrong + 1) (2 ^ 64 - 1) }
    {
        if item != Item::Byte(byte_of(self.items)) {
            self.wrong = self.wrong.saturating_add(1);
        }
        self.items = self.items.saturating_add(1);
    }
}
