//! A ring of items, which keeps its settings beside its bytes.

ghost use Rattle.std.specs.Prelude.{◌≡◌, ◌+◌, ◌-◌, ◌<◌, ◌≤◌, [], ◌∷◌, ◌++◌, ◌==◌, ◌&&◌, map, length, take, drop, min, cond, nat_lt, slice_get, IfOk};
ghost use Rattle.circular_buffer.specs.Buffer.{buffer};
ghost use Rattle.lat_base.specs.declared.item.Item.TheVariants as kept_items;
ghost use Rattle.lat_stream.specs.RingItems.{with_settings, span, behind, settings_in};
ghost use Rattle.lat_stream.specs.Turns.{leading};

use circular_buffer::HeapCircularBuffer;
use lat_base::{Item, Memory, Payload};
use std::alloc::Global;
use std::marker::Model;

/// A setting in a ring.
#[derive(Clone, Copy)]
pub struct Placed {
    /// How many bytes stand between the setting before it, or the front, and this one.
    gap: u16,
    setting: [u8; 5],
}

/// A ring of items: a byte for each, which is 0 in a setting's place, and beside them the settings. So an item that is a
/// byte, as nearly all are, takes one byte, and bytes go in and out many at a time. Contracts see the list of items, how
/// many there may be (fewer than 65,536), and how many of them may be settings. All memory is taken when it is made, and
/// none of it is written before an item comes.
pub struct ItemRing {
    bytes: HeapCircularBuffer<u8>,
    settings: HeapCircularBuffer<Placed>,
    /// How many bytes stand behind the last setting.
    trailing: usize,
}

impl Drop for ItemRing {
    fn drop(self) {
        let Self {
            bytes,
            settings,
            trailing,
        } = self;
    }
}

impl Model for ItemRing {
    ghost use Rattle.std.specs.Prelude.{◌≡◌, ◌+◌, ◌<◌, ◌≤◌, length, map};
    ghost use Rattle.lat_base.specs.declared.item.Item.TheVariants as kept_items;
    ghost use Rattle.lat_stream.specs.RingItems.{RingItems, with_settings, span};

    ghost Value = { RingItems };

    ghost view = { λ a. record {
      items = with_settings a.settings.items (map kept_items.Byte a.bytes.items);
      capacity = a.bytes.capacity;
      settings = a.settings.capacity;
    } };

    ghost invariant = { λ a.
        (span a.settings.items + a.trailing ≡ length a.bytes.items)
        × (length a.settings.items ≤ a.settings.capacity)
        × (a.bytes.capacity < 65536) };
}

impl ItemRing {
    /// A ring without an item, for `capacity` items, of which `settings` may be settings.
    pub fn with_capacity(
        alloc: Global,
        capacity: usize,
        settings: usize,
    ) -> Result<ItemRing, Memory>
        requires { capacity < 65536 }
        ensures { IfOk result (λ r. r ≡ record { items = []; capacity = capacity; settings = settings }) }
    {
        Ok(ItemRing {
            bytes: HeapCircularBuffer::with_capacity(alloc, capacity)?,
            settings: HeapCircularBuffer::with_capacity(alloc, settings)?,
            trailing: 0,
        })
    }

    /// How many items it has.
    pub fn len(&self) -> usize
        ensures len { result ≡ length self.now.items }
        ensures within { result ≤ self.now.capacity }
    {
        self.bytes.len()
    }

    /// Whether it has no item.
    pub fn is_empty(&self) -> bool
        ensures { result ≡ (length self.now.items == 0) }
    {
        self.bytes.is_empty()
    }

    /// Drops all its items.
    pub fn clear(&mut self)
        ensures { self.new ≡ record self.old { items = [] } }
    {
        self.bytes.clear();
        self.settings.clear();
        self.trailing = 0;
    }

    /// The first item.
    pub fn front(&self) -> Option<Item>
        ensures { result ≡ slice_get self.now.items 0 }
    {
        match self.settings.front() {
            Some(placed) if placed.gap == 0 => Some(Item::Set(placed.setting)),
            _ => match self.bytes.front() {
                Some(byte) => Some(Item::Byte(*byte)),
                None => None,
            },
        }
    }

    /// Adds as many of the bytes as fit, and tells how many.
    pub fn push_bytes(&mut self, bytes: &[u8]) -> usize
        ensures count { result ≡ min (length bytes.now) (self.old.capacity - length self.old.items) }
        ensures items { self.new ≡ record self.old {
          items = self.old.items
              ++ map kept_items.Byte (take result bytes.now);
        } }
    {
        let count = self.bytes.fill_from_slice(bytes);
        self.trailing += count;
        count
    }

    /// Adds a setting, where there is room for an item more and for a setting more.
    pub fn push_setting(&mut self, setting: [u8; 5])
        ensures { self.new ≡ cond
            (nat_lt (length self.old.items) self.old.capacity
            && nat_lt (settings_in self.old.items) self.old.settings)
            (record self.old { items = self.old.items ++ kept_items.Set setting ∷ [] })
            self.old }
    {
        if !self.has_room() {
            return;
        }
        let gap = self.trailing as u16;
        self.settings.push_back(Placed { gap, setting });
        self.bytes.push_back(0);
        self.trailing = 0;
    }

    // There is room for a setting.
    fn has_room(&self) -> bool
        ensures { result ≡ (nat_lt (length self.now.items) self.now.capacity
            && nat_lt (settings_in self.now.items) self.now.settings) }
    {
        self.bytes.len() < self.bytes.capacity() && self.settings.len() < self.settings.capacity()
    }

    /// How many bytes stand first, up to `most`.
    pub fn leading(&self, most: u8) -> u8
        ensures { result ≡ length (take most (leading self.now.items)) }
    {
        self.run().min(usize::from(most)) as u8
    }

    // How many bytes stand first.
    fn run(&self) -> usize
        ensures { result ≡ length (leading self.now.items) }
    {
        match self.settings.front() {
            Some(placed) => usize::from(placed.gap),
            None => self.bytes.len(),
        }
    }

    /// Moves the first `count` items, which are bytes, to the end of a payload.
    pub fn move_bytes(&mut self, count: u8, out: &mut Payload)
        requires bytes { count ≤ length (leading self.old.items) }
        requires room { length out.old + count ≤ 1500 }
        ensures items { self.new ≡ record self.old { items = drop count self.old.items } }
        ensures bytes { out.new ≡ out.old ++ take count (leading self.old.items) }
    {
        let count = usize::from(count);
        append_first(&self.bytes, count, out);
        self.drop_first(count);
    }

    /// Moves the first items to the front of `out`, as many as there are and as it has places, and tells how many.
    pub fn read_into(&mut self, out: &mut [Item]) -> usize
        ensures count { result ≡ min (length out.old) (length self.old.items) }
        ensures read { out.new ≡ take result self.old.items ++ drop result out.old }
        ensures items { self.new ≡ record self.old { items = drop result self.old.items } }
    {
        let count = out.len().min(self.bytes.len());
        self.read_first(&mut out[..count]);
        count
    }

    // Moves the first items to `out`, which has as many places.
    fn read_first(&mut self, out: &mut [Item])
        requires { length out.old ≤ length self.old.items }
        ensures read { out.new ≡ take (length out.old) self.old.items }
        ensures items { self.new ≡ record self.old { items = drop (length out.old) self.old.items } }
    {
        let count = out.len();
        copy_first(&self.bytes, out);
        let left = move_settings(&mut self.settings, out);
        self.trailing -= left;
        let kept = self.bytes.len() - count;
        self.bytes.truncate_front(kept);
    }

    /// Drops the first `count` items.
    pub fn drop_first(&mut self, count: usize)
        ensures { self.new ≡ record self.old { items = drop count self.old.items } }
    {
        let left = drop_settings(&mut self.settings, count);
        self.trailing = self.trailing.saturating_sub(left);
        let kept = self.bytes.len().saturating_sub(count);
        self.bytes.truncate_front(kept);
    }
}

// Adds the first `count` bytes to a payload.
fn append_first(bytes: &HeapCircularBuffer<u8>, count: usize, out: &mut Payload)
    requires count { count ≤ length bytes.now.items }
    requires room { length out.old + count ≤ 1500 }
    ensures { out.new ≡ out.old ++ take count bytes.now.items }
{
    let (front, back) = bytes.as_slices();
    let from_front = front.len().min(count);
    out.append(&front[..from_front]);
    out.append(&back[..count - from_front]);
}

// Copies the first bytes to `out`, which has as many places.
fn copy_first(bytes: &HeapCircularBuffer<u8>, out: &mut [Item])
    requires { length out.old ≤ length bytes.now.items }
    ensures { out.new ≡ map kept_items.Byte (take (length out.old) bytes.now.items) }
{
    let (front, back) = bytes.as_slices();
    let count = out.len();
    let from_front = front.len().min(count);
    write_bytes(&front[..from_front], &mut out[..from_front]);
    write_bytes(&back[..count - from_front], &mut out[from_front..]);
}

// Writes bytes as items, into as many places.
fn write_bytes(bytes: &[u8], out: &mut [Item])
    requires { length bytes.now ≡ length out.old }
    ensures { out.new ≡ map kept_items.Byte bytes.now }
{
    for (i, b) in bytes.iter().enumerate() {
        out[i] = Item::Byte(*b);
    }
}

// Moves the settings among the first items to their places in `out`, and tells how many of the items stand behind all
// settings.
fn move_settings(settings: &mut HeapCircularBuffer<Placed>, out: &mut [Item]) -> usize
    requires { length settings.old.items ≤ settings.old.capacity }
    ensures left { result ≡ length out.old - span settings.old.items }
    ensures items { out.new ≡ with_settings settings.old.items out.old }
    ensures settings { settings.new ≡ buffer (behind (length out.old) settings.old.items) settings.old.capacity }
{
    let mut at = 0;
    while let Some(placed) = settings.pop_front() {
        let Placed { gap, setting } = placed;
        let left = out.len() - at;
        if left <= gap as usize {
            let gap = gap - left as u16;
            settings.push_front(Placed { gap, setting });
            return 0;
        }
        at += gap as usize;
        out[at] = Item::Set(setting);
        at += 1;
    }
    out.len() - at
}

// Drops the settings among the first `count` items, and tells how many of the items stand behind all settings.
fn drop_settings(settings: &mut HeapCircularBuffer<Placed>, count: usize) -> usize
    requires { length settings.old.items ≤ settings.old.capacity }
    ensures left { result ≡ count - span settings.old.items }
    ensures settings { settings.new ≡ buffer (behind count settings.old.items) settings.old.capacity }
{
    let mut left = count;
    while let Some(placed) = settings.pop_front() {
        let Placed { gap, setting } = placed;
        if left <= gap as usize {
            let gap = gap - left as u16;
            settings.push_front(Placed { gap, setting });
            return 0;
        }
        left -= gap as usize + 1;
    }
    left
}
