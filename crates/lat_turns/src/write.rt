//! Items, written to a caller.

ghost use Rattle.std.specs.Prelude.{◌≡◌, ◌+◌, ◌<◌, ◌≤◌, ◌++◌, length, take, IfOk};
ghost use Rattle.lat_outside.specs.Visits.{MayAnswer, TakesAs, with_present};
ghost use Rattle.lat_turns.specs.Written.{IsWhole, front_of, item_bytes, items_bytes, wrote_by};

use lat_base::Item;
use lat_outside::{Callers, Failed};

/// How many items at most are written at a time.
pub(crate) const PIECE_ITEMS: usize = 1024;

// The byte of an item, if it is one, behind so many that are in the place.
fn copy_item(item: &Item, place: &mut [u8; PIECE_ITEMS], count: usize) -> usize
    requires { count < 1024 }
    ensures bound { result ≤ count + 1 }
    ensures bytes { take result place.new ≡ take count place.old ++ item_bytes item.now }
{
    match item {
        Item::Byte(byte) => {
            place[count] = *byte;
            count + 1
        }
        Item::Set(_) => count,
    }
}

// The bytes among the items, at the front of the place.
fn copy_bytes(items: &[Item], place: &mut [u8; PIECE_ITEMS]) -> usize
    requires { length items.now ≤ 1024 }
    ensures bound { result ≤ 1024 }
    ensures bytes { take result place.new ≡ items_bytes items.now }
{
    let mut count = 0;
    for item in items {
        count = copy_item(item, place, count);
    }
    count
}

// How many items stand at the front up to the byte behind so many bytes.
fn front_of(count: usize, items: &[Item]) -> usize
    ensures exact { result ≡ front_of count items.now }
    ensures bound { result ≤ length items.now }
{
    let mut left = count;
    let mut front = 0;
    for item in items {
        if let Item::Byte(_) = item {
            if left == 0 {
                return front;
            }
            left -= 1;
        }
        front += 1;
    }
    front
}

/// Writes the bytes among the items in one write, and answers how many of the items are written: a setting is as soon as all
/// bytes before it are.
pub(crate) fn write_piece<K: Callers>(callers: &mut K, items: &[Item]) -> Result<usize, Failed>
    requires { length items.now ≤ 1024 }
    ensures within { IfOk result (λ n. n ≤ length items.now) }
    ensures whole { IfOk result (λ n. IsWhole n items.now) }
    ensures visits { K.visits callers.new ≡ with_present (K.visits callers.old) (wrote_by result items.now) }
{
    let mut place = [0; PIECE_ITEMS];
    let count = copy_bytes(items, &mut place);
    let wrote = callers.write(&place[..count])?;
    Ok(front_of(wrote, items))
}
