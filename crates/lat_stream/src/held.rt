//! The slots that a session holds.

ghost use Rattle.std.specs.Prelude.{◌≡◌, ◌≤◌, [], length};
ghost use Rattle.circular_buffer.specs.Buffer.{buffer};
ghost use Rattle.lat_stream.specs.Steps.{still_held};

use circular_buffer::HeapCircularBuffer;
use lat_credit::Credits;

/// Takes `taken` more items of the held slots. Those of which all are taken are held no more.
pub(crate) fn let_go(held: &mut HeapCircularBuffer<u8>, credits: &mut Credits, taken: usize)
    requires { (length held.old.items ≡ credits.old.held)
        × (length held.old.items ≤ held.old.capacity) }
    ensures held { held.new ≡ buffer (still_held taken held.old.items) held.old.capacity }
    ensures credits { credits.new ≡ record credits.old { held = length (still_held taken held.old.items) } }
{
    let mut left = taken;
    while let Some(n) = held.pop_front() {
        if left < n as usize {
            held.push_front(n - left as u8);
            return;
        }
        left -= n as usize;
        credits.release();
    }
}

/// Drops what is left of the held slots.
pub(crate) fn let_go_all(held: &mut HeapCircularBuffer<u8>, credits: &mut Credits)
    requires { length held.old.items ≡ credits.old.held }
    ensures held { held.new ≡ buffer [] held.old.capacity }
    ensures credits { credits.new ≡ record credits.old { held = 0 } }
{
    for _ in 0..held.len() {
        credits.release();
    }
    held.clear();
}
