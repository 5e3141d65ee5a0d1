//! The datagrams of the loopback carrier.

ghost use Rattle.std.specs.Prelude.{◌≡◌, ◌+◌, ◌≤◌, ◌⊎◌, ◌↔◌, ◌++◌, length, take, IfSome, IsTrue, None};
ghost use Rattle.lat_udp.specs.Datagrams.{datagram, IsFor, IsSentTo};

use lat_base::{Addr, EVERYONE};

// The type of each datagram.
const KIND: [u8; 2] = [0x60, 0x04];

/// The longest datagram.
pub const DATAGRAM_BYTES: usize = 1514;

// Puts bytes behind the first `at` of the place, and answers how many it has then.
fn put_behind(at: usize, bytes: &[u8], place: &mut [u8; DATAGRAM_BYTES]) -> usize
    requires { at + length bytes.now ≤ 1514 }
    ensures end { result ≡ at + length bytes.now }
    ensures bytes { take result place.new ≡ take at place.old ++ bytes.now }
{
    let end = at + bytes.len();
    place[at..end].copy_from_slice(bytes);
    end
}

/// Puts the datagram of a payload of at most 1,500 bytes at the front of the place, and answers how many bytes it has.
pub fn put_datagram(to: Addr, from: Addr, payload: &[u8], place: &mut [u8; DATAGRAM_BYTES]) -> usize
    requires { length payload.now ≤ 1500 }
    ensures end { result ≡ length payload.now + 14 }
    ensures bytes { take result place.new ≡ datagram to.0 from.0 payload.now }
{
    let end = put_behind(0, to.0.as_slice(), place);
    let end = put_behind(end, from.0.as_slice(), place);
    let end = put_behind(end, KIND.as_slice(), place);
    put_behind(end, payload, place)
}

// Whether a station with this address hears what is sent to that one.
fn is_for(own: Addr, to: Addr) -> bool
    ensures { IsTrue result ↔ (to.0 ≡ own.0) ⊎ (to.0 ≡ EVERYONE.0) }
{
    to == own || to.is_everyone()
}

/// What a station hears of at most 1,514 bytes: the sender's address and the payload, where they are a datagram that is sent to
/// the station or to everyone. `None` exactly where they aren't.
pub fn heard(own: Addr, bytes: &[u8]) -> Option<(Addr, &[u8])>
    requires { length bytes.now ≤ 1514 }
    ensures within { IfSome result (λ r. length r.1.now ≤ 1500) }
    ensures sent { IfSome result (λ r. IsFor own.0 EVERYONE.0 r.0.0 r.1.now bytes.now) }
    ensures none { result ≡ None → ¬ (IsSentTo own.0 EVERYONE.0 bytes.now) }
{
    let (to, behind) = bytes.split_first_chunk::<6>()?;
    let (from, behind) = behind.split_first_chunk::<6>()?;
    let (kind, payload) = behind.split_first_chunk::<2>()?;
    if *kind != KIND || !is_for(own, Addr(*to)) {
        return None;
    }
    Some((Addr(*from), payload))
}
