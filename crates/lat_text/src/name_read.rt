//! Names as they are written.

ghost use Rattle.std.specs.Prelude.{◌≡◌, ◌<◌, option_map, length, IfSome};
ghost use Rattle.lat_base.specs.Names.{IsName};
ghost use Rattle.lat_text.specs.NameWritten.{escaped, first_byte, name_of};

use crate::bytes::byte_of;
use crate::name::is_plain;
use lat_base::Name;

// The byte whose two hex digits a text begins with, and the text behind them. None where it stands for itself.
fn escaped(text: &[u8]) -> Option<(u8, &[u8])>
    ensures byte { option_map (λ r. (r.0, r.1.now)) result ≡ escaped text.now }
    ensures shorter { IfSome result (λ r. length r.1.now < length text.now) }
{
    match text {
        [high, low, behind @ ..] => {
            let byte = byte_of(*high, *low)?;
            if is_plain(byte) {
                None
            } else {
                Some((byte, behind))
            }
        }
        _ => None,
    }
}

// The byte of a name that a text begins with, and the text behind it.
fn first_byte(text: &[u8]) -> Option<(u8, &[u8])>
    ensures byte { option_map (λ r. (r.0, r.1.now)) result ≡ first_byte text.now }
    ensures shorter { IfSome result (λ r. length r.1.now < length text.now) }
{
    match text {
        [byte, behind @ ..] if is_plain(*byte) => Some((*byte, behind)),
        [b'%', behind @ ..] => escaped(behind),
        _ => None,
    }
}

/// The name that a text writes: a visible character of ASCII but `%` stands for itself, each other byte of the name is
/// `%` and its two hex digits of either case. None where the text is no such one.
pub fn name_of(text: &[u8]) -> Option<Name>
    ensures value { result ≡ name_of text.now }
    ensures name { IfSome result IsName }
{
    let mut place = [0; 16];
    let mut count = 0;
    let mut rest = text;
    while !rest.is_empty() {
        if count == place.len() {
            return None;
        }
        let (byte, behind) = first_byte(rest)?;
        place[count] = byte;
        count += 1;
        rest = behind;
    }
    Name::read(&place[..count]).ok()
}
