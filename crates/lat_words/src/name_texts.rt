//! Names as options have them.

ghost use Rattle.std.specs.Prelude.{◌≡◌, ◌<◌, option_map, length, IfSome};
ghost use Rattle.lat_base.specs.Names.{IsName};
ghost use Rattle.lat_text.specs.NameText as texts;
ghost use Rattle.lat_words.specs.NameTexts.{escaped, first_byte, named};

use lat_base::Name;
use lat_text::byte_of;

// Whether a byte of a name may stand for itself.
fn is_plain(byte: u8) -> bool
    ensures value { result ≡ texts.is_plain byte }
{
    matches!(byte, 0x21..=0x7e) && byte != b'%'
}

// The byte whose two hex digits a text begins with, and the text behind them.
fn escaped(text: &[u8]) -> Option<(u8, &[u8])>
    ensures byte { option_map (λ r. (r.0, r.1.now)) result ≡ escaped text.now }
    ensures shorter { IfSome result (λ r. length r.1.now < length text.now) }
{
    match text {
        [high, low, behind @ ..] => Some((byte_of(*high, *low)?, behind)),
        _ => None,
    }
}

// The byte of a name that a text begins with, and the text behind it.
fn first_byte(text: &[u8]) -> Option<(u8, &[u8])>
    ensures byte { option_map (λ r. (r.0, r.1.now)) result ≡ first_byte text.now }
    ensures shorter { IfSome result (λ r. length r.1.now < length text.now) }
{
    match text {
        [byte, behind @ ..] if is_plain(*byte) => Some((*byte, behind)),
        [b'%', behind @ ..] => escaped(behind),
        _ => None,
    }
}

/// The name that the text of an option writes: a visible character of ASCII but `%` stands for itself, and each byte may be
/// written as `%` and its two hex digits of either case. None where the text is no such one.
pub fn named(text: &[u8]) -> Option<Name>
    ensures value { result ≡ named text.now }
    ensures name { IfSome result IsName }
{
    let mut place = [0; 16];
    let mut count = 0;
    let mut rest = text;
    while !rest.is_empty() {
        if count == place.len() {
            return None;
        }
        let (byte, behind) = first_byte(rest)?;
        place[count] = byte;
        count += 1;
        rest = behind;
    }
    Name::read(&place[..count]).ok()
}
