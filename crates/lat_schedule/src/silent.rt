//! Lines that say nothing.

ghost use Rattle.std.specs.Prelude.{◌≡◌};
ghost use Rattle.lat_schedule.specs.Places.{is_silent, may_be_silent};

use crate::rest::Rest;

/// Whether a line says nothing: it has no byte, or begins with `#`.
pub fn is_silent(line: &[u8]) -> bool
    ensures { result ≡ is_silent line.now }
{
    match line.first() {
        None => true,
        Some(byte) => *byte == b'#',
    }
}

/// Whether silent lines are passed over in a text.
pub fn may_be_silent(text: &[u8]) -> bool
    ensures { result ≡ may_be_silent text.now }
{
    let lines = Rest {
        number: 1,
        text,
        silent: true,
    };
    match lines.line() {
        Ok(first) => first.line == "lat 3".as_bytes(),
        Err(_) => false,
    }
}
