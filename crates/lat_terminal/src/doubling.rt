//! What is sent to a client that speaks telnet.

ghost use Rattle.std.specs.Prelude.{◌≡◌, ◌≤◌, ◌+◌, ◌*◌, ◌++◌, length, vec_capacity, vec_len};
ghost use Rattle.lat_terminal.specs.Doubling.{doubled, doubled_byte};

use crate::negotiation::IAC;

fn double_byte(byte: u8, out: &mut Vec<u8>)
    requires { vec_len out.now + 2 ≤ vec_capacity out.now }
    ensures bytes { out.new.items ≡ out.old.items ++ doubled_byte byte }
    ensures len { vec_len out.new ≤ vec_len out.old + 2 }
    ensures room { vec_capacity out.new ≡ vec_capacity out.old }
{
    if byte == IAC {
        out.push_reserved(IAC);
    }
    out.push_reserved(byte);
}

/// Puts these bytes behind what `out` has, as a client hears them: each 255 is sent twice (`docs/PROTOCOL.md`, "Telnet"). `out`
/// has room for twice as many, so no memory is taken.
pub fn double(bytes: &[u8], out: &mut Vec<u8>)
    requires { vec_len out.now + 2 * length bytes.now ≤ vec_capacity out.now }
    ensures bytes { out.new.items ≡ out.old.items ++ doubled bytes.now }
    ensures room { vec_capacity out.new ≡ vec_capacity out.old }
{
    for byte in bytes {
        double_byte(*byte, out);
    }
}
