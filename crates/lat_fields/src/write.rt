//! Writing fields.

ghost use Rattle.std.specs.Prelude.{◌≡◌, ◌+◌, ◌-◌, ◌<◌, ◌≤◌, ◌++◌, length};
ghost use Rattle.lat_fields.specs.Texts.{counted, number};
ghost use Rattle.lat_fields.specs.Payloads.{padded};

use lat_base::Payload;

/// A written payload has at least so many bytes, as a frame of the wire has.
pub const LEAST_PAYLOAD: usize = 46;

/// Writes a number of two bytes, low byte first.
pub fn write_number(out: &mut Payload, value: u16)
    requires { length out.old + 2 ≤ 1500 }
    ensures { out.new ≡ out.old ++ number value }
{
    out.append(&value.to_le_bytes());
}

/// Writes a counted text.
pub fn write_counted(out: &mut Payload, text: &[u8])
    requires short { length text.now < 256 }
    requires room { length out.old + 1 + length text.now ≤ 1500 }
    ensures { out.new ≡ out.old ++ counted text.now }
{
    out.push(text.len() as u8);
    out.append(text);
}

/// Writes zeros behind a text that is shorter than 46 bytes, up to 46.
pub fn write_padding(out: &mut Payload)
    ensures { out.new ≡ padded out.old }
{
    let zeros = [0; LEAST_PAYLOAD];
    let len = out.len();
    if len < LEAST_PAYLOAD {
        out.append(&zeros[..LEAST_PAYLOAD - len]);
    }
}
