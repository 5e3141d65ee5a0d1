//! What a daemon says before it runs, or in place of it.

ghost use Rattle.std.specs.Prelude.{◌≡◌, ◌≢◌, ◌⊎◌};
ghost use Rattle.std.specs.Io.KnownBytes.{Appends};
ghost use Rattle.lat_live.specs.Printed.{AppendsPart, RoseIn};

use lat_outside::{Sink, write_all};

/// Writes a text. The status is this one, or 5 where it can't be written.
pub fn say<S: Sink>(out: &mut S, text: &str, status: u8) -> u8
    requires { status ≢ 5 }
    ensures status { (result ≡ status) ⊎ (result ≡ 5) }
    ensures written { result ≡ status → Appends (S.written out.old) (S.written out.new) text.now }
    ensures part { result ≡ 5 → AppendsPart (S.written out.old) (S.written out.new) text.now }
    ensures fault { result ≡ 5 → RoseIn S.faults out.old out.new }
{
    match write_all(out, text.as_bytes()) {
        Ok(()) => status,
        Err(_) => 5,
    }
}
