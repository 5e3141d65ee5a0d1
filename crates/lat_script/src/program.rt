//! A script, from the input to the text that is printed of it.

ghost use Rattle.std.specs.Prelude.{◌≡◌, ◌≢◌, ◌<◌, ℕ, codes, length, take, string_bytes, IfOk, IfSome};
ghost use Rattle.std.specs.Io.KnownBytes.{Appends};
ghost use Rattle.lat_outside.specs.Causes.{Rose};
ghost use Rattle.lat_script.specs.Runs.{IsAnswer, IsEarly, IsPrinted, IsStatus, Prints, Wrote, WrotePart};

use lat_base::Memory;
use lat_outside::{ReadEnd, Sink, Source, read_all, write_all};
use std::alloc::Global;

/// How many bytes of input are read at most.
pub const INPUT_BYTES: usize = 16_777_216;

// What is printed of an input.
fn text_of<P: Fn(Global, &str) -> Result<String, Memory>>(
    alloc: Global,
    played: P,
    input: &[u8],
) -> Result<String, Memory>
    requires { P.IsAlwaysCallable played }
    ensures { IfOk result (λ text.
        IsPrinted (Prints P.Fn played alloc) input.now (string_bytes text)) }
{
    match str::from_utf8(input) {
        Ok(script) => played(alloc, script),
        Err(_) => Ok(String::from_str(alloc, "no text\n")?),
    }
}

// Writes the text, and gives the status, or 5 where it couldn't be written.
fn written<K: Sink>(out: &mut K, status: u8, text: &str) -> u8
    requires { status ≢ 5 }
    ensures fault { result ≡ 5 → Rose (K.faults out.old) (K.faults out.new) }
    ensures written { result ≢ 5 → (result ≡ status)
        × Appends (K.written out.old) (K.written out.new) text.now }
    ensures part { result ≡ 5 → (n : ℕ)
        × Appends (K.written out.old) (K.written out.new) (take n text.now) }
{
    match write_all(out, text.as_bytes()) {
        Ok(()) => status,
        Err(_) => 5,
    }
}

/// Reads a script to its end, writes what `played` prints of it, and gives the status of the program:
///
/// - 0: all was written, which is `no text` where the input isn't UTF-8;
/// - 4: a read failed; nothing was written;
/// - 5: a write failed; a part of what was to be written was, from its beginning;
/// - 6: the input has more than 16,777,216 bytes; `limit bytes` was written;
/// - 9: no memory was found; nothing was written.
pub fn run<S: Source, K: Sink, P: Fn(Global, &str) -> Result<String, Memory>>(
    alloc: Global,
    played: P,
    src: &mut S,
    out: &mut K,
) -> u8
    requires { P.IsAlwaysCallable played }
    ensures status { IsStatus result }
    ensures read { result ≡ 4 → Rose (S.faults src.old) (S.faults src.new) }
    ensures write { result ≡ 5 → Rose (K.faults out.old) (K.faults out.new) }
    ensures limit { result ≡ 6 → IfSome (S.left src.old) (λ xs. 16777216 < length xs) }
    ensures printed { result ≡ 0 →
        Wrote (λ text.
        IfSome (S.left src.old) (λ xs. IsPrinted (Prints P.Fn played alloc) xs text))
        (K.written out.old) (K.written out.new) }
    ensures part { result ≡ 5 →
        WrotePart (λ text.
        IfSome (S.left src.old) (λ xs. IsAnswer (Prints P.Fn played alloc) xs text))
        (K.written out.old) (K.written out.new) }
    ensures told { result ≡ 6 → Appends (K.written out.old) (K.written out.new)
        (codes "limit bytes\n") }
    ensures unwritten { IsEarly result → out.new ≡ out.old }
{
    let input = match read_all(alloc, src, INPUT_BYTES) {
        Ok(input) => input,
        Err(ReadEnd::Fault) => return 4,
        Err(ReadEnd::Limit) => return written(out, 6, "limit bytes\n"),
        Err(ReadEnd::Memory) => return 9,
    };
    let Ok(text) = text_of(alloc, played, &input) else {
        return 9;
    };
    written(out, 0, &text)
}
