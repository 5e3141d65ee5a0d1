//! Reading a file.

ghost use Rattle.std.specs.Prelude.{◌≡◌, ◌+◌, ◌≤◌, length, drop, IfOk, None};
ghost use Rattle.lat_pcap.specs.Files.{IsFile, IsRead};
ghost use Rattle.lat_pcap.specs.declared.contents.Contents.{Contents};
ghost use Rattle.lat_pcap.specs.Held.{records_at, contents_of};

use crate::contents::Contents;
use crate::head::{Head, head_of};
use crate::record::{frame_of, record_of};
use lat_base::Memory;
use std::alloc::Global;

fn records_of(alloc: Global, head: Head, bytes: &[u8], place: usize) -> Result<Contents, Memory>
    requires { place ≤ length bytes.now }
    ensures { IfOk result (λ c. c ≡ records_at (length bytes.now + 1) head place (drop place bytes.now)) }
{
    let mut contents = Contents::new(alloc);
    let mut at = place;
    for _ in 0..bytes.len() + 1 {
        if at == bytes.len() {
            return Ok(contents);
        }
        match record_of(head, bytes, at) {
            Ok((stamp, data, behind)) => {
                contents.add(frame_of(alloc, head, stamp, data)?)?;
                at = behind;
            }
            Err(wrong) => {
                contents.wrong = Some(wrong);
                return Ok(contents);
            }
        }
    }
    Ok(contents)
}

#[tactic(auto, unfolding(crate::specs::Held::contents_of))]
fn contents_from(alloc: Global, bytes: &[u8]) -> Result<Contents, Memory>
    ensures { IfOk result (λ c. c ≡ contents_of bytes.now) }
{
    match head_of(bytes) {
        Ok((head, place)) => records_of(alloc, head, bytes, place),
        Err(wrong) => {
            let mut contents = Contents::new(alloc);
            contents.wrong = Some(wrong);
            Ok(contents)
        }
    }
}

/// What the bytes of a whole file hold, up to its end or to the first part that is wrong, for which it takes memory. Nothing
/// is wrong exactly where the bytes are a file, as `docs/FORMATS.md` has it under "Pcap files". `Memory` where none is found.
pub fn read(alloc: Global, bytes: &[u8]) -> Result<Contents, Memory>
    ensures whole { IfOk result (λ c. c.wrong ≡ None → IsFile bytes.now c) }
    ensures found { IfOk result (λ c. IsRead bytes.now c) }
    ensures only { (c : Contents) → IsRead bytes.now c → IfOk result (λ read. read ≡ c) }
    ensures exact { IfOk result (λ c. c ≡ contents_of bytes.now) }
{
    contents_from(alloc, bytes)
}
