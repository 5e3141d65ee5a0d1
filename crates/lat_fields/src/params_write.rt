//! Writing parameters.

ghost use Rattle.std.specs.Prelude.{◌≡◌, ◌+◌, ◌<◌, ◌≤◌, ◌++◌, ◌↔◌, length, min, IsTrue};
ghost use Rattle.std.specs.List.{AllByRecursion, list_all};
ghost use Rattle.lat_fields.specs.Params.{IsEntry, is_entry, entry_text, params_text};
ghost use Rattle.lat_fields.specs.ParamsReading.{entry};

use crate::params::{Param, Params};
use crate::write::write_counted;
use lat_base::Payload;

fn entry_ok(entry: &Param) -> bool
    ensures { result ≡ is_entry entry.now }
{
    entry.code > 0 && entry.bytes.as_slice().len() < 256
}

fn entries_ok(entries: &[Param]) -> bool
    ensures { result ≡ list_all is_entry entries.now }
{
    entries.iter().all(|entry| entry_ok(entry))
}

/// Whether each parameter has a code above 0 and at most 255 bytes, so that it can be written.
#[tactic(auto, using(crate::proofs::Entries::entries_pass))]
pub fn params_ok(params: &Params) -> bool
    ensures { IsTrue result ↔ AllByRecursion IsEntry params.now }
{
    entries_ok(params.as_slice())
}

fn entry_len(entry: &Param) -> usize
    ensures { result ≡ min (length (entry_text entry.now)) usize.MAX }
{
    entry.bytes.as_slice().len().saturating_add(2)
}

/// How many bytes the parameters are written as, with the 0 that ends them. It stops at the greatest `usize`.
pub fn params_len(params: &Params) -> usize
    ensures { result ≡ min (length (params_text params.now)) usize.MAX }
{
    let mut len: usize = 1;
    for entry in params.as_slice() {
        len = len.saturating_add(entry_len(entry));
    }
    len
}

/// Writes one parameter, as it stands in front of the 0 that ends a list of them.
pub fn write_param(out: &mut Payload, code: u8, bytes: &[u8])
    requires short { length bytes.now < 256 }
    requires room { length out.old + 2 + length bytes.now ≤ 1500 }
    ensures { out.new ≡ out.old ++ entry_text (entry code bytes.now) }
{
    out.push(code);
    write_counted(out, bytes);
}

/// Writes parameters, with the 0 that ends them.
pub fn write_params(out: &mut Payload, params: &Params)
    requires short { AllByRecursion IsEntry params.now }
    requires room { length out.old + length (params_text params.now) ≤ 1500 }
    ensures { out.new ≡ out.old ++ params_text params.now }
{
    for entry in params.as_slice() {
        write_param(out, entry.code, entry.bytes.as_slice());
    }
    out.push(0);
}
