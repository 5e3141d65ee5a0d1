//! The whole of an input.

ghost use Rattle.std.specs.Prelude.{◌≡◌, Err, IfOk, string_bytes};
ghost use Rattle.lat_audit.specs.AuditOf.{answer_of, audit_of};

use crate::auditor::Auditor;
use crate::read::{entry_of, title_of};
use lat_base::Memory;
use lat_text::{LineFault, first_line, wrong_line};
use std::alloc::Global;

// The answer to an input whose first wrong line has this number.
fn wrong(alloc: Global, number: usize) -> Result<(u8, String), Memory>
    ensures { IfOk result (λ r. (r.0, string_bytes r.1) ≡ answer_of (Err number)) }
{
    Ok((2, wrong_line(alloc, number)?))
}

/// What is printed of the text of a capture, with the status: 0 and the verdict, `legal` with the number of its RUNs or the first
/// entry that breaks a rule, with the rule; and 2 and the first wrong line, counted from 1, where the input hasn't its form. The
/// entries are gone through once. Takes memory for the text and each payload, and for what is kept of the last messages.
pub fn audit(alloc: Global, input: &[u8]) -> Result<(u8, String), Memory>
    ensures { IfOk result (λ r. (r.0, string_bytes r.1) ≡ audit_of input.now) }
{
    let Some((first, lines)) = first_line(input) else {
        return wrong(alloc, 1);
    };
    let Some(title) = title_of(first) else {
        return wrong(alloc, 1);
    };
    let mut auditor = Auditor::new(alloc, title);
    let mut number = 2;
    let mut rest = lines;
    while let Some((line, behind)) = first_line(rest) {
        match entry_of(alloc, line) {
            Ok(entry) => auditor.hear(alloc, &entry)?,
            Err(LineFault::Form) => return wrong(alloc, number),
            Err(LineFault::Memory) => return Err(Memory),
        }
        number += 1;
        rest = behind;
    }
    if !rest.is_empty() {
        return wrong(alloc, number);
    }
    Ok((0, auditor.verdict(alloc)?))
}
