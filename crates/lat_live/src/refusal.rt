//! What an operator is told of a port that couldn't be opened.

ghost use Rattle.std.specs.Prelude.{◌≡◌, IfOk, string_bytes};
ghost use Rattle.lat_live.specs.Refusals.{refused_text, words_of};

use crate::opening::{PortOf, Refused};
use lat_outside::PortFault;
use std::alloc::{AllocError, Global};

fn words_of(fault: PortFault) -> &'static str
    ensures { result.now ≡ words_of fault }
{
    match fault {
        PortFault::InUse => "address in use",
        PortFault::Denied => "permission denied",
        PortFault::Peers => "more than eight peers",
        PortFault::Other => "can't be opened",
    }
}

/// One line: whose port couldn't be opened, which one it is, and why.
pub fn refused_text(alloc: Global, refused: Refused) -> Result<String, AllocError>
    ensures { IfOk result (λ t. string_bytes t ≡ refused_text refused) }
{
    let Refused { of, port, fault } = refused;
    let words = words_of(fault);
    match of {
        PortOf::Carrier => format!(in alloc; "latd: 127.0.0.1:{port}: {words}\n"),
        PortOf::Line(k) => format!(in alloc; "latd: line {k}: 127.0.0.1:{port}: {words}\n"),
    }
}
