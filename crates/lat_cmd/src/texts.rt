//! What the commands come to that make no world.

ghost use Rattle.std.specs.Prelude.{◌≡◌, None, IfOk};
ghost use Rattle.lat_show.specs.ShowOf.{show_of};
ghost use Rattle.lat_dump.specs.DumpOf.{dump_of};
ghost use Rattle.lat_trace.specs.TraceText.{trace_of};
ghost use Rattle.lat_draw.specs.DrawText.{draw_of};
ghost use Rattle.lat_wire.specs.Rates.{RatesWhatIsLeft};
ghost use Rattle.lat_audit.specs.AuditOf.{audit_of};
ghost use Rattle.lat_show.specs.choice.ChooseOf.{choose_of};
ghost use Rattle.lat_cmd.specs.Answers.{plain};
ghost use Rattle.lat_cmd.specs.Outcomes.{IsOutcome};

use crate::outcome::Outcome;
use lat_audit::audit;
use lat_base::Memory;
use lat_draw::draw;
use lat_dump::dump;
use lat_node::RatingRule;
use lat_show::{choose, show};
use lat_trace::trace;
use std::alloc::Global;

/// Prints payloads.
pub(crate) fn shown<H: RatingRule>(alloc: Global, input: &[u8]) -> Result<Outcome<H>, Memory>
    ensures answer { IfOk result (λ o. IsOutcome (plain (show_of input.now)) o) }
    ensures before { IfOk result (λ o. o.before ≡ None) }
{
    let (status, text) = show(alloc, input)?;
    Ok(Outcome::plain(status, text))
}

/// Names the best nodes.
pub(crate) fn chosen<H: RatingRule>(alloc: Global, input: &[u8]) -> Result<Outcome<H>, Memory>
    ensures answer { IfOk result (λ o. IsOutcome (plain (choose_of input.now)) o) }
    ensures before { IfOk result (λ o. o.before ≡ None) }
{
    let (status, text) = choose(alloc, input)?;
    Ok(Outcome::plain(status, text))
}

/// Audits a capture.
pub(crate) fn audited<H: RatingRule>(alloc: Global, input: &[u8]) -> Result<Outcome<H>, Memory>
    ensures answer { IfOk result (λ o. IsOutcome (plain (audit_of input.now)) o) }
    ensures before { IfOk result (λ o. o.before ≡ None) }
{
    let (status, text) = audit(alloc, input)?;
    Ok(Outcome::plain(status, text))
}

/// Prints the frames of a pcap file.
pub(crate) fn dumped<H: RatingRule>(alloc: Global, input: &[u8]) -> Result<Outcome<H>, Memory>
    ensures answer { IfOk result (λ o. IsOutcome (plain (dump_of input.now)) o) }
    ensures before { IfOk result (λ o. o.before ≡ None) }
{
    let (status, text) = dump(alloc, input)?;
    Ok(Outcome::plain(status, text))
}

/// Prints all that happened when a schedule was played.
pub(crate) fn traced<H: RatingRule>(
    alloc: Global,
    rule: H,
    input: &[u8],
) -> Result<Outcome<H>, Memory>
    requires fact { H.fact rule }
    requires rates { RatesWhatIsLeft (H.may rule) }
    ensures answer { IfOk result (λ o. IsOutcome (plain (trace_of input.now)) o) }
    ensures before { IfOk result (λ o. o.before ≡ None) }
{
    let (status, text) = trace(alloc, rule, input)?;
    Ok(Outcome::plain(status, text))
}

/// Prints a picture of it.
pub(crate) fn drawn<H: RatingRule>(
    alloc: Global,
    rule: H,
    input: &[u8],
) -> Result<Outcome<H>, Memory>
    requires fact { H.fact rule }
    requires rates { RatesWhatIsLeft (H.may rule) }
    ensures answer { IfOk result (λ o. IsOutcome (plain (draw_of input.now)) o) }
    ensures before { IfOk result (λ o. o.before ≡ None) }
{
    let (status, text) = draw(alloc, rule, input)?;
    Ok(Outcome::plain(status, text))
}
