//! The capture of a circuit.

ghost use Rattle.std.specs.Prelude.{◌≡◌, ◌++◌, OnOk, IfOk, option_map, string_bytes};
ghost use Rattle.lat_machines.specs.world.Machines.{Machines};
ghost use Rattle.lat_captures.specs.Captured.{first_up};
ghost use Rattle.lat_audit.specs.Laws.{AllGoOut};
ghost use Rattle.lat_wire.specs.Kept.{setups_of};
ghost use Rattle.lat_wire.specs.Stands.{Stands};
ghost use Rattle.lat_audit.specs.Runs.{seen_of};
ghost use Rattle.lat_audit.specs.Tapped.{IsTap, captured_lines};
ghost use Rattle.lat_audit.specs.CapturedText.{captured_text, AuditIsLegal};

use crate::print::title_onto;
use crate::run_seen::RunSeen;
use crate::tap::Tap;
use lat_base::Memory;
use lat_captures::Title;
use lat_wire::{RatingRule, Wire};
use std::alloc::Global;

// What the first RUN says that the server sent the node with this source.
fn first_up<H: RatingRule>(wire: &Wire<H>, tap: &Tap) -> Option<RunSeen>
    requires { IsTap (setups_of wire.now) tap.now }
    ensures { (w : Machines) → Stands wire.now w →
        result ≡ option_map seen_of (first_up (setups_of wire.now) tap.now.circuit w.posts) }
{
    for index in 0..wire.frames() {
        let Some((by_server, frame)) = wire.frame(index) else {
            unreachable!()
        };
        let run = tap.run_up(by_server, &frame);
        if run.is_some() {
            return run;
        }
    }
    None
}

// Adds the lines of all frames that are captured, in order. Each frame went out as bytes that read as what was said.
fn entries_onto<H: RatingRule>(
    alloc: Global,
    text: &mut String,
    wire: &Wire<H>,
    tap: &Tap,
    slave: u16,
) -> Result<(), Memory>
    requires { IsTap (setups_of wire.now) tap.now }
    ensures text { OnOk result ((w : Machines) →
        Stands wire.now w →
        string_bytes text.new
        ≡ string_bytes text.old
        ++ captured_lines (setups_of wire.now) tap.now.circuit slave w.posts) }
    ensures bytes { OnOk result ((w : Machines) → Stands wire.now w → AllGoOut w) }
{
    for index in 0..wire.frames() {
        let Some((by_server, frame)) = wire.frame(index) else {
            unreachable!()
        };
        tap.frame_onto(alloc, text, slave, by_server, &frame)?;
    }
    Ok(())
}

/// The text of what is captured of a circuit of the server: of all frames that either end of a wire ever sent, the RUNs that the
/// server sent the node with this source, and those that the node sent back with both ids, in order of sending; or the line
/// `none` where the server sent the node no such RUN. The audit of a capture is `legal`, with the number of its RUNs. `Memory`
/// where none is found for the text.
pub fn captured<H: RatingRule>(
    alloc: Global,
    wire: &Wire<H>,
    circuit: u16,
) -> Result<String, Memory>
    ensures text { IfOk result (λ text.
        (w : Machines) → Stands wire.now w →
        string_bytes text ≡ captured_text (setups_of wire.now) w circuit) }
    ensures legal { OnOk result ((w : Machines) → Stands wire.now w →
        AuditIsLegal (setups_of wire.now) w circuit) }
{
    let tap = Tap::on(wire, circuit);
    let mut text = String::new(alloc);
    let Some(run) = first_up(wire, &tap) else {
        text.push_str("none\n")?;
        return Ok(text);
    };
    let title = Title {
        master: circuit,
        slave: run.to,
        wide: run.wide,
    };
    title_onto(&mut text, &title)?;
    entries_onto(alloc, &mut text, wire, &tap, run.to)?;
    Ok(text)
}
