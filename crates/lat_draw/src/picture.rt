//! The whole of a picture.

ghost use Rattle.std.specs.Prelude.{◌≡◌, ◌++◌, OnOk, length, string_bytes};
ghost use Rattle.lat_draw.specs.DrawText.{style, tip, sheet, front, end_drawn, last_words, end, draw_text};
ghost use Rattle.lat_draw.specs.Events.{entries_drawn};
ghost use Rattle.lat_draw.specs.Layout.{played};
ghost use Rattle.lat_draw.specs.Placed.{IsLayout};
ghost use Rattle.lat_trace.specs.Fates.{AreCounts};
ghost use Rattle.lat_trace.specs.Runs.{Run as IsRun};
ghost use Rattle.lat_trace.specs.Shown.{ShowsRun};
ghost use Rattle.lat_wire.specs.Kept.{frame_count};

use crate::escape::escaped_onto;
use crate::events::{came_onto, happened_onto, told};
use crate::layout::Layout;
use crate::lines::{begin_onto, height, margin_onto, stroke_onto};
use crate::stubs::stubs_onto;
use lat_base::{Memory, Name};
use lat_node::RatingRule;
use lat_text::name_onto;
use lat_trace::{Fates, Run, Stop};
use lat_wire::why_onto;
use std::alloc::{AllocError, Global};

// The colours, by day and by night.
#[tactic(auto, unfolding(crate::specs::DrawText::style))]
fn style_onto(text: &mut String) -> Result<(), AllocError>
    ensures { OnOk result (string_bytes text.new ≡ string_bytes text.old ++ style) }
{
    text.push_str("<style>\n")?;
    text.push_str(
        "rect{fill:#ffffff}text{fill:#1b1f24}.number{fill:#57606a}.life,.stub,.arrow,.lost{fill:none;stroke-width:1.5}\n",
    )?;
    text.push_str(
        ".life{stroke:#57606a}circle{fill:#57606a}.arrow,.stub{stroke:#0969da}.tip{fill:#0969da}.lost{stroke:#cf222e;stroke-width:2}\n",
    )?;
    text.push_str(
        ".arrow{marker-end:url(#tip)}.again{stroke-dasharray:6 4}.frame{fill:#0550ae;paint-order:stroke;stroke:#ffffff;stroke-width:4px}\n",
    )?;
    text.push_str(
        "@media(prefers-color-scheme:dark){rect{fill:#0d1117}text{fill:#e6edf3}.number{fill:#8d96a0}\n",
    )?;
    text.push_str(
        ".life{stroke:#8d96a0}circle{fill:#8d96a0}.arrow,.stub{stroke:#58a6ff}.tip{fill:#58a6ff}.lost{stroke:#ff7b72}\n",
    )?;
    text.push_str(".frame{fill:#a5d6ff;stroke:#0d1117}}\n")?;
    text.push_str("</style>\n")
}

// The tip of an arrow.
#[tactic(auto, unfolding(crate::specs::DrawText::tip))]
fn tip_onto(text: &mut String) -> Result<(), AllocError>
    ensures { OnOk result (string_bytes text.new ≡ string_bytes text.old ++ tip) }
{
    text.push_str(
        "<defs><marker id='tip' viewBox='0 0 8 8' refX='8' refY='4' markerWidth='8' markerHeight='8' orient='auto'><path class='tip' d='M0,0 L8,4 L0,8 z'/></marker></defs>\n",
    )
}

// The sheet of this height.
#[tactic(auto, unfolding(crate::specs::DrawText::sheet))]
fn sheet_onto(text: &mut String, bottom: u64) -> Result<(), AllocError>
    ensures { OnOk result (string_bytes text.new ≡ string_bytes text.old ++ sheet bottom) }
{
    write!(
        text,
        "<svg xmlns='http://www.w3.org/2000/svg' width='1580' height='{bottom}' viewBox='0 0 1580 {bottom}' role='img' font-family='DejaVu Sans Mono, monospace' font-size='12'>\n"
    )
}

// What stands in front of the two ends.
#[tactic(auto, unfolding(crate::specs::DrawText::front))]
fn front_onto(text: &mut String, bottom: u64) -> Result<(), AllocError>
    ensures { OnOk result (string_bytes text.new ≡ string_bytes text.old ++ front bottom) }
{
    sheet_onto(text, bottom)?;
    text.push_str("<title>A schedule that was played</title>\n")?;
    style_onto(text)?;
    tip_onto(text)?;
    text.push_str("<rect width='100%' height='100%'/>\n")
}

// The name of an end, and its line of life down to this height.
#[tactic(auto, unfolding(crate::specs::DrawText::end_drawn))]
fn life_onto(
    alloc: Global,
    text: &mut String,
    x: u64,
    bottom: u64,
    name: &Name,
) -> Result<(), AllocError>
    ensures { OnOk result (string_bytes text.new
        ≡ string_bytes text.old ++ end_drawn x bottom name.now) }
{
    let mut printed = String::new(alloc);
    name_onto(&mut printed, name)?;
    write!(
        text,
        "<text text-anchor='middle' font-size='16' x='{x}' y='48'>"
    )?;
    escaped_onto(text, printed.as_str())?;
    text.push_str("</text>\n")?;
    stroke_onto(text, "life", x, 62, x, bottom)
}

#[tactic(auto, unfolding(crate::specs::DrawText::last_words))]
fn last_onto(text: &mut String, stop: Option<Stop>) -> Result<(), AllocError>
    ensures { OnOk result (string_bytes text.new ≡ string_bytes text.old ++ last_words stop) }
{
    match stop {
        Some(stop) => {
            let line = stop.line;
            write!(text, "line {line} ")?;
            why_onto(text, stop.why)
        }
        None => text.push_str("done"),
    }
}

// How the run ended, below all rows.
#[tactic(auto, unfolding(crate::specs::DrawText::end))]
fn end_onto(alloc: Global, text: &mut String, y: u64, stop: Option<Stop>) -> Result<(), AllocError>
    ensures { OnOk result (string_bytes text.new ≡ string_bytes text.old ++ end y stop) }
{
    let mut words = String::new(alloc);
    last_onto(&mut words, stop)?;
    begin_onto(text, "event", 12, y)?;
    escaped_onto(text, words.as_str())?;
    text.push_str("</text>\n</svg>\n")
}

// All events, each from its own row on.
fn entries_onto<H: RatingRule>(
    alloc: Global,
    text: &mut String,
    run: &Run<H>,
    all: &Fates,
    drawn: &Fates,
    layout: &Layout,
) -> Result<(), Memory>
    requires shows { (r : IsRun) × ShowsRun run.now r }
    requires all { length all.now ≡ frame_count run.now.wire }
    requires drawn { length drawn.now ≡ frame_count run.now.wire }
    requires placed { length layout.now.places.items ≡ length run.now.entries }
    ensures { (r : IsRun) → ShowsRun run.now r →
        AreCounts all.now r.schedule.events → AreCounts drawn.now (played r) →
        IsLayout (played r) run.now.entries layout.now →
        OnOk result (string_bytes text.new ≡ string_bytes text.old ++ entries_drawn r 0 r.entries) }
{
    let events = run.schedule.events.as_slice();
    for (place, entry) in run.entries.as_slice().iter().enumerate() {
        let event = &events[place];
        let row = layout.places[place].row;
        let y = height(row);
        margin_onto(text, y, place as u64 + 1, entry.moment)?;
        happened_onto(alloc, text, y, told(&run.wire, event), event, &entry.answer)?;
        came_onto(alloc, text, &run.wire, layout, &events[..place], row, event)?;
        stubs_onto(alloc, text, &run.wire, all, drawn, row, entry)?;
    }
    Ok(())
}

/// Adds the whole of a picture to a text.
pub(crate) fn picture_onto<H: RatingRule>(
    alloc: Global,
    text: &mut String,
    run: &Run<H>,
) -> Result<(), Memory>
    requires { (r : IsRun) × ShowsRun run.now r }
    ensures { (r : IsRun) → ShowsRun run.now r → OnOk result (string_bytes text.new
        ≡ string_bytes text.old ++ draw_text r) }
{
    let events = run.schedule.events.as_slice();
    let entries = run.entries.as_slice();
    let all = Fates::of(alloc, run.wire.frames(), events)?;
    let drawn = Fates::of(alloc, run.wire.frames(), &events[..entries.len()])?;
    let layout = Layout::of(alloc, &drawn, entries)?;
    let bottom = height(layout.rows);
    front_onto(text, bottom + 48)?;
    life_onto(alloc, text, 660, bottom, &run.schedule.setup.server.name)?;
    life_onto(alloc, text, 1060, bottom, &run.schedule.setup.node.name)?;
    entries_onto(alloc, text, run, &all, &drawn, &layout)?;
    Ok(end_onto(alloc, text, bottom + 28, run.stop)?)
}
