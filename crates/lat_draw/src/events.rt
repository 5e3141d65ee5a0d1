//! What is drawn of an event.

ghost use Rattle.std.specs.Prelude.{◌≡◌, ◌++◌, ◌<◌, ◌+◌, ◌^◌, List, ℕ, OnOk, codes, nat_lt, string_bytes};
ghost use Rattle.lat_machines.specs.world.Machines.{Machines};
ghost use Rattle.lat_schedule.specs.declared.event.WorldEvent.{WorldEvent as IsEvent};
ghost use Rattle.lat_trace.specs.Entries.{Entry, came_in};
ghost use Rattle.lat_trace.specs.Fates.{delivers, deliveries};
ghost use Rattle.lat_trace.specs.Words.{event_words, told_words};
ghost use Rattle.lat_wire.specs.Stands.{Stands};
ghost use Rattle.lat_draw.specs.Escaped.{cut};
ghost use Rattle.lat_draw.specs.Events.{came_drawn, happened_drawn, told};
ghost use Rattle.lat_draw.specs.Layout.{row_made};
ghost use Rattle.lat_draw.specs.Lines.{begins, ends, beside_begins};
ghost use Rattle.lat_draw.specs.Placed.{row_in};

use crate::escape::cut_onto;
use crate::layout::Layout;
use crate::lines::{arrow_onto, begin_onto, dot_onto, end_onto};
use crate::short::frame_words;
use lat_base::{Answer, Memory};
use lat_node::RatingRule;
use lat_schedule::WorldEvent;
use lat_trace::{told_onto, words_onto};
use lat_wire::Wire;
use std::alloc::{AllocError, Global};

/// The longest words of an event, and of an answer.
const EVENT_WORDS: usize = 30;

const ANSWER_WORDS: usize = 29;

/// The end that is told an event: of a delivery the one that didn't send the frame.
pub(crate) fn told<H: RatingRule>(wire: &Wire<H>, event: &WorldEvent) -> bool
    ensures { (w : Machines) → Stands wire.now w → result ≡ told event.now (came_in w.posts event.now) }
{
    match event {
        WorldEvent::Local { server, .. } | WorldEvent::Inject { server, .. } => *server,
        WorldEvent::Deliver { index } => match wire.frame(*index) {
            Some((by_server, _)) => !by_server,
            None => true,
        },
    }
}

// Adds the words of an event and of its answer, each cut, with an arrow between them.
fn words_cut_onto(
    alloc: Global,
    text: &mut String,
    event: &WorldEvent,
    answer: &Option<Answer>,
) -> Result<(), AllocError>
    ensures { OnOk result (string_bytes text.new ≡ string_bytes text.old
        ++ (cut 30 (event_words event.now) ++ (codes " -&gt; " ++ cut 29 (told_words answer.now)))) }
{
    let mut words = String::new(alloc);
    words_onto(alloc, &mut words, event)?;
    let mut answered = String::new(alloc);
    told_onto(alloc, &mut answered, answer)?;
    cut_onto(text, EVENT_WORDS, words.as_str())?;
    text.push_str(" -&gt; ")?;
    cut_onto(text, ANSWER_WORDS, answered.as_str())
}

// Adds the beginning of a text beside the line of life of an end.
fn beside_onto(text: &mut String, server: bool, y: u64) -> Result<(), AllocError>
    ensures { OnOk result (string_bytes text.new
        ≡ string_bytes text.old ++ beside_begins server (codes "event") y) }
{
    if server {
        end_onto(text, "event", 648, y)
    } else {
        begin_onto(text, "event", 1072, y)
    }
}

/// Adds an event and its answer beside the end that is told, in the row of this height.
pub(crate) fn happened_onto(
    alloc: Global,
    text: &mut String,
    y: u64,
    server: bool,
    event: &WorldEvent,
    answer: &Option<Answer>,
) -> Result<(), AllocError>
    requires { y < 2 ^ 62 }
    ensures { OnOk result (string_bytes text.new
        ≡ string_bytes text.old ++ happened_drawn y server event.now answer.now) }
{
    dot_onto(text, server, y)?;
    beside_onto(text, server, y + 4)?;
    words_cut_onto(alloc, text, event, answer)?;
    text.push_str("</text>\n")
}

// Whether an event delivers a frame.
fn delivers(frame: u64, event: &WorldEvent) -> bool
    ensures { result ≡ delivers frame event.now }
{
    matches!(event, WorldEvent::Deliver { index } if *index == frame)
}

// Whether one of these events delivers a frame.
fn came_before(frame: u64, events: &[WorldEvent]) -> bool
    ensures { result ≡ nat_lt 0 (deliveries frame events.now) }
{
    events.iter().any(|event| delivers(frame, event))
}

/// Adds the arrow of a delivery to this row, behind these events.
pub(crate) fn came_onto<H: RatingRule>(
    alloc: Global,
    text: &mut String,
    wire: &Wire<H>,
    layout: &Layout,
    before: &[WorldEvent],
    row: u32,
    event: &WorldEvent,
) -> Result<(), Memory>
    ensures { (w : Machines) (events : List IsEvent) (es : List Entry) → Stands wire.now w →
        ((frame : ℕ) → row_in frame layout.now.rows layout.now.places.items ≡ row_made events frame 0 es) →
        OnOk result (string_bytes text.new
        ≡ string_bytes text.old ++ came_drawn events before.now es row event.now (came_in w.posts event.now)) }
{
    let WorldEvent::Deliver { index } = event else {
        return Ok(());
    };
    let Some((by_server, frame)) = wire.frame(*index) else {
        return Ok(());
    };
    let words = frame_words(alloc, &frame)?;
    let again = came_before(*index, before);
    let from = layout.row_made(*index);
    Ok(arrow_onto(text, again, by_server, from, row, words.as_str())?)
}
