//! The lines of a picture's text.

ghost use Rattle.std.specs.Prelude.{◌≡◌, ◌≤◌, ◌<◌, ◌^◌, ◌++◌, OnOk, codes, decimal, string_bytes};
ghost use Rattle.lat_draw.specs.Layout.{life, height};
ghost use Rattle.lat_draw.specs.Escaped.{cut};
ghost use Rattle.lat_draw.specs.Lines.{arrow, arrow_class, begins, begins_at, cross, crossed, dot, ends, ends_at, margin, stroke, stub};

use crate::escape::cut_onto;
use std::alloc::AllocError;

/// The longest words of a frame.
const FRAME_WORDS: usize = 40;

/// Where the line of life of the server or of the node stands.
pub(crate) fn life(server: bool) -> u64
    ensures { result ≡ life server }
{
    if server { 660 } else { 1060 }
}

/// The height of a row.
pub(crate) fn height(row: u32) -> u64
    ensures value { result ≡ height row }
    ensures least { 96 ≤ result }
    ensures most { result < 2 ^ 62 }
{
    96 + 22 * u64::from(row)
}

/// Adds the beginning of a text that begins at a place; its words and `</text>` follow.
#[tactic(auto, unfolding(crate::specs::Lines::begins))]
pub(crate) fn begin_onto(text: &mut String, class: &str, x: u64, y: u64) -> Result<(), AllocError>
    ensures { OnOk result (string_bytes text.new
        ≡ string_bytes text.old ++ begins class.now x y) }
{
    write!(text, "<text class='{class}' x='{x}' y='{y}'>")
}

/// The same of a text that ends at a place.
#[tactic(auto, unfolding(crate::specs::Lines::ends))]
pub(crate) fn end_onto(text: &mut String, class: &str, x: u64, y: u64) -> Result<(), AllocError>
    ensures { OnOk result (string_bytes text.new ≡ string_bytes text.old ++ ends class.now x y) }
{
    write!(
        text,
        "<text text-anchor='end' class='{class}' x='{x}' y='{y}'>"
    )
}

/// Adds a number, as a text that begins at a place.
fn number_onto(text: &mut String, x: u64, y: u64, number: u64) -> Result<(), AllocError>
    ensures { OnOk result (string_bytes text.new
        ≡ string_bytes text.old ++ begins_at (codes "number") x y (decimal number)) }
{
    begin_onto(text, "number", x, y)?;
    write!(text, "{number}</text>\n")
}

/// Adds the number and the moment of an event, in the row of this height.
#[tactic(auto, unfolding(crate::specs::Lines::margin))]
pub(crate) fn margin_onto(
    text: &mut String,
    y: u64,
    number: u64,
    moment: u64,
) -> Result<(), AllocError>
    requires { y < 2 ^ 63 }
    ensures { OnOk result (string_bytes text.new ≡ string_bytes text.old ++ margin y number moment) }
{
    number_onto(text, 12, y + 4, number)?;
    number_onto(text, 56, y + 4, moment)
}

/// Adds a line of this class from one place to another.
#[tactic(auto, unfolding(crate::specs::Lines::stroke))]
pub(crate) fn stroke_onto(
    text: &mut String,
    class: &str,
    x: u64,
    y: u64,
    to_x: u64,
    to_y: u64,
) -> Result<(), AllocError>
    ensures { OnOk result (string_bytes text.new
        ≡ string_bytes text.old ++ stroke class.now x y to_x to_y) }
{
    write!(
        text,
        "<line class='{class}' x1='{x}' y1='{y}' x2='{to_x}' y2='{to_y}'/>\n"
    )
}

#[tactic(auto, unfolding(crate::specs::Lines::cross))]
fn cross_onto(text: &mut String, x: u64, y: u64) -> Result<(), AllocError>
    ensures { OnOk result (string_bytes text.new ≡ string_bytes text.old ++ cross x y) }
{
    write!(
        text,
        "<path class='lost' d='M{x},{y} m-5,-5 l10,10 m0,-10 l-10,10'/>\n"
    )
}

/// Adds a dot on the line of life of an end.
#[tactic(auto, unfolding(crate::specs::Lines::dot))]
pub(crate) fn dot_onto(text: &mut String, server: bool, y: u64) -> Result<(), AllocError>
    ensures { OnOk result (string_bytes text.new ≡ string_bytes text.old ++ dot server y) }
{
    let x = life(server);
    write!(text, "<circle cx='{x}' cy='{y}' r='3'/>\n")
}

// Adds the words of a frame, as a text that begins at a place.
fn begun_onto(text: &mut String, x: u64, y: u64, words: &str) -> Result<(), AllocError>
    ensures { OnOk result (string_bytes text.new
        ≡ string_bytes text.old ++ begins_at (codes "frame") x y (cut 40 words.now)) }
{
    begin_onto(text, "frame", x, y)?;
    cut_onto(text, FRAME_WORDS, words)?;
    text.push_str("</text>\n")
}

// The same of a text that ends there.
fn ended_onto(text: &mut String, x: u64, y: u64, words: &str) -> Result<(), AllocError>
    ensures { OnOk result (string_bytes text.new
        ≡ string_bytes text.old ++ ends_at (codes "frame") x y (cut 40 words.now)) }
{
    end_onto(text, "frame", x, y)?;
    cut_onto(text, FRAME_WORDS, words)?;
    text.push_str("</text>\n")
}

fn arrow_class(again: bool) -> &'static str
    ensures { result.now ≡ arrow_class again }
{
    if again { "arrow again" } else { "arrow" }
}

/// Adds a delivery: from the row in which an end sent the frame to that of the delivery.
#[tactic(auto, unfolding(crate::specs::Lines::arrow))]
pub(crate) fn arrow_onto(
    text: &mut String,
    again: bool,
    by_server: bool,
    from: u32,
    to: u32,
    words: &str,
) -> Result<(), AllocError>
    ensures { OnOk result (string_bytes text.new
        ≡ string_bytes text.old ++ arrow again by_server from to words.now) }
{
    let class = arrow_class(again);
    let (top, tip) = (height(from), height(to));
    if by_server {
        stroke_onto(text, class, 660, top, 1060, tip)?;
        ended_onto(text, 1046, tip - 5, words)
    } else {
        stroke_onto(text, class, 1060, top, 660, tip)?;
        begun_onto(text, 674, tip - 5, words)
    }
}

// Adds a cross, where a frame is lost.
fn cross_where_lost(text: &mut String, lost: bool, x: u64, y: u64) -> Result<(), AllocError>
    ensures { OnOk result (string_bytes text.new
        ≡ string_bytes text.old ++ crossed lost x y) }
{
    if lost { cross_onto(text, x, y) } else { Ok(()) }
}

/// Adds a frame that no event delivers: a stub, with a cross where it is lost.
#[tactic(auto, unfolding(crate::specs::Lines::stub))]
pub(crate) fn stub_onto(
    text: &mut String,
    lost: bool,
    by_server: bool,
    row: u32,
    words: &str,
) -> Result<(), AllocError>
    ensures { OnOk result (string_bytes text.new
        ≡ string_bytes text.old ++ stub lost by_server (height row) words.now) }
{
    let y = height(row);
    if by_server {
        stroke_onto(text, "stub", 660, y, 730, y)?;
        cross_where_lost(text, lost, 730, y)?;
        begun_onto(text, 744, y + 4, words)
    } else {
        stroke_onto(text, "stub", 1060, y, 990, y)?;
        cross_where_lost(text, lost, 990, y)?;
        ended_onto(text, 976, y + 4, words)
    }
}
