//! The lines of sessions, requests and grants.

ghost use Rattle.std.specs.Prelude.{◌≡◌, ◌++◌, OnOk, codes, option_map, string_bytes};
ghost use Rattle.std.specs.List.{flat_map};
ghost use Rattle.lat_queue.specs.Histories.{key_shown};
ghost use Rattle.lat_queue.specs.KeptValues.{kept_shown};
ghost use Rattle.lat_wire.specs.report.ReportText.{
  frames_text,
  item_text,
  items_text,
  direction_text,
  end_text,
  node_line_text,
  session_head,
  session_line,
  row_text,
  key_text,
  kept_word,
  request_text,
  grant_text,
};
ghost use Rattle.lat_wire.specs.report.Rows.{items_in, direction_in, row_in, record_shown};
ghost use Rattle.lat_stream.specs.Kept.{item_shown};
ghost use Rattle.lat_lines.specs.Stands.{end_shown};

use lat_base::{Item, Kept, SessionEnd};
use lat_queue::{Key, Record};
use lat_text::{byte_onto, hex_onto, name_onto};
use std::alloc::{AllocError, Global};

/// One direction of a session.
#[derive(Clone, Copy)]
pub struct Flow<'a> {
    /// The items that the sending end took in.
    pub put: &'a [Item],
    /// Those of them that the receiving end has handed out.
    pub taken: &'a [Item],
    /// The credits that the receiving end has given.
    pub given: u64,
    /// The credited slots that the sending end has formed.
    pub used: u64,
}

/// A session of a report.
#[derive(Clone, Copy)]
pub struct SessionRow<'a> {
    /// The server's line.
    pub line: u8,
    /// The node's. None where it gave none.
    pub node_line: Option<u8>,
    /// How it ended. None while it is open.
    pub ended: Option<SessionEnd>,
    /// From the server's line to the node's.
    pub up: Flow<'a>,
    /// From the node's line to the server's.
    pub down: Flow<'a>,
}

/// Adds the first line: how many frames were sent.
pub fn frames_onto(text: &mut String, frames: u64) -> Result<(), AllocError>
    ensures { OnOk result (string_bytes text.new ≡ string_bytes text.old ++ frames_text frames) }
{
    write!(text, "frames {frames}\n")
}

fn item_onto(alloc: Global, text: &mut String, item: Item) -> Result<(), AllocError>
    ensures { OnOk result (string_bytes text.new
        ≡ string_bytes text.old ++ item_text (item_shown item)) }
{
    match item {
        Item::Byte(byte) => byte_onto(text, byte),
        Item::Set(setting) => {
            text.push_str("(")?;
            hex_onto(alloc, text, &setting)?;
            text.push_str(")")
        }
    }
}

fn each_onto(alloc: Global, text: &mut String, items: &[Item]) -> Result<(), AllocError>
    ensures { OnOk result (string_bytes text.new
        ≡ string_bytes text.old ++ flat_map (λ i. item_text (item_shown i)) items.now) }
{
    for item in items {
        item_onto(alloc, text, *item)?;
    }
    Ok(())
}

fn items_onto(alloc: Global, text: &mut String, items: &[Item]) -> Result<(), AllocError>
    ensures { OnOk result (string_bytes text.new
        ≡ string_bytes text.old ++ items_text (items_in items.now)) }
{
    if items.is_empty() {
        return text.push_str("-");
    }
    each_onto(alloc, text, items)
}

fn flow_onto(
    alloc: Global,
    text: &mut String,
    word: &str,
    flow: &Flow<'_>,
) -> Result<(), AllocError>
    ensures { OnOk result (string_bytes text.new
        ≡ string_bytes text.old ++ direction_text word.now (direction_in flow.now)) }
{
    let (given, used) = (flow.given, flow.used);
    text.push_str(word)?;
    text.push_str(" put ")?;
    items_onto(alloc, text, flow.put)?;
    text.push_str(" taken ")?;
    items_onto(alloc, text, flow.taken)?;
    write!(text, " given {given} used {used}\n")
}

#[tactic(auto, unfolding(crate::specs::report::ReportText::end_text))]
fn end_onto(text: &mut String, ended: Option<SessionEnd>) -> Result<(), AllocError>
    ensures { OnOk result (string_bytes text.new
        ≡ string_bytes text.old ++ end_text (option_map end_shown ended)) }
{
    match ended {
        None => text.push_str(" end open"),
        Some(SessionEnd::Closed) => text.push_str(" end closed"),
        Some(SessionEnd::Rejected(reason)) => write!(text, " end rejected {reason}"),
        Some(SessionEnd::Circuit(reason)) => write!(text, " end circuit {reason}"),
    }
}

#[tactic(auto, unfolding(crate::specs::report::ReportText::node_line_text))]
fn node_line_onto(text: &mut String, node_line: Option<u8>) -> Result<(), AllocError>
    ensures { OnOk result (string_bytes text.new
        ≡ string_bytes text.old ++ node_line_text node_line) }
{
    match node_line {
        None => text.push_str(" node-line -"),
        Some(node_line) => write!(text, " node-line {node_line}"),
    }
}

#[tactic(auto, unfolding(crate::specs::report::ReportText::session_head))]
fn session_head_onto(text: &mut String, number: u64, line: u8) -> Result<(), AllocError>
    ensures { OnOk result (string_bytes text.new
        ≡ string_bytes text.old ++ session_head number line) }
{
    write!(text, "session {number} server-line {line}")
}

fn session_line_onto(
    text: &mut String,
    number: u64,
    line: u8,
    node_line: Option<u8>,
    ended: Option<SessionEnd>,
) -> Result<(), AllocError>
    ensures { OnOk result (string_bytes text.new
        ≡ string_bytes text.old
        ++ session_line number line node_line (option_map end_shown ended)) }
{
    session_head_onto(text, number, line)?;
    node_line_onto(text, node_line)?;
    end_onto(text, ended)?;
    text.push_str("\n")
}

/// Adds the three lines of a session. Sessions are numbered from 1.
/// After want of memory a part of them may stand in the text.
pub fn session_onto(
    alloc: Global,
    text: &mut String,
    number: u64,
    row: &SessionRow<'_>,
) -> Result<(), AllocError>
    ensures { OnOk result (string_bytes text.new
        ≡ string_bytes text.old ++ row_text number (row_in row.now)) }
{
    session_line_onto(text, number, row.line, row.node_line, row.ended)?;
    flow_onto(alloc, text, "up", &row.up)?;
    flow_onto(alloc, text, "down", &row.down)
}

#[tactic(auto, unfolding(crate::specs::report::ReportText::key_text))]
fn key_onto(text: &mut String, key: &Key) -> Result<(), AllocError>
    ensures { OnOk result (string_bytes text.new
        ≡ string_bytes text.old ++ key_text (key_shown key.now)) }
{
    let (incarnation, request) = (key.incarnation, key.request);
    name_onto(text, &key.node)?;
    write!(text, " {incarnation} {request}")
}

#[tactic(auto, unfolding(crate::specs::report::ReportText::kept_word))]
fn kept_word(kept: Kept) -> &'static str
    ensures { result.now ≡ kept_word (kept_shown kept) }
{
    match kept {
        Kept::Waiting(_) => "waiting",
        Kept::Granted => "granted",
        Kept::Cancelled => "cancelled",
        Kept::QueueFull => "queue-full",
        Kept::NoService => "no-service",
        Kept::RecordsFull => "records-full",
        Kept::Done => "done",
    }
}

/// Adds the line of a request. After want of memory a part of it may stand in the text.
pub fn request_onto(text: &mut String, request: &Record) -> Result<(), AllocError>
    ensures { OnOk result (string_bytes text.new
        ≡ string_bytes text.old ++ request_text (record_shown request.now)) }
{
    text.push_str("request ")?;
    key_onto(text, &request.key)?;
    text.push_str(" ")?;
    name_onto(text, &request.service)?;
    text.push_str(" ")?;
    text.push_str(kept_word(request.kept))?;
    text.push_str("\n")
}

/// Adds the line of a grant. After want of memory a part of it may stand in the text.
pub fn grant_onto(text: &mut String, key: &Key) -> Result<(), AllocError>
    ensures { OnOk result (string_bytes text.new
        ≡ string_bytes text.old ++ grant_text (key_shown key.now)) }
{
    text.push_str("grant ")?;
    key_onto(text, key)?;
    text.push_str("\n")
}

/// Adds the last line.
pub fn done_onto(text: &mut String) -> Result<(), AllocError>
    ensures { OnOk result (string_bytes text.new ≡ string_bytes text.old ++ codes "done\n") }
{
    text.push_str("done\n")
}
