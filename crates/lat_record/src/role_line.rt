//! The line of a core: its role, its station, and how it begins.

ghost use Rattle.std.specs.Prelude.{◌≡◌, ◌≤◌, IfSome, option_map};
ghost use Rattle.lat_record.specs.OpeningRead.{Fits, FitsNode, FitsRole, station_of, start_of, before_prompt, core_of, node_of, role_of};

use lat_base::{Addr, Name};
use lat_text::{address_of, behind_word, first_word, name_of, number_within};

/// A station and its lines.
#[derive(Clone, Copy)]
pub struct Station {
    pub own: Addr,
    pub name: Name,
    pub lines: u8,
}

/// How a core begins: with the id of its first circuit, and prompt or not.
#[derive(Clone, Copy)]
pub struct Start {
    pub first: u16,
    pub prompt: bool,
}

/// What the line of every core says.
#[derive(Clone, Copy)]
pub struct CoreLine {
    pub station: Station,
    pub start: Start,
}

/// What that of a node says.
#[derive(Clone, Copy)]
pub struct NodeLine {
    pub core: CoreLine,
    pub incarnation: u16,
    pub timer: u8,
}

/// What the line says, by the role.
#[derive(Clone, Copy)]
pub enum RoleLine {
    Server(CoreLine),
    Switch(CoreLine),
    Node(NodeLine),
}

// `ADDR`, `NAME` and `LINES`, so many lines at most.
fn station_of(most: u8, address: &[u8], name: &[u8], lines: &[u8]) -> Option<Station>
    ensures value { result ≡ station_of most address.now name.now lines.now }
    ensures lines { IfSome result (λ station. (1 ≤ station.lines) × (station.lines ≤ most)) }
{
    let own = address_of(address)?;
    let name = name_of(name)?;
    let lines = number_within(1, u64::from(most), lines)? as u8;
    Some(Station { own, name, lines })
}

// What stands in front of a last word `prompt`, and whether it stands there.
fn before_prompt(text: &[u8]) -> (&[u8], bool)
    ensures { (result.0.now, result.1) ≡ before_prompt text.now }
{
    match first_word(text) {
        Some((before, last)) if last == "prompt".as_bytes() => (before, true),
        _ => (text, false),
    }
}

// `first N`, or `first N prompt`
fn start_of(text: &[u8]) -> Option<Start>
    ensures value { result ≡ start_of text.now }
    ensures first { IfSome result (λ start. (1 ≤ start.first) × (start.first ≤ 65535)) }
{
    let (first, prompt) = before_prompt(behind_word("first", text)?);
    let first = number_within(1, 65_535, first)? as u16;
    Some(Start { first, prompt })
}

// `ADDR NAME LINES`, so many lines at most, and how the core begins.
fn core_of(most: u8, text: &[u8]) -> Option<CoreLine>
    ensures value { result ≡ core_of most text.now }
    ensures fits { IfSome result (Fits most) }
{
    let (address, text) = first_word(text)?;
    let (name, text) = first_word(text)?;
    let (lines, text) = first_word(text)?;
    let station = station_of(most, address, name, lines)?;
    let start = start_of(text)?;
    Some(CoreLine { station, start })
}

// Behind `node `.
fn node_of(text: &[u8]) -> Option<NodeLine>
    ensures value { result ≡ node_of text.now }
    ensures fits { IfSome result FitsNode }
{
    let (address, text) = first_word(text)?;
    let (name, text) = first_word(text)?;
    let (lines, text) = first_word(text)?;
    let (incarnation, text) = first_word(text)?;
    let (timer, text) = first_word(text)?;
    let station = station_of(64, address, name, lines)?;
    let incarnation = number_within(0, 65_535, incarnation)? as u16;
    let timer = number_within(1, 255, timer)? as u8;
    let start = start_of(text)?;
    let core = CoreLine { station, start };
    Some(NodeLine {
        core,
        incarnation,
        timer,
    })
}

/// The line of a core.
pub fn role_of(line: &[u8]) -> Option<RoleLine>
    ensures value { result ≡ role_of line.now }
    ensures fits { IfSome result FitsRole }
{
    let (word, text) = first_word(line)?;
    if word == "server".as_bytes() {
        core_of(32, text).map(RoleLine::Server)
    } else if word == "switch".as_bytes() {
        core_of(8, text).map(RoleLine::Switch)
    } else if word == "node".as_bytes() {
        node_of(text).map(RoleLine::Node)
    } else {
        None
    }
}
