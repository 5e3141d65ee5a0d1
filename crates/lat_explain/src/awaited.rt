//! The forms of the lines that may stand at a place of an input, as tables (see `walk`).

ghost use Rattle.std.specs.Prelude.{◌≡◌, ◌==◌, ◌≤◌, ◌++◌, [], OnOk, IfOk, position, string_bytes};
ghost use Rattle.lat_text.specs.Lines.{lines_of};
ghost use Rattle.lat_explain.specs.Awaited.{
  payload_forms,
  title_forms,
  entry_forms,
  capture_forms,
  behind_space,
  last_moment,
  moment_form,
  choice_entry_forms,
  choice_forms,
  said_shown,
  count_lines,
  service_forms,
  offer_form,
  offer_forms,
  server_lines,
  offers_on,
  services_on,
  server_forms,
  node_forms,
  circuit_forms,
  node_groups,
  both_groups,
  common_events,
  third_events,
  event_forms,
  version_forms,
  behind_line,
  behind_listed,
  behind_circuit,
  schedule_forms,
};

use crate::form::bound;
use crate::walk::{front_word, has_line};
use lat_text::first_line;
use std::alloc::{AllocError, Global};

/// What an input of lines is.
#[derive(Clone, Copy)]
pub enum Input {
    /// Payloads, as `show` reads them.
    Payloads,
    /// Announcements and questions, as `choose` reads them.
    Choice,
    /// A capture, as `audit` reads it.
    Capture,
    /// A schedule.
    Schedule,
}

/// A server has so many lines at most, and a node so many services.
const MOST: u64 = 32;

#[tactic(auto, unfolding(crate::specs::Awaited::title_forms, crate::specs::Awaited::entry_forms))]
pub(crate) fn capture_forms(before: usize) -> &'static str
    ensures { result.now ≡ capture_forms before }
{
    if before == 0 {
        "circuit\n#1-65535\n#1-65535\nbyte\n\ncircuit\n#1-65535\n#1-65535\nword\n\n"
    } else {
        "m\nH2-8192\n\nm\n-\n\ns\nH2-8192\n\ns\n-\n\n"
    }
}

fn space_in(text: &[u8]) -> Option<usize>
    ensures { result ≡ position (λ b. b == 32) text.now }
{
    text.iter().position(|byte| *byte == b' ')
}

// The text behind a text's first space; no byte where it has none.
pub(crate) fn behind_space(text: &[u8]) -> &[u8]
    ensures { result.now ≡ behind_space text.now }
{
    match space_in(text) {
        Some(end) => {
            let (_, behind) = text.split_at(end + 1);
            behind
        }
        None => &[],
    }
}

// The moment of a line of choices; that in front of the first is 0.
fn last_moment(line: &[u8]) -> &[u8]
    ensures { result.now ≡ last_moment line.now }
{
    let word = front_word(line);
    if word == "hear".as_bytes() || word == "best".as_bytes() {
        front_word(behind_space(line))
    } else {
        "0".as_bytes()
    }
}

fn moment_onto(
    text: &mut Vec<u8>,
    before: &str,
    last: &[u8],
    behind: &str,
) -> Result<(), AllocError>
    ensures { OnOk result (text.new.items ≡ text.old.items ++ moment_form before.now last.now behind.now) }
{
    text.extend_from_slice(before.as_bytes())?;
    text.extend_from_slice(last)?;
    text.extend_from_slice(behind.as_bytes())
}

// The lines of choices behind one of this moment.
#[tactic(auto, unfolding(crate::specs::Awaited::choice_entry_forms))]
fn moments_onto(text: &mut Vec<u8>, last: &[u8]) -> Result<(), AllocError>
    ensures { OnOk result (text.new.items ≡ text.old.items ++ choice_entry_forms last.now) }
{
    moment_onto(
        text,
        "hear\n#",
        last,
        "-999999999999999\nH12-12\nH2-8192\n\n",
    )?;
    moment_onto(text, "hear\n#", last, "-999999999999999\nH12-12\n-\n\n")?;
    moment_onto(text, "best\n#", last, "-999999999999999\nN\n\n")
}

pub(crate) fn choice_forms(alloc: Global, before: usize, line: &[u8]) -> Result<Vec<u8>, AllocError>
    ensures { IfOk result (λ table. table.items ≡ choice_forms before line.now) }
{
    let mut table = Vec::new(alloc);
    if before == 0 {
        table.extend_from_slice("groups\nH2-64\n\n".as_bytes())?;
    }
    moments_onto(&mut table, last_moment(line))?;
    Ok(table)
}

/// What the lines in front say of a schedule.
#[derive(Clone, Copy)]
pub struct Said<'a> {
    pub version: &'a [u8],
    pub server: &'a [u8],
    /// Each ended by a line feed.
    pub services: &'a [u8],
    /// The lines that have one, each ended by a line feed.
    pub offers: &'a [u8],
}

// How many lines a text has.
#[tactic(auto, unfolding(crate::specs::Awaited::count_lines))]
fn count_lines(text: &[u8]) -> u64
    ensures { result ≡ count_lines (lines_of text.now) }
{
    let mut count: u64 = 0;
    let mut rest = text;
    while let Some((_, behind)) = first_line(rest) {
        count += 1;
        rest = behind;
    }
    count
}

fn services_onto(table: &mut String, services: &[u8]) -> Result<(), AllocError>
    ensures { OnOk result (string_bytes table.new
        ≡ string_bytes table.old ++ service_forms services.now) }
{
    if count_lines(services) < MOST {
        table.push_str("service\nS\n\n")?;
    }
    Ok(())
}

// An offer of this line, if it has none.
fn offer_onto(alloc: Global, table: &mut String, offers: &[u8], line: u64) -> Result<(), AllocError>
    ensures { OnOk result (string_bytes table.new
        ≡ string_bytes table.old ++ offer_form offers.now line) }
{
    let number = format!(in alloc; "{line}")?;
    if has_line(number.as_bytes(), offers) {
        return Ok(());
    }
    write!(table, "offer\n{line}\nN\n\n")
}

fn server_lines(server: &[u8]) -> u64
    ensures value { result ≡ server_lines server.now }
    ensures most { result ≤ 32 }
{
    bound(front_word(behind_space(behind_space(server)))).min(MOST)
}

#[tactic(auto, unfolding(crate::specs::Awaited::offer_forms))]
fn offers_onto(
    alloc: Global,
    table: &mut String,
    offers: &[u8],
    lines: u64,
) -> Result<(), AllocError>
    requires { lines ≤ 32 }
    ensures { OnOk result (string_bytes table.new
        ≡ string_bytes table.old ++ offer_forms offers.now lines 1) }
{
    for place in 0..lines {
        offer_onto(alloc, table, offers, place + 1)?;
    }
    Ok(())
}

// The offers, and `go`.
fn offers_on(alloc: Global, table: &mut String, said: Said<'_>) -> Result<(), AllocError>
    ensures { OnOk result (string_bytes table.new
        ≡ string_bytes table.old ++ offers_on (said_shown said.entry)) }
{
    offers_onto(alloc, table, said.offers, server_lines(said.server))?;
    table.push_str("go\n\n")
}

// The services, the offers, and `go`.
fn services_on(alloc: Global, table: &mut String, said: Said<'_>) -> Result<(), AllocError>
    ensures { OnOk result (string_bytes table.new
        ≡ string_bytes table.old ++ services_on (said_shown said.entry)) }
{
    services_onto(table, said.services)?;
    offers_on(alloc, table, said)
}

#[tactic(auto, unfolding(crate::specs::Awaited::server_forms))]
fn server_forms(third: bool) -> &'static str
    ensures { result.now ≡ server_forms third }
{
    if third {
        "server\nA\nN\n#1-32\n\nserver\nA\nN\n#1-32\nprompt\n\nserver\nA\nN\n#1-32\nfirst\n#1-65535\n\nserver\nA\nN\n#1-32\nfirst\n#1-65535\nprompt\n\n"
    } else {
        "server\nA\nN\n#1-32\n\n"
    }
}

#[tactic(auto, unfolding(crate::specs::Awaited::node_forms))]
fn node_forms(third: bool) -> &'static str
    ensures { result.now ≡ node_forms third }
{
    if third {
        "node\nA\nN\n#1-64\n#0-65535\n#1-255\n\nnode\nA\nN\n#1-64\n#0-65535\n#1-255\nprompt\n\nnode\nA\nN\n#1-64\n#0-65535\n#1-255\nfirst\n#1-65535\n\nnode\nA\nN\n#1-64\n#0-65535\n#1-255\nfirst\n#1-65535\nprompt\n\n"
    } else {
        "node\nA\nN\n#1-64\n#0-65535\n#1-255\n\n"
    }
}

#[tactic(auto, unfolding(crate::specs::Awaited::circuit_forms))]
fn circuit_forms(first: bool) -> &'static str
    ensures { result.now ≡ circuit_forms first }
{
    if first {
        "circuit\n#1-100\n#1-255\n#1-64\n#0-255\n#1-15\n\n"
    } else {
        "circuit\n#1-100\n#1-255\n#1-64\n#0-255\n#1-15\nbyte\nbyte\n\n\
         circuit\n#1-100\n#1-255\n#1-64\n#0-255\n#1-15\nbyte\nword\n\n\
         circuit\n#1-100\n#1-255\n#1-64\n#0-255\n#1-15\nword\nbyte\n\n\
         circuit\n#1-100\n#1-255\n#1-64\n#0-255\n#1-15\nword\nword\n\n"
    }
}

#[tactic(auto, unfolding(crate::specs::Awaited::common_events))]
fn common_events() -> &'static str
    ensures { result.now ≡ common_events }
{
    "s\nconnect\n#0-255\nN\n\n\
     s\nput\n#0-255\nH2-8192\n\nn\nput\n#0-255\nH2-8192\n\n\
     s\nset\n#0-255\nH10-10\n\nn\nset\n#0-255\nH10-10\n\n\
     s\ntake\n#0-255\n#0-4096\n\nn\ntake\n#0-255\n#0-4096\n\n\
     s\nattend\n#0-255\nH2-2\n\nn\nattend\n#0-255\nH2-2\n\n\
     s\nclose\n#0-255\n\nn\nclose\n#0-255\n\n\
     s\ntime\n#0-999999999999999\n\nn\ntime\n#0-999999999999999\n\n\
     n\nrequest\n#0-65535\nN\n\nn\ncancel\n#0-65535\n\nn\nannounce\n\n\
     deliver\n#0-999999999\n\n\
     inject\ns\nH12-12\nH2-8192\n\ninject\ns\nH12-12\n-\n\n\
     inject\nn\nH12-12\nH2-8192\n\ninject\nn\nH12-12\n-\n\n"
}

#[tactic(auto, unfolding(crate::specs::Awaited::third_events))]
fn third_events() -> &'static str
    ensures { result.now ≡ third_events }
{
    "s\nhalt\n\nn\nhalt\n\ns\navoid\n#0-255\n\ns\nready\n#0-255\n#0-1\n\n"
}

fn events_on(table: &mut String, third: bool) -> Result<(), AllocError>
    ensures { OnOk result (string_bytes table.new ≡ string_bytes table.old ++ event_forms third) }
{
    table.push_str(common_events())?;
    if third {
        table.push_str(third_events())?;
    }
    table.push_str("end\n\n")
}

#[tactic(auto, unfolding(crate::specs::Awaited::version_forms))]
fn version_forms(silent: bool) -> &'static str
    ensures { result.now ≡ version_forms silent }
{
    if silent {
        "lat\n3\n\n"
    } else {
        "lat\n1\n\nlat\n2\n\nlat\n3\n\n"
    }
}

#[tactic(auto, unfolding(crate::specs::Awaited::node_groups))]
fn node_groups() -> &'static str
    ensures { result.now ≡ node_groups }
{
    "node-groups\nH2-64\n\n"
}

// The two lines of groups, which the first version doesn't have.
#[tactic(auto, unfolding(crate::specs::Awaited::both_groups))]
fn both_groups(first: bool) -> &'static str
    ensures { result.now ≡ both_groups first }
{
    if first {
        ""
    } else {
        "server-groups\nH2-64\n\nnode-groups\nH2-64\n\n"
    }
}

// Behind the line of the circuits: the groups, the services, the offers, and `go`.
fn circuit_on(alloc: Global, table: &mut String, said: Said<'_>) -> Result<(), AllocError>
    ensures { OnOk result (string_bytes table.new
        ≡ string_bytes table.old ++ behind_circuit (said_shown said.entry)) }
{
    table.push_str(both_groups(said.version == "1".as_bytes()))?;
    services_on(alloc, table, said)
}

// Behind that of the server's groups.
fn groups_on(alloc: Global, table: &mut String, said: Said<'_>) -> Result<(), AllocError>
    ensures { OnOk result (string_bytes table.new
        ≡ string_bytes table.old ++ (node_groups ++ services_on (said_shown said.entry))) }
{
    table.push_str(node_groups())?;
    services_on(alloc, table, said)
}

// Behind one of the other lines in front of the events.
fn listed_on(
    alloc: Global,
    table: &mut String,
    word: &[u8],
    said: Said<'_>,
) -> Result<(), AllocError>
    ensures { OnOk result (string_bytes table.new
        ≡ string_bytes table.old ++ behind_listed word.now (said_shown said.entry)) }
{
    if word == "circuit".as_bytes() {
        circuit_on(alloc, table, said)
    } else if word == "server-groups".as_bytes() {
        groups_on(alloc, table, said)
    } else if word == "node-groups".as_bytes() || word == "service".as_bytes() {
        services_on(alloc, table, said)
    } else if word == "offer".as_bytes() {
        offers_on(alloc, table, said)
    } else if word == "end".as_bytes() {
        Ok(())
    } else {
        events_on(table, said.version == "3".as_bytes())
    }
}

// Behind a line that begins with this word.
fn line_on(alloc: Global, table: &mut String, word: &[u8], said: Said<'_>) -> Result<(), AllocError>
    ensures { OnOk result (string_bytes table.new
        ≡ string_bytes table.old ++ behind_line word.now (said_shown said.entry)) }
{
    let third = said.version == "3".as_bytes();
    if word == "lat".as_bytes() {
        table.push_str(server_forms(third))
    } else if word == "server".as_bytes() {
        table.push_str(node_forms(third))
    } else if word == "node".as_bytes() {
        table.push_str(circuit_forms(said.version == "1".as_bytes()))
    } else {
        listed_on(alloc, table, word, said)
    }
}

// The lines that may stand behind this one, the last that says something; or the first one, behind silent ones or not.
pub(crate) fn schedule_forms(
    alloc: Global,
    silent: bool,
    line: &[u8],
    said: Said<'_>,
) -> Result<String, AllocError>
    ensures { IfOk result (λ table.
        string_bytes table ≡ schedule_forms silent line.now (said_shown said.entry)) }
{
    let mut table = String::new(alloc);
    if line.is_empty() {
        table.push_str(version_forms(silent))?;
    } else {
        line_on(alloc, &mut table, front_word(line), said)?;
    }
    Ok(table)
}
