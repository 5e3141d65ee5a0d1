//! The words of a daemon's start and stop, and of what comes near its end.

ghost use Rattle.std.specs.Prelude.{◌≡◌, ◌++◌, OnOk, string_bytes};
ghost use Rattle.lat_log.specs.Words.{bad_words, line_listens_words, queue_listens_words, queue_words, role_word, started_words, stopped_words};

use crate::entry::Role;
use lat_base::{Addr, Bad, Name};
use lat_text::{address_onto, name_onto};
use std::alloc::AllocError;

fn role_word(role: Role) -> &'static str
    ensures { result.now ≡ role_word role }
{
    match role {
        Role::Server => "server",
        Role::Switch => "switch",
        Role::Node => "node",
        Role::Tariff => "tariff",
    }
}

/// Adds what a daemon is, and the port that frames come to.
pub fn started_onto(
    text: &mut String,
    role: Role,
    address: Addr,
    port: u16,
) -> Result<(), AllocError>
    ensures { OnOk result (string_bytes text.new
        ≡ string_bytes text.old ++ started_words role address port) }
{
    let role = role_word(role);
    write!(text, "start {role} ")?;
    address_onto(text, address)?;
    write!(text, " port {port}")
}

/// Adds that it listens for a line.
pub fn line_listens_onto(text: &mut String, line: u8, port: u16) -> Result<(), AllocError>
    ensures { OnOk result (string_bytes text.new ≡ string_bytes text.old ++ line_listens_words line port) }
{
    write!(text, "line {line} listens at {port}")
}

// Adds the queue of a service that the server at this address offers.
fn queue_onto(text: &mut String, service: &Name, server: Addr) -> Result<(), AllocError>
    ensures { OnOk result (string_bytes text.new
        ≡ string_bytes text.old ++ queue_words service.now server) }
{
    text.push_str("queue ")?;
    name_onto(text, service)?;
    text.push_str("@")?;
    address_onto(text, server)
}

/// Adds that it listens for the jobs of a queue.
pub fn queue_listens_onto(
    text: &mut String,
    service: &Name,
    server: Addr,
    port: u16,
) -> Result<(), AllocError>
    ensures { OnOk result (string_bytes text.new
        ≡ string_bytes text.old ++ queue_listens_words service.now server port) }
{
    queue_onto(text, service, server)?;
    write!(text, " listens at {port}")
}

/// Adds what came of a daemon.
pub fn stopped_onto(
    text: &mut String,
    events: u64,
    sessions: u64,
    frames: u64,
) -> Result<(), AllocError>
    ensures { OnOk result (string_bytes text.new
        ≡ string_bytes text.old ++ stopped_words events sessions frames) }
{
    write!(
        text,
        "stop events {events} sessions {sessions} frames {frames}"
    )
}

/// Adds the first bad field of a payload, with its place, and who sent it.
pub fn bad_onto(text: &mut String, bad: Bad, from: Addr) -> Result<(), AllocError>
    ensures { OnOk result (string_bytes text.new ≡ string_bytes text.old ++ bad_words bad from) }
{
    let (field, at) = (bad.field.word(), bad.at);
    write!(text, "bad {field} {at} from ")?;
    address_onto(text, from)
}
