//! What a caller in local mode is told, in words.

ghost use Rattle.std.specs.Prelude.{◌≡◌, ◌++◌, OnOk, string_bytes};
ghost use Rattle.lat_local.specs.Texts.{busy_text, connected_text, ended_text, ended_words, fault_text, greeting_text, help_text, next_text, peer_text, prompt, prompted, reply_text, resumed_text, said, saying_text, unmet_text, unmet_words, unoffered_text};

use crate::command::CommandFault;
use crate::phase::Peer;
use crate::reply::{Reply, Saying};
use crate::tables::{ServiceRow, SessionRow, services_onto, sessions_onto};
use lat_base::{Name, SessionEnd};
use lat_text::name_onto;
use std::alloc::{AllocError, Global};

/// The prompt of local mode.
pub const PROMPT: &str = "Local> ";

fn fault_text(fault: CommandFault) -> &'static str
    ensures { result.now ≡ fault_text fault }
{
    match fault {
        CommandFault::UnknownCommand => "? no such command: help lists them\r\n",
        CommandFault::MissingShown => "? show what: services or sessions\r\n",
        CommandFault::UnknownShown => "? only services and sessions can be shown\r\n",
        CommandFault::AmbiguousShown => "? both services and sessions begin so\r\n",
        CommandFault::MissingService => "? connect to what: the name of a service\r\n",
        CommandFault::UnknownService => "? no such service: show services lists them\r\n",
        CommandFault::AmbiguousService => "? more than one service begins so\r\n",
        CommandFault::Extra => "? too many words\r\n",
    }
}

fn unmet_onto(text: &mut String, end: SessionEnd) -> Result<(), AllocError>
    ensures { OnOk result (string_bytes text.new ≡ string_bytes text.old ++ unmet_words end) }
{
    match end {
        SessionEnd::Closed => text.push_str(" ended it at once"),
        SessionEnd::Rejected(4) => text.push_str(" offers it no more"),
        SessionEnd::Rejected(7) => text.push_str(" has no room"),
        SessionEnd::Rejected(reason) => write!(text, " rejected it: reason {reason}"),
        SessionEnd::Circuit(_) => text.push_str(" doesn't answer"),
    }
}

fn ended_onto(text: &mut String, end: SessionEnd) -> Result<(), AllocError>
    ensures { OnOk result (string_bytes text.new ≡ string_bytes text.old ++ ended_words end) }
{
    match end {
        SessionEnd::Closed => text.push_str("by the host"),
        SessionEnd::Rejected(reason) => write!(text, "rejected, reason {reason}"),
        SessionEnd::Circuit(6) => text.push_str("no answer"),
        SessionEnd::Circuit(reason) => write!(text, "circuit, reason {reason}"),
    }
}

fn peer_onto(text: &mut String, peer: &Peer) -> Result<(), AllocError>
    ensures { OnOk result (string_bytes text.new ≡ string_bytes text.old ++ peer_text peer.now) }
{
    name_onto(text, &peer.service)?;
    text.push_str(" at ")?;
    name_onto(text, &peer.node)
}

fn greeting_onto(text: &mut String, server: &Name, line: u8) -> Result<(), AllocError>
    ensures { OnOk result (string_bytes text.new ≡ string_bytes text.old ++ greeting_text server.now line) }
{
    name_onto(text, server)?;
    write!(text, " line {line}\r\n")
}

fn next_onto(text: &mut String, node: &Name, end: SessionEnd) -> Result<(), AllocError>
    ensures { OnOk result (string_bytes text.new ≡ string_bytes text.old ++ next_text node.now end) }
{
    name_onto(text, node)?;
    unmet_onto(text, end)?;
    text.push_str(", trying the next\r\n")
}

fn unmet_line_onto(text: &mut String, node: &Name, end: SessionEnd) -> Result<(), AllocError>
    ensures { OnOk result (string_bytes text.new ≡ string_bytes text.old ++ unmet_text node.now end) }
{
    name_onto(text, node)?;
    unmet_onto(text, end)?;
    text.push_str("\r\n")
}

fn unoffered_onto(text: &mut String, service: &Name) -> Result<(), AllocError>
    ensures { OnOk result (string_bytes text.new ≡ string_bytes text.old ++ unoffered_text service.now) }
{
    text.push_str("no node offers ")?;
    name_onto(text, service)?;
    text.push_str("\r\n")
}

fn connected_onto(text: &mut String, peer: &Peer) -> Result<(), AllocError>
    ensures { OnOk result (string_bytes text.new ≡ string_bytes text.old ++ connected_text peer.now) }
{
    text.push_str("connected to ")?;
    peer_onto(text, peer)?;
    text.push_str("\r\n")
}

fn resumed_onto(text: &mut String, peer: &Peer) -> Result<(), AllocError>
    ensures { OnOk result (string_bytes text.new ≡ string_bytes text.old ++ resumed_text peer.now) }
{
    text.push_str("resuming ")?;
    peer_onto(text, peer)?;
    text.push_str("\r\n")
}

fn busy_onto(text: &mut String, peer: &Peer) -> Result<(), AllocError>
    ensures { OnOk result (string_bytes text.new ≡ string_bytes text.old ++ busy_text peer.now) }
{
    text.push_str("? disconnect first: ")?;
    peer_onto(text, peer)?;
    text.push_str(" stays\r\n")
}

fn ended_line_onto(text: &mut String, end: SessionEnd) -> Result<(), AllocError>
    ensures { OnOk result (string_bytes text.new ≡ string_bytes text.old ++ ended_text end) }
{
    text.push_str("\r\nsession ended: ")?;
    ended_onto(text, end)?;
    text.push_str("\r\n")
}

#[tactic(auto, unfolding(crate::specs::Texts::help_text))]
fn help_onto(text: &mut String) -> Result<(), AllocError>
    ensures { OnOk result (string_bytes text.new ≡ string_bytes text.old ++ help_text) }
{
    text.push_str("connect NAME   a session with this service\r\n")?;
    text.push_str("resume         back into the session that stays\r\n")?;
    text.push_str("disconnect     the session that stays is closed\r\n")?;
    text.push_str("show services  the services that are known\r\n")?;
    text.push_str("show sessions  the sessions of this line\r\n")?;
    text.push_str("help           these lines\r\n")?;
    text.push_str("logout         hangs up\r\n")?;
    text.push_str("control-]      leaves a session, which stays\r\n")?;
    text.push_str("A word may be cut where one alone begins so.\r\n")
}

fn saying_onto(
    text: &mut String,
    alloc: Global,
    saying: &Saying,
    services: &[ServiceRow],
    sessions: &[SessionRow],
) -> Result<(), AllocError>
    ensures { OnOk result (string_bytes text.new ≡ string_bytes text.old ++ saying_text services.now sessions.now saying.now) }
{
    match saying {
        Saying::Greeting(server, line) => greeting_onto(text, server, *line),
        Saying::Wrong(fault) => text.push_str(fault_text(*fault)),
        Saying::Connecting => text.push_str("connecting\r\n"),
        Saying::Next(node, end) => next_onto(text, node, *end),
        Saying::Unmet(node, end) => unmet_line_onto(text, node, *end),
        Saying::Unoffered(service) => unoffered_onto(text, service),
        Saying::Connected(peer) => connected_onto(text, peer),
        Saying::Resumed(peer) => resumed_onto(text, peer),
        Saying::Left => text.push_str("\r\n"),
        Saying::NoSession => text.push_str("? no session\r\n"),
        Saying::Busy(peer) => busy_onto(text, peer),
        Saying::Ended(end) => ended_line_onto(text, *end),
        Saying::Disconnected => text.push_str("session ended: by the caller\r\n"),
        Saying::Services => services_onto(text, alloc, services),
        Saying::Sessions => sessions_onto(text, alloc, sessions),
        Saying::Help => help_onto(text),
        Saying::LoggedOut => text.push_str("logged out\r\n"),
    }
}

fn said_onto(
    text: &mut String,
    alloc: Global,
    saying: &Option<Saying>,
    services: &[ServiceRow],
    sessions: &[SessionRow],
) -> Result<(), AllocError>
    ensures { OnOk result (string_bytes text.new ≡ string_bytes text.old ++ said services.now sessions.now saying.now) }
{
    match saying {
        Some(saying) => saying_onto(text, alloc, saying, services, sessions),
        None => Ok(()),
    }
}

fn prompt_onto(text: &mut String, prompts: bool) -> Result<(), AllocError>
    ensures { OnOk result (string_bytes text.new ≡ string_bytes text.old ++ prompted prompts) }
{
    if prompts {
        text.push_str(PROMPT)
    } else {
        Ok(())
    }
}

/// Adds all that a reply shows, where these services are known, and the line has these sessions. After want of memory a part
/// of it may stand in the text.
pub fn reply_onto(
    text: &mut String,
    alloc: Global,
    reply: &Reply,
    services: &[ServiceRow],
    sessions: &[SessionRow],
) -> Result<(), AllocError>
    ensures { OnOk result (string_bytes text.new ≡ string_bytes text.old ++ reply_text services.now sessions.now reply.now) }
{
    said_onto(text, alloc, &reply.saying, services, sessions)?;
    prompt_onto(text, reply.prompts)
}
