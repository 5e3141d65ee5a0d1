//! Notices in print.

ghost use Rattle.std.specs.Prelude.{◌≡◌, ◌++◌, OnOk, string_bytes};
ghost use Rattle.std.specs.List.{flat_map};
ghost use Rattle.lat_show.specs.NoticePrinted.{service_printed, request_printed, offer_printed, announcer_printed, groups_printed, node_printed, description_printed, rated_printed, question_printed, announcement_printed, command_printed, outcome_printed, status_printed, solicit_printed, response_printed, notice_printed};

use lat_base::{Bytes, Name};
use lat_notices::{Announcement, Command, Notice, Response, Service, Solicit, Status};
use lat_text::{hex_onto, name_onto};
use std::alloc::{AllocError, Global};

fn description_onto(alloc: Global, text: &mut String, description: &[u8]) -> Result<(), AllocError>
    ensures { OnOk result (string_bytes text.new
        ≡ string_bytes text.old ++ description_printed description.now) }
{
    text.push_str(" description ")?;
    hex_onto(alloc, text, description)
}

#[tactic(auto, unfolding(crate::specs::NoticePrinted::rated_printed))]
fn rated_onto(
    alloc: Global,
    text: &mut String,
    rating: u8,
    description: &Bytes,
) -> Result<(), AllocError>
    ensures { OnOk result (string_bytes text.new
        ≡ string_bytes text.old ++ rated_printed rating description.now) }
{
    write!(text, " rating {rating}")?;
    description_onto(alloc, text, description.as_slice())
}

#[tactic(auto, unfolding(crate::specs::NoticePrinted::service_printed))]
fn service_onto(alloc: Global, text: &mut String, service: &Service) -> Result<(), AllocError>
    ensures { OnOk result (string_bytes text.new
        ≡ string_bytes text.old ++ service_printed service.now) }
{
    text.push_str("service ")?;
    name_onto(text, &service.name)?;
    rated_onto(alloc, text, service.rating, &service.description)?;
    text.push_str("\n")
}

fn services_onto(alloc: Global, text: &mut String, services: &[Service]) -> Result<(), AllocError>
    ensures { OnOk result (string_bytes text.new
        ≡ string_bytes text.old ++ flat_map service_printed services.now) }
{
    for service in services {
        service_onto(alloc, text, service)?;
    }
    Ok(())
}

// Adds the first word of the line of a command or a status, and the request that it is about.
#[tactic(auto, unfolding(crate::specs::NoticePrinted::request_printed))]
fn request_onto(
    text: &mut String,
    word: &str,
    incarnation: u16,
    request: u16,
) -> Result<(), AllocError>
    ensures { OnOk result (string_bytes text.new
        ≡ string_bytes text.old ++ request_printed word.now incarnation request) }
{
    write!(
        text,
        "{word} version 5 incarnation {incarnation} request {request}"
    )
}

#[tactic(auto, unfolding(crate::specs::NoticePrinted::offer_printed))]
fn offer_onto(text: &mut String, node: &Name, service: &Name) -> Result<(), AllocError>
    ensures { OnOk result (string_bytes text.new
        ≡ string_bytes text.old ++ offer_printed node.now service.now) }
{
    text.push_str(" node ")?;
    name_onto(text, node)?;
    text.push_str(" service ")?;
    name_onto(text, service)
}

#[tactic(auto, unfolding(crate::specs::NoticePrinted::announcer_printed))]
fn announcer_onto(text: &mut String, announcement: &Announcement) -> Result<(), AllocError>
    ensures { OnOk result (string_bytes text.new
        ≡ string_bytes text.old ++ announcer_printed announcement.now) }
{
    let (timer, incarnation) = (announcement.timer, announcement.incarnation);
    write!(
        text,
        "announcement timer {timer} version 5 incarnation {incarnation}"
    )
}

#[tactic(auto, unfolding(crate::specs::NoticePrinted::groups_printed))]
fn groups_onto(alloc: Global, text: &mut String, groups: &Bytes) -> Result<(), AllocError>
    ensures { OnOk result (string_bytes text.new
        ≡ string_bytes text.old ++ groups_printed groups.now) }
{
    text.push_str(" groups ")?;
    hex_onto(alloc, text, groups.as_slice())
}

#[tactic(auto, unfolding(crate::specs::NoticePrinted::node_printed))]
fn node_onto(
    alloc: Global,
    text: &mut String,
    node: &Name,
    description: &Bytes,
) -> Result<(), AllocError>
    ensures { OnOk result (string_bytes text.new
        ≡ string_bytes text.old ++ node_printed node.now description.now) }
{
    text.push_str(" node ")?;
    name_onto(text, node)?;
    description_onto(alloc, text, description.as_slice())
}

#[tactic(auto, unfolding(crate::specs::NoticePrinted::announcement_printed))]
fn announcement_onto(
    alloc: Global,
    text: &mut String,
    announcement: &Announcement,
) -> Result<(), AllocError>
    ensures { OnOk result (string_bytes text.new
        ≡ string_bytes text.old ++ announcement_printed announcement.now) }
{
    let services = announcement.services.as_slice();
    let count = services.len();
    announcer_onto(text, announcement)?;
    groups_onto(alloc, text, &announcement.groups)?;
    node_onto(alloc, text, &announcement.node, &announcement.description)?;
    write!(text, " services {count}\n")?;
    services_onto(alloc, text, services)
}

#[tactic(auto, unfolding(crate::specs::NoticePrinted::command_printed))]
fn command_onto(text: &mut String, command: &Command) -> Result<(), AllocError>
    ensures { OnOk result (string_bytes text.new
        ≡ string_bytes text.old ++ command_printed command.now) }
{
    let action = command.action.number();
    request_onto(text, "command", command.incarnation, command.request)?;
    write!(text, " action {action}")?;
    offer_onto(text, &command.node, &command.service)?;
    text.push_str("\n")
}

#[tactic(auto, unfolding(crate::specs::NoticePrinted::outcome_printed))]
fn outcome_onto(text: &mut String, outcome: u8, place: u16) -> Result<(), AllocError>
    ensures { OnOk result (string_bytes text.new
        ≡ string_bytes text.old ++ outcome_printed outcome place) }
{
    write!(text, " outcome {outcome} place {place}")
}

#[tactic(auto, unfolding(crate::specs::NoticePrinted::status_printed))]
fn status_onto(text: &mut String, status: &Status) -> Result<(), AllocError>
    ensures { OnOk result (string_bytes text.new
        ≡ string_bytes text.old ++ status_printed status.now) }
{
    request_onto(text, "status", status.incarnation, status.request)?;
    outcome_onto(text, status.outcome.number(), status.outcome.place())?;
    text.push_str(" node ")?;
    name_onto(text, &status.node)?;
    text.push_str("\n")
}

// Adds the first word of the line of a solicit or a response, and the question that it is about.
#[tactic(auto, unfolding(crate::specs::NoticePrinted::question_printed))]
fn question_onto(text: &mut String, word: &str, id: u16) -> Result<(), AllocError>
    ensures { OnOk result (string_bytes text.new
        ≡ string_bytes text.old ++ question_printed word.now id) }
{
    write!(text, "{word} version 5 id {id}")
}

#[tactic(auto, unfolding(crate::specs::NoticePrinted::solicit_printed))]
fn solicit_onto(text: &mut String, solicit: &Solicit) -> Result<(), AllocError>
    ensures { OnOk result (string_bytes text.new
        ≡ string_bytes text.old ++ solicit_printed solicit.now) }
{
    question_onto(text, "solicit", solicit.id)?;
    offer_onto(text, &solicit.asker, &solicit.service)?;
    text.push_str("\n")
}

#[tactic(auto, unfolding(crate::specs::NoticePrinted::response_printed))]
fn response_onto(text: &mut String, response: &Response) -> Result<(), AllocError>
    ensures { OnOk result (string_bytes text.new
        ≡ string_bytes text.old ++ response_printed response.now) }
{
    let (rating, timer) = (response.rating, response.timer);
    question_onto(text, "response", response.id)?;
    offer_onto(text, &response.node, &response.service)?;
    write!(text, " rating {rating} timer {timer}\n")
}

/// Adds the line of a notice to a text, and behind that of an announcement the lines of its services.
/// `docs/FORMATS.md`, part Printed texts, has the lines.
pub fn notice_onto(alloc: Global, text: &mut String, notice: &Notice) -> Result<(), AllocError>
    ensures { OnOk result (string_bytes text.new
        ≡ string_bytes text.old ++ notice_printed notice.now) }
{
    match notice {
        Notice::Announcement(announcement) => announcement_onto(alloc, text, announcement),
        Notice::Command(command) => command_onto(text, command),
        Notice::Status(status) => status_onto(text, status),
        Notice::Solicit(solicit) => solicit_onto(text, solicit),
        Notice::Response(response) => response_onto(text, response),
    }
}
