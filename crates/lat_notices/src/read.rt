//! Reading notices.

ghost use Rattle.std.specs.Prelude.{◌≡◌, ◌≤◌, length, drop, Ok, IfOk};
ghost use Rattle.lat_fields.specs.Payloads.{PayloadText};
ghost use Rattle.lat_fields.specs.Reading.{Gives};
ghost use Rattle.lat_notices.specs.Reading.{announcement, announcement_at, command_at, status_at, solicit_at, response_at, fields_at, notice_read};
ghost use Rattle.lat_notices.specs.Texts.{NoticeText};
ghost use Rattle.lat_notices.specs.declared.notice.Notice.{Notice};

use crate::FrameFault;
use crate::fields::{action_of, groups_of, outcome_of, timer_of, version_of};
use crate::kind::NoticeKind;
use crate::notice::{Announcement, Command, Notice, Response, Solicit, Status};
use crate::read_services::services_of;
use crate::services::Services;
use lat_base::{Bytes, Field, Memory, Name, PAYLOAD_BYTES};
use lat_fields::{LayoutFault, byte_of, counted_of, ends_right, known, name_of, number_of, wanted};
use std::alloc::Global;

// The announcement of these fields, with copies of its mask and of its description.
fn announced(
    alloc: Global,
    timer: u8,
    incarnation: u16,
    mask: &[u8],
    node: Name,
    text: &[u8],
    services: Services,
) -> Result<Notice, Memory>
    ensures { IfOk result (λ n. n ≡ announcement timer incarnation mask.now node text.now services) }
{
    Ok(Notice::Announcement(Announcement {
        timer,
        incarnation,
        groups: Bytes::copy(alloc, mask)?,
        node,
        description: Bytes::copy(alloc, text)?,
        services,
    }))
}

// Each of these reads the fields of a type, from place 1 on, and gives the place behind them.
#[tactic(auto, unfolding(crate::specs::Reading::announcement_at))]
fn announcement_of(alloc: Global, bytes: &[u8]) -> Result<(Notice, usize), LayoutFault>
    requires { (1 ≤ length bytes.now) × (length bytes.now ≤ 1500) }
    ensures gives { Gives (λ x. (
      x.0,
      x.1,
      drop x.1 bytes.now,
    )) result (announcement_at (drop 1 bytes.now)) }
    ensures within { IfOk result (λ x. x.1 ≤ length bytes.now) }
{
    let (timer, at) = timer_of(bytes, 1)?;
    let (_, at) = version_of(bytes, at)?;
    let (incarnation, at) = number_of(Field::Incarnation, bytes, at)?;
    let (mask, at) = groups_of(bytes, at)?;
    let (node, at) = name_of(Field::NodeName, bytes, at)?;
    let (text, at) = counted_of(Field::Description, at, bytes, at)?;
    let (count, at) = byte_of(Field::ServiceCount, at, bytes, at)?;
    let (services, behind) = services_of(alloc, count, bytes, at)?;
    let notice = announced(alloc, timer, incarnation, mask, node, text, services)?;
    Ok((notice, behind))
}

#[tactic(auto, unfolding(crate::specs::Reading::command_at))]
fn command_of(bytes: &[u8]) -> Result<(Notice, usize), LayoutFault>
    requires { (1 ≤ length bytes.now) × (length bytes.now ≤ 1500) }
    ensures gives { Gives (λ x. (
      x.0,
      x.1,
      drop x.1 bytes.now,
    )) result (command_at (drop 1 bytes.now)) }
    ensures within { IfOk result (λ x. x.1 ≤ length bytes.now) }
{
    let (_, at) = version_of(bytes, 1)?;
    let (incarnation, at) = number_of(Field::Incarnation, bytes, at)?;
    let (request, at) = number_of(Field::RequestId, bytes, at)?;
    let (action, at) = action_of(bytes, at)?;
    let (node, at) = name_of(Field::NodeName, bytes, at)?;
    let (service, behind) = name_of(Field::Service, bytes, at)?;
    let notice = Notice::Command(Command {
        incarnation,
        request,
        action,
        node,
        service,
    });
    Ok((notice, behind))
}

#[tactic(auto, unfolding(crate::specs::Reading::status_at))]
fn status_of(bytes: &[u8]) -> Result<(Notice, usize), LayoutFault>
    requires { (1 ≤ length bytes.now) × (length bytes.now ≤ 1500) }
    ensures gives { Gives (λ x. (
      x.0,
      x.1,
      drop x.1 bytes.now,
    )) result (status_at (drop 1 bytes.now)) }
    ensures within { IfOk result (λ x. x.1 ≤ length bytes.now) }
{
    let (_, at) = version_of(bytes, 1)?;
    let (incarnation, at) = number_of(Field::Incarnation, bytes, at)?;
    let (request, at) = number_of(Field::RequestId, bytes, at)?;
    let (outcome, at) = outcome_of(bytes, at)?;
    let (node, behind) = name_of(Field::NodeName, bytes, at)?;
    let notice = Notice::Status(Status {
        incarnation,
        request,
        outcome,
        node,
    });
    Ok((notice, behind))
}

#[tactic(auto, unfolding(crate::specs::Reading::solicit_at))]
fn solicit_of(bytes: &[u8]) -> Result<(Notice, usize), LayoutFault>
    requires { (1 ≤ length bytes.now) × (length bytes.now ≤ 1500) }
    ensures gives { Gives (λ x. (
      x.0,
      x.1,
      drop x.1 bytes.now,
    )) result (solicit_at (drop 1 bytes.now)) }
    ensures within { IfOk result (λ x. x.1 ≤ length bytes.now) }
{
    let (_, at) = version_of(bytes, 1)?;
    let (id, at) = number_of(Field::SolicitId, bytes, at)?;
    let (asker, at) = name_of(Field::NodeName, bytes, at)?;
    let (service, behind) = name_of(Field::Service, bytes, at)?;
    Ok((Notice::Solicit(Solicit { id, asker, service }), behind))
}

#[tactic(auto, unfolding(crate::specs::Reading::response_at))]
fn response_of(bytes: &[u8]) -> Result<(Notice, usize), LayoutFault>
    requires { (1 ≤ length bytes.now) × (length bytes.now ≤ 1500) }
    ensures gives { Gives (λ x. (
      x.0,
      x.1,
      drop x.1 bytes.now,
    )) result (response_at (drop 1 bytes.now)) }
    ensures within { IfOk result (λ x. x.1 ≤ length bytes.now) }
{
    let (_, at) = version_of(bytes, 1)?;
    let (id, at) = number_of(Field::SolicitId, bytes, at)?;
    let (node, at) = name_of(Field::NodeName, bytes, at)?;
    let (service, at) = name_of(Field::Service, bytes, at)?;
    let (rating, at) = byte_of(Field::Rating, at, bytes, at)?;
    let (timer, behind) = timer_of(bytes, at)?;
    let notice = Notice::Response(Response {
        id,
        node,
        service,
        rating,
        timer,
    });
    Ok((notice, behind))
}

// The fields of the notice of this type, and the place behind them.
fn fields_of(alloc: Global, kind: NoticeKind, bytes: &[u8]) -> Result<(Notice, usize), LayoutFault>
    requires { (1 ≤ length bytes.now) × (length bytes.now ≤ 1500) }
    ensures gives { Gives (λ x. (x.0, x.1, drop x.1 bytes.now)) result (fields_at kind
        (drop 1 bytes.now)) }
    ensures within { IfOk result (λ x. x.1 ≤ length bytes.now) }
{
    match kind {
        NoticeKind::Announcement => announcement_of(alloc, bytes),
        NoticeKind::Command => command_of(bytes),
        NoticeKind::Status => status_of(bytes),
        NoticeKind::Solicit => solicit_of(bytes),
        NoticeKind::Response => response_of(bytes),
    }
}

// The notice that the payload is.
fn notice_of(alloc: Global, payload: &[u8]) -> Result<Notice, LayoutFault>
    ensures { Gives (λ x. x) result (notice_read payload.now) }
{
    wanted(payload.len() <= PAYLOAD_BYTES, Field::Size, PAYLOAD_BYTES)?;
    let (first, _) = byte_of(Field::Kind, 0, payload, 0)?;
    let kind = known(NoticeKind::from_bits(first / 4), Field::Kind, 0)?;
    let (notice, end) = fields_of(alloc, kind, payload)?;
    wanted(ends_right(end, payload), Field::Trailing, end)?;
    Ok(notice)
}

/// Reads the notice that the payload, of any length, is: its text, with any bytes behind it where the payload has at
/// most 46 in all, and nothing behind it otherwise. What is no notice is refused at its first bad field, in the order
/// of the layout. Takes memory for the lists of an announcement.
pub fn read_notice(alloc: Global, payload: &[u8]) -> Result<Notice, FrameFault>
    // What is read stands there.
    ensures found { IfOk result (λ n. PayloadText NoticeText n payload.now) }
    // What stands there is read, unless memory runs out.
    ensures only { (n : Notice) → PayloadText NoticeText n payload.now →
        Gives (λ x. x) result (Ok n) }
    // Which field is refused.
    ensures exact { Gives (λ x. x) result (notice_read payload.now) }
{
    notice_of(alloc, payload)
}
