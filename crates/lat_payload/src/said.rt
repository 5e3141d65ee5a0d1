//! Notices as frames. `docs/FRAMES.md`, part Notices, has their layouts.

ghost use Rattle.std.specs.Prelude.{◌≡◌, ◌<◌};
ghost use Rattle.lat_base.specs.declared.outbox.Mark.TheVariants as marks;
ghost use Rattle.lat_fields.specs.Payloads.{padded};
ghost use Rattle.lat_notices.specs.Texts.{notice_text};
ghost use Rattle.lat_notices.specs.Writing.{CanBeWritten};
ghost use Rattle.lat_machines.specs.values.Addresses.{address, everyone};
ghost use Rattle.lat_machines.specs.values.Frames.{plain, OfNotice};
ghost use Rattle.lat_machines.specs.values.Notices.{CommandNotice, StatusNotice, SolicitNotice, ResponseNotice};
ghost use Rattle.lat_payload.specs.Notices.{action_shown, outcome_shown, notice_shown, IsSendable};
ghost use Rattle.lat_payload.specs.Frames.{GoesOutAs};

use lat_base::{Addr, EVERYONE, Mark, Name, OutFrame, Payload};
use lat_notices::{Action, Command, Notice, Outcome, Response, Solicit, Status, write_notice};

/// A frame with this notice, which belongs to no circuit; what is written reads as the notice. `lat_notices::notice_ok` tells
/// whether it may be called. It takes no memory.
pub fn notice_frame(to: Addr, notice: &Notice) -> OutFrame
    requires ok { CanBeWritten notice.now }
    ensures frame { result ≡
        record {
          to = to;
          payload = padded (notice_text notice.now);
          circuit = 0;
          mark = marks.Plain;
        } }
    ensures goes { GoesOutAs result (plain (address to.0) 0 (OfNotice (notice_shown notice.now))) }
{
    let mut payload = Payload::empty();
    write_notice(notice, &mut payload);
    OutFrame {
        to,
        payload,
        circuit: 0,
        mark: Mark::Plain,
    }
}

/// What a server answers to a node's command. The incarnation and the request are those of the command; a place in the queue
/// is 1 to 64.
#[tactic(auto, using(crate::proofs::Notices::sendable_fits))]
pub fn status_frame(
    to: Addr,
    incarnation: u16,
    request: u16,
    node: &Name,
    outcome: Outcome,
) -> OutFrame
    requires { IsSendable outcome }
    ensures { GoesOutAs result (plain (address to.0) 0 (OfNotice (StatusNotice
        (record {
          incarnation = incarnation;
          request = request;
          outcome = outcome_shown outcome;
          node = node.now;
        })))) }
{
    let status = Status {
        incarnation,
        request,
        outcome,
        node: *node,
    };
    notice_frame(to, &Notice::Status(status))
}

/// A server's question to everyone, who offers the service.
pub fn solicit_frame(id: u16, asker: &Name, service: &Name) -> OutFrame
    ensures { GoesOutAs result (plain everyone 0 (OfNotice (SolicitNotice
        (record { id = id; asker = asker.now; service = service.now })))) }
{
    let solicit = Solicit {
        id,
        asker: *asker,
        service: *service,
    };
    notice_frame(EVERYONE, &Notice::Solicit(solicit))
}

/// A node's command to a server: to ask for a session with the service, or to withdraw the request.
pub fn command_frame(
    to: Addr,
    incarnation: u16,
    request: u16,
    action: Action,
    node: &Name,
    service: &Name,
) -> OutFrame
    ensures { GoesOutAs result (plain (address to.0) 0 (OfNotice (CommandNotice
        (record {
          incarnation = incarnation;
          request = request;
          action = action_shown action;
          node = node.now;
          service = service.now;
        })))) }
{
    let command = Command {
        incarnation,
        request,
        action,
        node: *node,
        service: *service,
    };
    notice_frame(to, &Notice::Command(command))
}

/// A node's answer to the question of this number. It stands for `timer` seconds, not 0; a rating of 0 says that the node can't
/// take a session.
pub fn response_frame(
    to: Addr,
    id: u16,
    node: &Name,
    service: &Name,
    rating: u8,
    timer: u8,
) -> OutFrame
    requires { 0 < timer }
    ensures { GoesOutAs result (plain (address to.0) 0 (OfNotice (ResponseNotice
        (record {
          id = id;
          node = node.now;
          service = service.now;
          rating = rating;
          timer = timer;
        })))) }
{
    let response = Response {
        id,
        node: *node,
        service: *service,
        rating,
        timer,
    };
    notice_frame(to, &Notice::Response(response))
}
