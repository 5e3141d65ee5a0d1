//! Writing notices.

ghost use Rattle.std.specs.Prelude.{◌≡◌, ◌+◌, ◌≤◌, ◌++◌, [], length};
ghost use Rattle.lat_fields.specs.Payloads.{padded};
ghost use Rattle.lat_notices.specs.Texts.{HasNames, IsAnnouncement, Suits, announcement_text, command_text, status_text, solicit_text, response_text, fields_text, notice_text, type_of, IsWritable};
ghost use Rattle.lat_notices.specs.Writing.{fields_len, CanBeWritten};
ghost use Rattle.lat_notices.specs.declared.notice.Notice.TheVariants as notices;

use crate::kind::NoticeKind;
use crate::notice::{Announcement, Command, Notice, Response, Solicit, Status};
use crate::write_services::write_services;
use lat_base::Payload;
use lat_fields::{VERSION, write_counted, write_number, write_padding};

fn write_announcement(out: &mut Payload, a: &Announcement)
    requires suits { IsAnnouncement a.now }
    requires room { length out.old + fields_len (notices.Announcement a.now) ≤ 1500 }
    ensures text { out.new ≡ out.old ++ announcement_text a.now }
    ensures names { HasNames (notices.Announcement a.now) }
{
    out.push(a.timer);
    out.push(VERSION);
    write_number(out, a.incarnation);
    write_counted(out, a.groups.as_slice());
    write_counted(out, a.node.bytes());
    write_counted(out, a.description.as_slice());
    out.push(a.services.as_slice().len() as u8);
    write_services(out, &a.services);
}

fn write_command(out: &mut Payload, c: &Command)
    requires room { length out.old + fields_len (notices.Command c.now) ≤ 1500 }
    ensures text { out.new ≡ out.old ++ command_text c.now }
    ensures names { HasNames (notices.Command c.now) }
{
    out.push(VERSION);
    write_number(out, c.incarnation);
    write_number(out, c.request);
    out.push(c.action.number());
    write_counted(out, c.node.bytes());
    write_counted(out, c.service.bytes());
}

fn write_status(out: &mut Payload, s: &Status)
    requires room { length out.old + fields_len (notices.Status s.now) ≤ 1500 }
    ensures text { out.new ≡ out.old ++ status_text s.now }
    ensures names { HasNames (notices.Status s.now) }
{
    out.push(VERSION);
    write_number(out, s.incarnation);
    write_number(out, s.request);
    out.push(s.outcome.number());
    write_number(out, s.outcome.place());
    write_counted(out, s.node.bytes());
}

fn write_solicit(out: &mut Payload, s: &Solicit)
    requires room { length out.old + fields_len (notices.Solicit s.now) ≤ 1500 }
    ensures text { out.new ≡ out.old ++ solicit_text s.now }
    ensures names { HasNames (notices.Solicit s.now) }
{
    out.push(VERSION);
    write_number(out, s.id);
    write_counted(out, s.asker.bytes());
    write_counted(out, s.service.bytes());
}

fn write_response(out: &mut Payload, r: &Response)
    requires room { length out.old + fields_len (notices.Response r.now) ≤ 1500 }
    ensures text { out.new ≡ out.old ++ response_text r.now }
    ensures names { HasNames (notices.Response r.now) }
{
    out.push(VERSION);
    write_number(out, r.id);
    write_counted(out, r.node.bytes());
    write_counted(out, r.service.bytes());
    out.push(r.rating);
    out.push(r.timer);
}

fn kind(n: &Notice) -> NoticeKind
    ensures { result ≡ type_of n.now }
{
    match n {
        Notice::Announcement(_) => NoticeKind::Announcement,
        Notice::Command(_) => NoticeKind::Command,
        Notice::Status(_) => NoticeKind::Status,
        Notice::Solicit(_) => NoticeKind::Solicit,
        Notice::Response(_) => NoticeKind::Response,
    }
}

// The fields behind the first byte. The names are names by their type.
fn write_fields(out: &mut Payload, n: &Notice)
    requires suits { Suits n.now }
    requires room { length out.old + fields_len n.now ≤ 1500 }
    ensures text { out.new ≡ out.old ++ fields_text n.now }
    ensures names { HasNames n.now }
{
    match n {
        Notice::Announcement(a) => write_announcement(out, a),
        Notice::Command(c) => write_command(out, c),
        Notice::Status(s) => write_status(out, s),
        Notice::Solicit(s) => write_solicit(out, s),
        Notice::Response(r) => write_response(out, r),
    }
}

/// Writes the notice into a place with no byte in it: its text, with 0 in all bits that aren't kept, and zeros behind
/// it up to 46 bytes. Takes no memory. `notice_ok` tells whether it may be called.
pub fn write_notice(n: &Notice, out: &mut Payload)
    requires ok { CanBeWritten n.now }
    requires empty { out.old ≡ [] }
    ensures text { out.new ≡ padded (notice_text n.now) }
    // Its names are names by their type, so there is a text.
    ensures writable { IsWritable n.now }
{
    out.push(kind(n).bits() * 4);
    write_fields(out, n);
    write_padding(out);
}
