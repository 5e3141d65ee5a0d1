//! Which notices have a text.

ghost use Rattle.std.specs.Prelude.{◌≡◌, ◌↔◌, ◌<◌, ◌≤◌, length, IsTrue};
ghost use Rattle.std.specs.List.{AllByRecursion, flat_map};
ghost use Rattle.lat_base.specs.Names.{IsName};
ghost use Rattle.lat_notices.specs.Outcomes.{IsOutcome};
ghost use Rattle.lat_notices.specs.Services.{HasName, HasShortDescription, service_text};
ghost use Rattle.lat_notices.specs.Texts.{HasNames, IsAnnouncement, Suits, fields_text, announcement_text, IsWritable};
ghost use Rattle.lat_notices.specs.Writing.{CanBeWritten};

use crate::fields::MASK_BYTES;
use crate::notice::{Announcement, Notice, Outcome};
use crate::services::{Service, Services};
use lat_base::{Kept, PAYLOAD_BYTES};

// A counted text of so many bytes has at most 255.
const COUNTED: usize = 256;

fn service_ok(service: &Service) -> bool
    ensures { IsTrue result ↔ HasShortDescription service.now }
{
    service.description.as_slice().len() < COUNTED
}

fn services_ok(services: &Services) -> bool
    ensures { IsTrue result ↔ AllByRecursion HasShortDescription services.now }
{
    for service in services.as_slice() {
        if !service_ok(service) {
            return false;
        }
    }
    true
}

fn announcement_ok(a: &Announcement) -> bool
    ensures { IsTrue result ↔ IsAnnouncement a.now }
{
    a.timer > 0
        && a.groups.as_slice().len() <= MASK_BYTES
        && a.description.as_slice().len() < COUNTED
        && a.services.as_slice().len() < COUNTED
        && services_ok(&a.services)
}

fn outcome_ok(outcome: Outcome) -> bool
    ensures { IsTrue result ↔ IsOutcome outcome }
{
    match outcome {
        Outcome::Kept(Kept::Waiting(place)) => place > 0,
        _ => true,
    }
}

fn fields_ok(n: &Notice) -> bool
    ensures { IsTrue result ↔ Suits n.now }
{
    match n {
        Notice::Announcement(a) => announcement_ok(a),
        Notice::Command(_) => true,
        Notice::Status(s) => outcome_ok(s.outcome),
        Notice::Solicit(_) => true,
        Notice::Response(r) => r.timer > 0,
    }
}

fn service_len(service: &Service) -> usize
    requires { HasShortDescription service.now }
    ensures len { result ≡ length (service_text service.now) }
    ensures most { result ≤ 274 }
    ensures name { HasName service.now }
{
    3 + service.name.bytes().len() + service.description.as_slice().len()
}

fn services_len(services: &Services) -> usize
    requires short { AllByRecursion HasShortDescription services.now }
    requires count { length services.now < 256 }
    ensures len { result ≡ length (flat_map service_text services.now) }
    ensures most { result ≤ 69870 }
    ensures names { AllByRecursion HasName services.now }
{
    let mut len = 0;
    for service in services.as_slice() {
        len += service_len(service);
    }
    len
}

fn announcement_len(a: &Announcement) -> usize
    requires { IsAnnouncement a.now }
    ensures len { result ≡ length (announcement_text a.now) }
    ensures most { result ≤ 70500 }
    ensures node { IsName a.now.node }
    ensures services { AllByRecursion HasName a.now.services }
{
    let lists = a.groups.as_slice().len() + a.node.bytes().len() + a.description.as_slice().len();
    8 + lists + services_len(&a.services)
}

// How many bytes the fields behind the first byte have. The names are names by their type.
fn fields_len(n: &Notice) -> usize
    requires { Suits n.now }
    ensures len { result ≡ length (fields_text n.now) }
    ensures most { result ≤ 70500 }
    ensures names { HasNames n.now }
{
    match n {
        Notice::Announcement(a) => announcement_len(a),
        Notice::Command(c) => 8 + c.node.bytes().len() + c.service.bytes().len(),
        Notice::Status(s) => 9 + s.node.bytes().len(),
        Notice::Solicit(s) => 5 + s.asker.bytes().len() + s.service.bytes().len(),
        Notice::Response(r) => 7 + r.node.bytes().len() + r.service.bytes().len(),
    }
}

/// Whether there is a text of the notice of at most 1,500 bytes, so that it can be written.
pub fn notice_ok(n: &Notice) -> bool
    ensures writable { IsTrue result ↔ IsWritable n.now }
    ensures written { IsTrue result ↔ CanBeWritten n.now }
{
    fields_ok(n) && 1 + fields_len(n) <= PAYLOAD_BYTES
}
