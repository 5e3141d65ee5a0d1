//! Writing the services of an announcement.

ghost use Rattle.std.specs.Prelude.{◌≡◌, ◌+◌, ◌≤◌, ◌++◌, length};
ghost use Rattle.std.specs.List.{AllByRecursion, flat_map, sum_by};
ghost use Rattle.lat_notices.specs.Services.{HasName, HasShortDescription, service_text};
ghost use Rattle.lat_notices.specs.Writing.{service_len};

use crate::services::{Service, Services};
use lat_base::Payload;
use lat_fields::write_counted;

fn write_service(out: &mut Payload, service: &Service)
    requires short { HasShortDescription service.now }
    requires room { length out.old + service_len service.now ≤ 1500 }
    ensures text { out.new ≡ out.old ++ service_text service.now }
    ensures name { HasName service.now }
{
    out.push(service.rating);
    write_counted(out, service.name.bytes());
    write_counted(out, service.description.as_slice());
}

/// Writes services, one behind another. Their names are names by their type.
pub fn write_services(out: &mut Payload, services: &Services)
    requires short { AllByRecursion HasShortDescription services.now }
    requires room { length out.old + sum_by service_len services.now ≤ 1500 }
    ensures text { out.new ≡ out.old ++ flat_map service_text services.now }
    ensures names { AllByRecursion HasName services.now }
{
    for service in services.as_slice() {
        write_service(out, service);
    }
}
