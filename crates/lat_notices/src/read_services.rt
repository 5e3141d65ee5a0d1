//! Reading the services of an announcement.

ghost use Rattle.std.specs.Prelude.{◌≡◌, ◌≤◌, length, drop, IfOk};
ghost use Rattle.lat_fields.specs.Reading.{Gives};
ghost use Rattle.lat_notices.specs.ServicesReading.{service_at, services_at};

use crate::services::{Service, Services};
use lat_base::Field;
use lat_fields::{LayoutFault, byte_of, copy_of, name_of};
use std::alloc::Global;

#[tactic(auto, unfolding(crate::specs::ServicesReading::service_at))]
fn service_of(alloc: Global, bytes: &[u8], place: usize) -> Result<(Service, usize), LayoutFault>
    requires { (place ≤ length bytes.now) × (length bytes.now ≤ 1500) }
    ensures gives { Gives (λ x. (x.0, x.1, drop x.1 bytes.now)) result (service_at place
        (drop place bytes.now)) }
    ensures within { IfOk result (λ x. x.1 ≤ length bytes.now) }
{
    let (rating, at) = byte_of(Field::Rating, place, bytes, place)?;
    let (name, at) = name_of(Field::Service, bytes, at)?;
    let (description, behind) = copy_of(alloc, Field::ServiceDescription, bytes, at)?;
    let service = Service {
        rating,
        name,
        description,
    };
    Ok((service, behind))
}

/// As many services as counted, and the place behind them. Takes memory for the list.
#[tactic(auto, unfolding(crate::specs::ServicesReading::services_at))]
pub fn services_of(
    alloc: Global,
    count: u8,
    bytes: &[u8],
    place: usize,
) -> Result<(Services, usize), LayoutFault>
    requires { (place ≤ length bytes.now) × (length bytes.now ≤ 1500) }
    ensures gives { Gives (λ x. (
      x.0,
      x.1,
      drop x.1 bytes.now,
    )) result (services_at count place (drop place bytes.now)) }
    ensures within { IfOk result (λ x. x.1 ≤ length bytes.now) }
{
    let mut services = Services::new(alloc);
    let mut at = place;
    for _ in 0..count {
        let (service, behind) = service_of(alloc, bytes, at)?;
        services.push(service)?;
        at = behind;
    }
    Ok((services, at))
}
