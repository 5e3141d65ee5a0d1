//! What is kept of the services that a node announced.

ghost use Rattle.std.specs.Prelude.{◌≡◌, length, map, option_map, slice_get, IfOk};
ghost use Rattle.lat_dir.specs.Words.{offer_of, rating_in};
ghost use Rattle.lat_dir.specs.Looks.{service_told};

use lat_base::{Memory, Name, ServiceLook};
use lat_notices::Service;
use std::alloc::Global;
use std::marker::Model;

/// A service with its rating. Its name is in upper case.
#[derive(Clone, Copy)]
pub struct Offer {
    pub service: Name,
    pub rating: u8,
}

/// The services of one announcement, in its order. Contracts see the list.
pub struct Offers {
    offers: Vec<Offer>,
}

impl Drop for Offers {
    fn drop(self) {
        let Self { offers } = self;
    }
}

impl Model for Offers {
    ghost use Rattle.std.specs.Prelude.{List};
    ghost use Rattle.lat_dir.specs.declared.offers.Offer.{Offer};

    ghost Value = { List Offer };

    ghost view = { λ a. a.offers.items };
}

fn offer_of(service: &Service) -> Offer
    ensures { result ≡ offer_of service.now }
{
    Offer {
        service: service.name.folded(),
        rating: service.rating,
    }
}

impl Offers {
    /// What is kept of these services. Takes memory for the list.
    pub fn of(alloc: Global, services: &[Service]) -> Result<Offers, Memory>
        ensures { IfOk result (λ offers. offers ≡ map offer_of services.now) }
    {
        let mut offers = Vec::with_capacity(alloc, services.len())?;
        for service in services {
            offers.push(offer_of(service))?;
        }
        Ok(Offers { offers })
    }

    /// The rating of the first entry of a service, whose name is given in upper case; 0 where there is none.
    pub fn rating(&self, service: &Name) -> u8
        ensures { result ≡ rating_in service.now self.now }
    {
        self.offers
            .iter()
            .find(|offer| offer.service == *service)
            .map_or(0, |offer| offer.rating)
    }

    /// How many there are.
    pub fn len(&self) -> usize
        ensures { result ≡ length self.now }
    {
        self.offers.len()
    }

    /// What is told of the service at this place, counted from 0.
    pub fn look(&self, at: usize) -> Option<ServiceLook>
        ensures { result ≡ option_map service_told (slice_get self.now at) }
    {
        let offer = self.offers.get(at)?;
        Some(ServiceLook {
            name: offer.service,
            rating: offer.rating,
        })
    }
}
