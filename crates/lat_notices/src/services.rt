//! The services that a node announces.

ghost use Rattle.std.specs.Prelude.{◌≡◌, [], ◌∷◌, ◌++◌, OnOk, OnErr};

use lat_base::{Bytes, Memory, Name};
use std::alloc::Global;
use std::marker::Model;

/// A service of an announcement.
pub struct Service {
    /// How well the node can take a session, 0 for not at all.
    pub rating: u8,
    pub name: Name,
    pub description: Bytes,
}

impl Drop for Service {
    fn drop(self) {
        let Self {
            rating,
            name,
            description,
        } = self;
    }
}

/// A list of services. Contracts see the list.
pub struct Services {
    services: Vec<Service>,
}

impl Drop for Services {
    fn drop(self) {
        let Self { services } = self;
    }
}

impl Model for Services {
    ghost use Rattle.std.specs.Prelude.{List};
    ghost use Rattle.lat_notices.specs.declared.services.Service.{Service};

    ghost Value = { List Service };

    ghost view = { λ a. a.services.items };
}

impl Services {
    /// No service.
    pub fn new(alloc: Global) -> Services
        ensures { result ≡ [] }
    {
        Services {
            services: Vec::new(alloc),
        }
    }

    /// Adds a service at the end. Takes memory for it; without it nothing has changed.
    pub fn push(&mut self, service: Service) -> Result<(), Memory>
        ensures ok { OnOk result (self.new ≡ self.old ++ service ∷ []) }
        ensures err { OnErr result (self.new ≡ self.old) }
    {
        self.services.push(service)?;
        Ok(())
    }

    /// The services, first to last.
    pub fn as_slice(&self) -> &[Service]
        ensures { result.now ≡ self.now }
    {
        self.services.as_slice()
    }
}
