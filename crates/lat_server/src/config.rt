//! What a server is made of.

ghost use Rattle.std.specs.Prelude.{◌≡◌, [], ◌∷◌, ◌++◌, slice_get, OnOk, OnErr};
ghost use Rattle.std.specs.Option.{option_map};
ghost use Rattle.lat_server.specs.declared.config.Offer.{Offer};

use lat_base::{Addr, Memory, Name};
use lat_lines::Timing;
use std::alloc::Global;
use std::marker::Model;

/// A line offers a service to the requests of nodes.
#[derive(Clone, Copy)]
pub struct Offer {
    /// From 1 on.
    pub line: u8,
    pub service: Name,
}

/// A list of offers. Contracts see the list.
pub struct Offers {
    offers: Vec<Offer>,
}

impl Drop for Offers {
    fn drop(self) {
        let Self { offers } = self;
    }
}

impl Model for Offers {
    ghost use Rattle.std.specs.Prelude.{List};
    ghost use Rattle.lat_server.specs.declared.config.Offer.{Offer};

    ghost Value = { List Offer };

    ghost view = { λ a. a.offers.items };
}

impl Offers {
    /// No offer. It takes no memory.
    pub fn new(alloc: Global) -> Offers
        ensures { result ≡ [] }
    {
        Offers {
            offers: Vec::new(alloc),
        }
    }

    /// Adds an offer at the end, for which it may take memory. `Memory` where none is found; then nothing has changed.
    pub fn push(&mut self, offer: Offer) -> Result<(), Memory>
        ensures ok { OnOk result (self.new ≡ self.old ++ offer ∷ []) }
        ensures err { OnErr result (self.new ≡ self.old) }
    {
        self.offers.push(offer)?;
        Ok(())
    }

    /// The offers, first to last.
    pub fn as_slice(&self) -> &[Offer]
        ensures { result.now ≡ self.now }
    {
        self.offers.as_slice()
    }

    // The service of the offer at this place, counted from 0.
    pub(crate) fn service(&self, at: usize) -> Option<Name>
        ensures { result ≡ option_map (λ (o : Offer). o.service) (slice_get self.now at) }
    {
        let offer = self.offers.get(at)?;
        Some(offer.service)
    }
}

/// What a server is made of. Valid where it has 1 to 32 lines, each offer names one of them, no line is in two offers, the
/// timing is valid, and the id of its first circuit isn't 0.
pub struct ServerConfig {
    /// Its address.
    pub own: Addr,
    pub name: Name,
    /// How many lines it has.
    pub lines: u8,
    pub offers: Offers,
    /// The mask of the groups that it listens to: bit g mod 8 of byte g / 8 is that of group g.
    pub groups: [u8; 32],
    pub timing: Timing,
    /// Whether it tells a station at once that its RUN names no circuit that lives here. See "How a circuit ends" in
    /// docs/PROTOCOL.md.
    pub prompt: bool,
    /// The id of its first circuit, 1 to 65,535; the next ones follow it, 1 behind 65,535. See "Circuits" in
    /// docs/PROTOCOL.md.
    pub first: u16,
}

impl Drop for ServerConfig {
    fn drop(self) {
        let Self {
            own,
            name,
            lines,
            offers,
            groups,
            timing,
            prompt,
            first,
        } = self;
    }
}
