//! What an opener of ports was asked for.

ghost use Rattle.std.specs.Prelude.{◌≡◌};
ghost use Rattle.lat_outside.specs.Openings.{no_openings, with_carrier, with_line};

use lat_base::Addr;
use lat_tale::Tale;
use std::marker::Model;

/// A carrier that was asked for. Contracts also see its peers, who exist in the proofs alone.
#[derive(Drop)]
pub struct CarrierAsked {
    own: Addr,
    port: u16,
    peers: Tale<u16>,
}

impl Model for CarrierAsked {
    ghost use Rattle.lat_outside.specs.Openings.{CarrierView};

    ghost Value = { CarrierView };

    ghost view = { λ a. record {
      own = a.own;
      port = a.port;
      peers = a.peers.items;
    } };
}

/// What an opener of ports was asked for, in order. It exists in the proofs alone.
#[derive(Drop)]
pub struct Openings {
    carriers: Tale<CarrierAsked>,
    lines: Tale<Option<u16>>,
}

impl Model for Openings {
    ghost use Rattle.lat_outside.specs.Openings.{OpeningsView};

    ghost Value = { OpeningsView };

    ghost view = { λ a. record {
      carriers = a.carriers.items;
      lines = a.lines.items;
    } };
}

impl Openings {
    /// Nothing was asked for.
    pub fn new() -> Openings
        ensures { result ≡ no_openings }
    {
        Openings {
            carriers: Tale::new(),
            lines: Tale::new(),
        }
    }

    /// A carrier was asked for.
    pub fn ask_carrier(&mut self, own: Addr, port: u16, peers: &[u16])
        ensures { self.new ≡ with_carrier self.old own port peers.now }
    {
        let mut told = Tale::new();
        told.push_all(peers);
        let asked = CarrierAsked {
            own,
            port,
            peers: told,
        };
        self.carriers = self.carriers.and(&asked);
    }

    /// A line was asked for that listens at this port, if at any.
    pub fn ask_line(&mut self, port: Option<u16>)
        ensures { self.new ≡ with_line self.old port }
    {
        self.lines = self.lines.and(&port);
    }
}
