//! A turn, as the proofs remember it.

ghost use Rattle.std.specs.Prelude.{◌≡◌};

use lat_base::Item;
use lat_mind::{Fact, Look};
use lat_tale::Tale;
use std::marker::Model;

/// A turn of a worker. Contracts also see the bytes or the items that came of it, which exist in the proofs alone.
#[derive(Drop)]
pub struct Told {
    look: Look,
    fact: Fact,
    bytes: Tale<u8>,
    items: Tale<Item>,
    drawn: u64,
}

impl Model for Told {
    ghost use Rattle.lat_mind.specs.Runs.{Turn};

    ghost Value = { Turn };

    ghost view = { λ a. record {
      look = a.look;
      fact = a.fact;
      bytes = a.bytes.items;
      items = a.items.items;
      drawn = a.drawn;
    } };
}

impl Told {
    /// The turn at this look, of which this fact came, with these bytes and items.
    pub fn new(look: &Look, fact: Fact, bytes: &[u8], items: &[Item], drawn: u64) -> Told
        ensures { result ≡ record {
          look = look.now;
          fact = fact;
          bytes = bytes.now;
          items = items.now;
          drawn = drawn;
        } }
    {
        let mut given = Tale::new();
        given.push_all(bytes);
        let mut taken = Tale::new();
        taken.push_all(items);
        Told {
            look: *look,
            fact,
            bytes: given,
            items: taken,
            drawn,
        }
    }
}
