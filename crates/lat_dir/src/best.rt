//! The choice between nodes that offer one service.

ghost use Rattle.std.specs.Prelude.{◌≡◌};
ghost use Rattle.lat_machines.specs.values.Names.{folded, is_before};
ghost use Rattle.lat_machines.specs.server.Directory.{beats};
ghost use Rattle.lat_dir.specs.Words.{best_shown, better_of};

use lat_base::{Addr, Name};

/// The node that was chosen for a service.
#[derive(Clone, Copy)]
pub struct Best {
    /// Its address.
    pub from: Addr,
    /// Its name, as it announced it.
    pub node: Name,
    /// How well it can take a session, above 0.
    pub rating: u8,
}

// Whether one name comes before another in byte order, both in upper case.
fn is_before(a: &Name, b: &Name) -> bool
    ensures { result ≡ is_before (folded a.now) (folded b.now) }
{
    a.folded().bytes() < b.folded().bytes()
}

impl Best {
    // Whether it has the higher rating, or the same one and the name that comes first.
    fn beats(&self, other: &Best) -> bool
        ensures { result ≡ beats (best_shown self.now) (best_shown other.now) }
    {
        self.rating > other.rating
            || self.rating == other.rating && is_before(&self.node, &other.node)
    }

    /// The better one of itself and what was found.
    pub fn or(self, found: Option<Best>) -> Best
        ensures { result ≡ better_of self found }
    {
        match found {
            Some(other) if other.beats(&self) => other,
            _ => self,
        }
    }
}
