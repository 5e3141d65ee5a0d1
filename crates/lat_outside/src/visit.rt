//! One caller's visit.

ghost use Rattle.std.specs.Prelude.{◌≡◌, ◌++◌, option_map};
ghost use Rattle.lat_outside.specs.Visits.{fresh_visit};

use lat_tale::Tale;
use std::marker::Model;

/// What is known of a caller.
#[derive(Clone, Copy, Debug, PartialEq, Eq)]
pub enum Standing {
    /// It stays, as far as is known.
    Stays,
    /// It gives no more than what wasn't read yet.
    Leaves,
    /// It gives no more.
    Ended,
    /// Its connection failed: nothing can be read or written any more.
    Failed,
}

/// One caller's visit: at which port it was dialled, if it was, and what is known of it. Contracts also see what it gave and what
/// was written to it, which exist in the proofs alone.
#[derive(Drop)]
pub struct Visit {
    dialled: Option<u16>,
    given: Tale<u8>,
    written: Tale<u8>,
    standing: Standing,
}

impl Model for Visit {
    ghost use Rattle.lat_outside.specs.Visits.{VisitView};

    ghost Value = { VisitView };

    ghost view = { λ a. record {
      dialled = a.dialled;
      given = a.given.items;
      written = a.written.items;
      standing = a.standing;
    } };
}

impl Visit {
    /// The visit of a caller who has just come: to the line's port, or dialled at this one.
    pub fn new(dialled: Option<u16>) -> Visit
        ensures { result ≡ fresh_visit dialled }
    {
        Visit {
            dialled,
            given: Tale::new(),
            written: Tale::new(),
            standing: Standing::Stays,
        }
    }

    /// The visit of which so much is known.
    pub(crate) fn of(
        dialled: Option<u16>,
        given: Tale<u8>,
        written: Tale<u8>,
        standing: Standing,
    ) -> Visit
        ensures { result ≡ record { dialled = dialled; given = given.items; written = written.items; standing = standing } }
    {
        Visit {
            dialled,
            given,
            written,
            standing,
        }
    }

    /// What is known of the caller.
    pub fn standing(&self) -> Standing
        ensures { result ≡ self.now.standing }
    {
        self.standing
    }

    /// It is known to be so.
    pub fn set_standing(&mut self, standing: Standing)
        ensures { self.new ≡ record self.old { standing = standing } }
    {
        self.standing = standing;
    }

    /// It gave these bytes.
    pub fn gave(&mut self, bytes: &[u8])
        ensures { self.new ≡ record self.old { given = self.old.given ++ bytes.now } }
    {
        self.given.push_all(bytes);
    }

    /// These bytes were written to it.
    pub fn wrote(&mut self, bytes: &[u8])
        ensures { self.new ≡ record self.old { written = self.old.written ++ bytes.now } }
    {
        self.written.push_all(bytes);
    }
}
