//! What stays of callers in memory who were hung up.

ghost use Rattle.std.specs.Prelude.{◌≡◌, [], ◌∷◌, ◌++◌, map, true, IfSome};

use crate::memory_caller::MemConnection;
use crate::visit::Visit;
use lat_base::Bytes;
use lat_tale::Tale;
use std::alloc::Global;
use std::marker::Model;

/// Those who were hung up, the first one first. Contracts see their visits. What was written to them is told as long as memory was
/// found for it.
#[derive(Drop)]
pub struct MemPast {
    over: Tale<Visit>,
    written: Vec<Bytes>,
    tells: bool,
}

impl Model for MemPast {
    ghost use Rattle.std.specs.Prelude.{◌≡◌, List, map, true};
    ghost use Rattle.lat_outside.specs.Visits.{VisitView};

    ghost Value = { List VisitView };

    ghost view = { λ a. a.over.items };

    ghost invariant = { λ a. a.tells ≡ true → a.written.items ≡ map (λ v. v.written) a.over.items };
}

// Keeps what was written to one more, where memory is found.
fn kept(alloc: Global, all: &mut Vec<Bytes>, written: &[u8]) -> bool
    ensures { result ≡ true → all.new.items ≡ all.old.items ++ written.now ∷ [] }
{
    match Bytes::copy(alloc, written) {
        Ok(written) => all.push(written).is_ok(),
        Err(_) => false,
    }
}

impl MemPast {
    /// Nobody so far.
    pub fn new(alloc: Global) -> MemPast
        ensures { result ≡ [] }
    {
        MemPast {
            over: Tale::new(),
            written: Vec::new(alloc),
            tells: true,
        }
    }

    /// This one more.
    pub fn push(&mut self, alloc: Global, connection: MemConnection<'_>)
        ensures { self.new ≡ self.old ++ connection.entry.visit ∷ [] }
    {
        self.tells = self.tells && kept(alloc, &mut self.written, connection.written());
        let visit = connection.into_visit();
        self.over = self.over.and(&visit);
    }

    /// What was written to each of them. `None` where no memory was found for it.
    pub fn written(&self) -> Option<&[Bytes]>
        ensures { IfSome result (λ written. written.now ≡ map (λ v. v.written) self.now) }
    {
        if self.tells {
            Some(self.written.as_slice())
        } else {
            None
        }
    }
}
