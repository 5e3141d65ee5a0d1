//! Keys of requests.

ghost use Rattle.std.specs.Prelude.{◌≡◌};

use lat_base::Name;
use std::hash::{Hash, Hasher};

/// The key of a request: the node that asks, its incarnation, and the number that it gave the request. Two keys are
/// one where the names agree without regard to case and both numbers agree; `==` and the hash say so too.
#[derive(Clone, Copy)]
pub struct Key {
    pub node: Name,
    pub incarnation: u16,
    pub request: u16,
}

impl PartialEq for Key {
    ghost use Rattle.std.specs.Prelude.{◌==◌};
    ghost use Rattle.std.proofs.Common.{rules};
    ghost use Rattle.std.specs.Cmp.Rules.{comparing};
    ghost use Rattle.std.specs.Cmp.Lexicographic.{pointwise};
    ghost use Rattle.std.specs.Ordering.{on, eq_of_both};
    ghost use Rattle.lat_base.specs.Names.{folded};

    ghost eq = { eq_of_both (on (λ k. folded k.node) (pointwise ◌==◌)) (eq_of_both (on (λ k. k.incarnation) ◌==◌) (on (λ k. k.request) ◌==◌)) };

    ghost laws = { Prim.search (comparing, rules) };

    fn eq(&self, other: &Key) -> bool {
        self.node.folded() == other.node.folded()
            && self.incarnation == other.incarnation
            && self.request == other.request
    }
}

impl Eq for Key {
    ghost use Rattle.std.proofs.Common.{rules};
    ghost use Rattle.std.specs.Cmp.Rules.{comparing};

    ghost laws = { Prim.search (comparing, rules) };
}

impl Hash for Key {
    ghost use Rattle.std.specs.Prelude.{[], ◌∷◌, ◌++◌};
    ghost use Rattle.std.proofs.Common.{rules};
    ghost use Rattle.std.specs.Cmp.Rules.{hashing};
    ghost use Rattle.std.specs.Hash as fed;
    ghost use Rattle.lat_base.specs.Names.{folded};
    ghost use Rattle.lat_queue.specs.KeyHash.{key_writes, same_writes};

    ghost hash_input = { key_writes };

    ghost respects_eq = { same_writes };

    fn hash<H: Hasher>(&self, state: &mut H) {
        state.write(self.node.folded().bytes());
        state.write_u16(self.incarnation);
        state.write_u16(self.request);
    }
}
