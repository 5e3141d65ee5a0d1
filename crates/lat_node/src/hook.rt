//! Rules of rating: a closure, and the lines that are left.

ghost use Rattle.std.specs.Prelude.{◌≡◌, ◌<◌, ◌≤◌, ℕ};
ghost use Rattle.lat_node.specs.Rules.{TellsFullness, HookFact};

/// A node's rule of rating: from the place of a service, counted from 0, the number of lines used and the number of all lines,
/// both 0 to 65,535, to a rating of 0 to 255. It answers 0 exactly where all are used, whichever the service. That is known of
/// the rule, and tested nowhere at run time.
pub trait RatingRule: Drop {
    // The ratings that it may answer for the service at a place where so many of so many lines are used.
    ghost may: { Self → ℕ → ℕ → ℕ → ℕ → Type 0 };

    // What must be known of a rule. No call changes a rule, so whoever knows it once knows it for good.
    ghost fact: { Self → Type 0 };

    /// The rule's answer for the service at this place, one of 32, where `used` of `max` are used. `used` is at most `max`. It
    /// takes no memory.
    fn rate(&self, place: usize, used: u16, max: u16) -> u8
        requires fact { fact self.now }
        requires place { place < 32 }
        requires within { used ≤ max }
        ensures answer { may self.now place used max result };

    // Each answer is 0 exactly where all are used.
    ghost full: { (rule : Self) → fact rule → (place : ℕ) → TellsFullness (may rule place) };
}

/// A closure as a rule of rating.
#[derive(Drop)]
pub struct RateHook<F> {
    rule: F,
}

impl<F: Fn(usize, u16, u16) -> u8> RateHook<F> {
    /// Keeps a closure that may be called for each of 32 places wherever `used` is at most `max`, and there answers 0 exactly
    /// where they are equal.
    pub fn new(rule: F) -> RateHook<F>
        requires { HookFact F.pre F.post rule }
        ensures kept { result.rule ≡ rule }
        ensures fact { HookFact F.pre F.post result.rule }
    {
        RateHook { rule }
    }
}

impl<F: Fn(usize, u16, u16) -> u8 + Drop> RatingRule for RateHook<F> {
    ghost use Rattle.lat_node.specs.Rules.{HookFact};

    ghost may = { λ hook. F.post hook.rule };

    ghost fact = { λ hook. HookFact F.pre F.post hook.rule };

    ghost full = { λ hook known. known.full };

    fn rate(&self, place: usize, used: u16, max: u16) -> u8 {
        (self.rule)(place, used, max)
    }
}

/// The rule that rates each service by the lines that are left: the least of 255 and their number.
#[derive(Drop)]
pub struct FreeLines;

impl RatingRule for FreeLines {
    ghost use Rattle.std.specs.Prelude.{◌≡◌, ◌-◌, min};
    ghost use Rattle.std.proofs.Common.{rules};

    ghost may = { λ rule place used max rating. rating ≡ min (max - used) 255 };

    ghost fact = { λ rule. Unit {0} };

    ghost full = { Prim.search rules };

    fn rate(&self, _place: usize, used: u16, max: u16) -> u8 {
        (max - used).min(255) as u8
    }
}
