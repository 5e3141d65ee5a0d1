//! Steady rules of rating: a closure that is one, and a box of whichever.

ghost use Rattle.std.specs.Prelude.{◌≡◌, ◌≤◌, ℕ};
ghost use Rattle.lat_node.specs.Rules.{TellsFullness};
ghost use Rattle.lat_tariff.specs.Rules.{IsSteady, SteadyFact};

/// A rule of rating that is steady: from the number of lines used and the number of all lines, both 0 to 65,535, to a rating
/// of 0 to 255. It answers 0 exactly where all are used, and no answer rises as lines fill. Both are known of the rule, and
/// tested nowhere at run time.
pub trait SteadyRule: Drop {
    // The ratings that it may answer where so many of so many lines are used.
    ghost may: { Self → ℕ → ℕ → ℕ → Type 0 };

    // What must be known of a rule. No call changes a rule, so whoever knows it once knows it for good.
    ghost fact: { Self → Type 0 };

    /// The rule's answer where `used` of `max` are used. `used` is at most `max`. It takes no memory.
    fn rate(&self, used: u16, max: u16) -> u8
        requires fact { fact self.now }
        requires within { used ≤ max }
        ensures answer { may self.now used max result };

    // Each answer is 0 exactly where all are used.
    ghost full: { (rule : Self) → fact rule → TellsFullness (may rule) };

    // No answer where more are used is above one where fewer are.
    ghost steady: { (rule : Self) → fact rule → IsSteady (may rule) };
}

/// A closure as a steady rule of rating.
#[derive(Drop)]
pub struct SteadyHook<F> {
    rule: F,
}

impl<F: Fn(u16, u16) -> u8> SteadyHook<F> {
    /// Keeps a closure that may be called wherever `used` is at most `max`, there answers 0 exactly where they are equal, and
    /// answers nothing higher where more are used.
    pub fn new(rule: F) -> SteadyHook<F>
        requires { SteadyFact F.pre F.post rule }
        ensures kept { result.rule ≡ rule }
        ensures fact { SteadyFact F.pre F.post result.rule }
    {
        SteadyHook { rule }
    }
}

impl<F: Fn(u16, u16) -> u8 + Drop> SteadyRule for SteadyHook<F> {
    ghost use Rattle.lat_tariff.specs.Rules.{SteadyFact};

    ghost may = { λ hook. F.post hook.rule };

    ghost fact = { λ hook. SteadyFact F.pre F.post hook.rule };

    ghost full = { λ hook known. known.full };

    ghost steady = { λ hook known. known.steady };

    fn rate(&self, used: u16, max: u16) -> u8 {
        (self.rule)(used, max)
    }
}

impl SteadyRule for Box<dyn SteadyRule + Send> {
    ghost use Rattle.lat_tariff.specs.Rules.{IsKnown};

    ghost may = { λ b. (SteadyRule-box b).may b.value };

    ghost fact = { λ b. IsKnown ((SteadyRule-box b).fact b.value) ((SteadyRule-box b).may b.value) };

    ghost full = { λ b known. known.full };

    ghost steady = { λ b known. known.steady };

    fn rate(&self, used: u16, max: u16) -> u8 {
        (**self).rate(used, max)
    }
}
