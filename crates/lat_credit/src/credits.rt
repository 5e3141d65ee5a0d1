//! The account of one session.

ghost use Rattle.std.specs.Prelude.{◌≡◌, suc, ◌+◌, ◌-◌, ◌<◌, ◌≤◌, nat_lt, nat_le, cond, is_ok, OnOk, OnErr};
ghost use Rattle.lat_credit.specs.Account.{Account, Keeps, due, none, given_more, heard_slot, released, spent, granted_more};

use std::marker::Model;

/// No credit is left for this slot.
#[derive(Clone, Copy)]
pub struct NoCredit;

/// More than 255 credits would be unused.
#[derive(Clone, Copy)]
pub struct TooMany;

/// The account of one session: what this end gives, and what was given to it. It stands for an account of totals, by the
/// relation `Keeps`. See "Items and credits" in docs/PROTOCOL.md.
#[derive(Clone, Copy)]
pub struct Credits {
    ceiling: u8,
    outstanding: u8,
    held: u8,
    unused: u8,
}

impl Model for Credits {
    ghost use Rattle.lat_credit.specs.Account.{Kept, Holds};

    ghost Value = { Kept };

    ghost view = { λ a. record {
      ceiling = a.ceiling;
      outstanding = a.outstanding;
      held = a.held;
      unused = a.unused;
    } };

    ghost invariant = { λ a. Holds a.ceiling a.outstanding a.held };

    ghost inverse = { λ v. record { ceiling = v.ceiling; outstanding = v.outstanding; held = v.held; unused = v.unused } };
}

impl Credits {
    /// A new account. At most `ceiling` credits, 1 to 15, are outstanding or bound by a held slot at any time.
    pub fn make(ceiling: u8) -> Credits
        requires { (1 ≤ ceiling) × (ceiling ≤ 15) }
        ensures value { result ≡ record {
          ceiling = ceiling;
          outstanding = 0;
          held = 0;
          unused = 0;
        } }
        ensures account { Keeps result none }
    {
        Credits {
            ceiling,
            outstanding: 0,
            held: 0,
            unused: 0,
        }
    }

    /// How many credits may be given now: the ceiling less those outstanding less the slots held.
    pub fn due(&self) -> u8
        ensures value { result ≡ self.now.ceiling - (self.now.outstanding + self.now.held) }
        ensures bound { self.now.outstanding + self.now.held + result ≡ self.now.ceiling }
        ensures account { (a : Account) → Keeps self.now a → result ≡ due self.now.ceiling a }
    {
        self.ceiling - (self.outstanding + self.held)
    }

    /// Gives all credits that are due, and tells how many.
    pub fn give(&mut self) -> u8
        ensures value { self.new ≡ record self.old { outstanding = self.old.outstanding + result } }
        ensures due { self.new.outstanding + self.new.held ≡ self.new.ceiling }
        ensures answer { (a : Account) → Keeps self.old a → result ≡ due self.old.ceiling a }
        ensures account { (a : Account) → Keeps self.old a → Keeps self.new (given_more a result) }
    {
        let due = self.due();
        self.outstanding += due;
        due
    }

    /// Counts a slot heard that costs a credit, and holds it where `keep`. Refused, with nothing changed, exactly where no
    /// credit is outstanding.
    pub fn slot_in(&mut self, keep: bool) -> Result<(), NoCredit>
        ensures value { is_ok result ≡ nat_lt 0 self.old.outstanding }
        ensures answer { (a : Account) → Keeps self.old a → is_ok result ≡ nat_lt a.heard a.given }
        ensures account { (a : Account) → Keeps self.old a →
            OnOk result (Keeps self.new (heard_slot a keep)) }
        ensures err { OnErr result (self.new ≡ self.old) }
        ensures after { OnOk result (self.new ≡ record self.old {
          outstanding = self.old.outstanding - 1;
          held = cond keep (suc self.old.held) self.old.held;
        }) }
    {
        if self.outstanding == 0 {
            return Err(NoCredit);
        }
        self.outstanding -= 1;
        self.held += u8::from(keep);
        Ok(())
    }

    /// Ends the holding of one slot, of which every item is now taken or dropped. One must be held.
    pub fn release(&mut self)
        requires { 0 < self.old.held }
        ensures value { self.new ≡ record self.old { held = self.old.held - 1 } }
        ensures account { (a : Account) → Keeps self.old a → Keeps self.new (released a) }
    {
        self.held -= 1;
    }

    /// Is a credit left that was granted to this end?
    pub fn has_unused(&self) -> bool
        ensures value { result ≡ nat_lt 0 self.now.unused }
        ensures answer { (a : Account) → Keeps self.now a → result ≡ nat_lt a.used a.granted }
    {
        self.unused > 0
    }

    /// Uses one credit, for a slot that costs one. Refused, with nothing changed, exactly where all those granted to this end
    /// are used.
    pub fn spend(&mut self) -> Result<(), NoCredit>
        ensures value { is_ok result ≡ nat_lt 0 self.old.unused }
        ensures answer { (a : Account) → Keeps self.old a → is_ok result ≡ nat_lt a.used a.granted }
        ensures account { (a : Account) → Keeps self.old a →
            OnOk result (Keeps self.new (spent a)) }
        ensures err { OnErr result (self.new ≡ self.old) }
        ensures after { OnOk result (self.new ≡ record self.old { unused = self.old.unused - 1 }) }
    {
        self.unused = self.unused.checked_sub(1).ok_or(NoCredit)?;
        Ok(())
    }

    /// Adds the credits that a slot grants to this end. Refused, with nothing changed, exactly where more than 255 would be
    /// unused.
    pub fn heard(&mut self, n: u8) -> Result<(), TooMany>
        ensures value { is_ok result ≡ nat_le (self.old.unused + n) 255 }
        ensures answer { (a : Account) → Keeps self.old a →
            is_ok result ≡ nat_le (a.granted + n) (a.used + 255) }
        ensures account { (a : Account) → Keeps self.old a →
            OnOk result (Keeps self.new (granted_more a n)) }
        ensures err { OnErr result (self.new ≡ self.old) }
        ensures after { OnOk result (self.new ≡ record self.old { unused = self.old.unused + n }) }
    {
        self.unused = self.unused.checked_add(n).ok_or(TooMany)?;
        Ok(())
    }
}
