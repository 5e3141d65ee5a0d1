//! What is kept of sessions in place of all their slots.

ghost use Rattle.std.specs.Prelude.{◌≡◌, Some, None, option_map, if◌then◌else◌, IfOk};
ghost use Rattle.lat_captures.specs.Sums.{
  no_sums,
  credited,
  opening,
  pays,
  sums_of,
  slave_takes,
  master_takes,
  takes,
  takes_all,
  hears,
  slave_forms,
  master_forms,
  forms,
  FormsAll,
};

use crate::recent::SentMessage;
use crate::slot::{OwnedSlot, SlotFacts};
use lat_base::Memory;
use std::alloc::Global;

/// A session as one end spends for it.
#[derive(Clone, Copy)]
pub struct Account {
    /// The place of its reply, 0 for none.
    pub session: u128,
    /// The credits that the other end gave it, as far as this end has acknowledged them.
    pub given: u128,
    /// The credits that this end spent for it.
    pub spent: u128,
}

const NO_ACCOUNT: Account = Account {
    session: 0,
    given: 0,
    spent: 0,
};

/// Under each id the session that a slot with it would belong to.
pub struct Accounts {
    /// Under a source of the master, the credits of the last ask that the slave has acknowledged.
    pub asked: [Option<u8>; 256],
    /// Under a source of the slave, the session of its last reply.
    pub slave: [Account; 256],
    /// Under a destination of the master, the session of the last reply that the master has acknowledged.
    pub master: [Account; 256],
}

impl Drop for Accounts {
    fn drop(self) {
        let Self {
            asked,
            slave,
            master,
        } = self;
    }
}

// The session is given what a slot of it gives.
fn credit(account: &mut Account, owned: &OwnedSlot)
    ensures { account.new ≡ credited account.old owned.now }
{
    if owned.session == account.session {
        account.given = account.given.saturating_add(u128::from(owned.slot.credits));
    }
}

// The session spends the cost, where it has the credits; else nothing has changed.
fn pay(account: &mut Account, cost: u8) -> bool
    ensures { pays account.old cost ≡ (if result then Some account.new else None) }
{
    if cost == 0 {
        return true;
    }
    let left = account.given.saturating_sub(account.spent);
    if account.session == 0 || u128::from(cost) > left {
        return false;
    }
    account.spent += u128::from(cost);
    true
}

// The account of a reply at this place, where an ask with these credits stands before it.
fn opening(place: u128, asked: Option<u8>) -> Account
    ensures { result ≡ opening place asked }
{
    match asked {
        Some(credits) => Account {
            session: place,
            given: u128::from(credits),
            spent: 0,
        },
        None => NO_ACCOUNT,
    }
}

impl Accounts {
    /// No session yet.
    pub fn new() -> Accounts
        ensures { sums_of result ≡ no_sums }
    {
        Accounts {
            asked: [None; 256],
            slave: [NO_ACCOUNT; 256],
            master: [NO_ACCOUNT; 256],
        }
    }

    // The slave acknowledges a slot of the master.
    fn slave_takes(&mut self, owned: &OwnedSlot)
        ensures { sums_of self.new ≡ slave_takes (sums_of self.old) owned.now }
    {
        if owned.slot.asks {
            self.asked[owned.slot.from as usize] = Some(owned.slot.credits);
        } else {
            credit(&mut self.slave[owned.slot.to as usize], owned);
        }
    }

    // The master acknowledges a slot of the slave.
    fn master_takes(&mut self, owned: &OwnedSlot)
        ensures { sums_of self.new ≡ master_takes (sums_of self.old) owned.now }
    {
        let account = &mut self.master[owned.slot.from as usize];
        if owned.slot.replies {
            *account = Account {
                session: owned.session,
                given: u128::from(owned.slot.credits),
                spent: 0,
            };
        } else {
            credit(account, owned);
        }
    }

    // An end acknowledges a slot of the other.
    fn takes(&mut self, by_master: bool, owned: &OwnedSlot)
        ensures { sums_of self.new ≡ takes by_master (sums_of self.old) owned.now }
    {
        if by_master {
            self.master_takes(owned);
        } else {
            self.slave_takes(owned);
        }
    }

    // An end acknowledges slots of the other.
    fn takes_all(&mut self, by_master: bool, slots: &[OwnedSlot])
        ensures { sums_of self.new ≡ takes_all by_master (sums_of self.old) slots.now }
    {
        for owned in slots {
            self.takes(by_master, owned);
        }
    }

    /// An end acknowledges messages of the other.
    pub fn hears(&mut self, by_master: bool, messages: &[SentMessage])
        ensures { sums_of self.new ≡ hears by_master (sums_of self.old) messages.now }
    {
        for message in messages {
            self.takes_all(by_master, message.slots());
        }
    }

    // The slave forms a slot, which is that of this place. None where its session hasn't the credit.
    fn slave_forms(&mut self, place: u128, slot: &SlotFacts) -> Option<OwnedSlot>
        ensures { slave_forms place (sums_of self.old) slot.now
            ≡ option_map (λ owned. (sums_of self.new, owned)) result }
    {
        let mut account = self.slave[slot.from as usize];
        if slot.replies {
            account = opening(place, self.asked[slot.to as usize]);
        }
        if !pay(&mut account, slot.cost) {
            return None;
        }
        self.slave[slot.from as usize] = account;
        Some(OwnedSlot {
            session: account.session,
            slot: *slot,
        })
    }

    // The master forms a slot. None where its session hasn't the credit.
    fn master_forms(&mut self, slot: &SlotFacts) -> Option<OwnedSlot>
        ensures { master_forms (sums_of self.old) slot.now
            ≡ option_map (λ owned. (sums_of self.new, owned)) result }
    {
        let account = &mut self.master[slot.to as usize];
        if !pay(account, slot.cost) {
            return None;
        }
        let session = if slot.asks { 0 } else { account.session };
        Some(OwnedSlot {
            session,
            slot: *slot,
        })
    }

    // An end forms a slot, which is that of this place where the end is the slave. None where its session hasn't the credit.
    fn forms(&mut self, by_master: bool, place: u128, slot: &SlotFacts) -> Option<OwnedSlot>
        ensures { forms by_master place (sums_of self.old) slot.now
            ≡ option_map (λ owned. (sums_of self.new, owned)) result }
    {
        if by_master {
            self.master_forms(slot)
        } else {
            self.slave_forms(place, slot)
        }
    }

    /// An end forms the slots of a message, behind so many of the slave. None where a session hasn't its credit. Takes memory for
    /// the slots with their sessions.
    pub fn forms_all(
        &mut self,
        alloc: Global,
        by_master: bool,
        places: u128,
        slots: &[SlotFacts],
    ) -> Result<Option<Vec<OwnedSlot>>, Memory>
        ensures { IfOk result (λ formed.
            FormsAll by_master places self.old self.new slots.now formed) }
    {
        let mut formed = Vec::with_capacity(alloc, slots.len())?;
        let mut place = places;
        for slot in slots {
            place = place.saturating_add(1);
            let Some(owned) = self.forms(by_master, place, slot) else {
                return Ok(None);
            };
            formed.push(owned)?;
        }
        Ok(Some(formed))
    }
}
