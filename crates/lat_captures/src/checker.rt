//! The checker.

ghost use Rattle.std.specs.Prelude.{◌≡◌, ◌≤◌};

use crate::accounts::Accounts;
use crate::head::{RunHead, Title};
use crate::recent::{Recent, SentMessage};
use crate::rule::Rule;
use crate::side::{Near, Side, side_of, tests};
use crate::slot::SlotFacts;
use lat_base::Memory;
use std::alloc::Global;

/// What is kept of the RUNs of a capture, all of which keep the rules.
pub struct Checker {
    title: Title,
    master: Side,
    slave: Side,
    accounts: Accounts,
    // How many slots the slave has sent.
    places: u128,
    // How many RUNs there were.
    runs: u64,
    ghost counted: { (master.count ≤ runs) × (slave.count ≤ runs) },
}

impl Drop for Checker {
    fn drop(self) {
        let Self {
            title,
            master,
            slave,
            accounts,
            places,
            runs,
        } = self;
    }
}

impl Checker {
    ghost use Rattle.std.specs.Prelude.{◌+◌, ◌^◌, ◌<◌, nat_lt, IfOk};
    ghost use Rattle.lat_captures.specs.Steps.{side_of, tested, Counts, Acknowledges, SendsSlots};

    // Tests a RUN of an end, up to the rule on the window, and tells its numbers.
    fn tested(&self, by_master: bool, head: &RunHead, bare: bool, text: &[u8]) -> Result<Near, Rule>
        requires { self.now.runs + 3 < 2 ^ 64 }
        ensures { result ≡ tested self.now by_master head.now bare text.now }
    {
        let own = side_of(by_master, &self.master, &self.slave);
        let other = side_of(!by_master, &self.master, &self.slave);
        tests(&self.title, own, other, by_master, head, bare, text)
    }

    // Whether an end hasn't sent the message with this number.
    fn is_new(&self, by_master: bool, number: u64) -> bool
        ensures { result ≡ nat_lt (side_of self.now by_master).count number }
    {
        number > side_of(by_master, &self.master, &self.slave).count
    }

    // An end acknowledges so many messages of the other.
    fn acknowledge(&mut self, by_master: bool, ack: u64)
        ensures { Acknowledges by_master self.old self.new ack }
    {
        let own = side_of(by_master, &self.master, &self.slave);
        let other = side_of(!by_master, &self.master, &self.slave);
        let messages = other.between(own.acknowledged, ack);
        self.accounts.hears(by_master, messages);
        if by_master {
            self.master.acknowledged = ack;
        } else {
            self.slave.acknowledged = ack;
        }
    }

    // An end sends its next message, where the sessions have the credits for it.
    fn send(
        &mut self,
        alloc: Global,
        by_master: bool,
        slots: &[SlotFacts],
        text: &[u8],
    ) -> Result<bool, Memory>
        requires { self.old.runs + 1 < 2 ^ 64 }
        ensures { IfOk result (λ sent.
            SendsSlots by_master self.old self.new slots.now text.now sent) }
    {
        let Some(owned) = self
            .accounts
            .forms_all(alloc, by_master, self.places, slots)?
        else {
            return Ok(false);
        };
        if !by_master {
            self.places = self.places.saturating_add(owned.len() as u128);
        }
        let message = SentMessage::make(alloc, text, owned)?;
        self.runs += 1;
        if by_master {
            self.master.send(message)?;
        } else {
            self.slave.send(message)?;
        }
        Ok(true)
    }

    // A RUN that brings no new message.
    fn counts(&mut self)
        requires { self.old.runs + 1 < 2 ^ 64 }
        ensures { Counts self.old self.new }
    {
        self.runs += 1;
    }
}

impl Checker {
    ghost use Rattle.std.specs.Prelude.{◌+◌, ◌^◌, ◌<◌, ℕ, List, None, IfOk};
    ghost use Rattle.lat_model.specs.sessions.Slots.{Slot};
    ghost use Rattle.lat_captures.specs.Seen.{nothing, no_texts};
    ghost use Rattle.lat_captures.specs.Stands.{Stands};
    ghost use Rattle.lat_captures.specs.Answers.{runs_of, title_of, AnswersRunBy};

    /// A checker of a capture with this title, before its first RUN. Takes no memory.
    pub fn new(alloc: Global, title: Title) -> Checker
        ensures stands { (tell : List ℕ → List Slot) → Stands tell result nothing no_texts }
        ensures title { title_of result ≡ title }
        ensures runs { runs_of result ≡ 0 }
    {
        Checker {
            title,
            master: Side {
                count: 0,
                acknowledged: 0,
                recent: Recent::new(alloc),
            },
            slave: Side {
                count: 0,
                acknowledged: 0,
                recent: Recent::new(alloc),
            },
            accounts: Accounts::new(),
            places: 0,
            runs: 0,
        }
    }

    /// How many RUNs it has taken.
    pub fn runs(&self) -> u64
        ensures { result ≡ runs_of self.now }
    {
        self.runs
    }

    /// Takes a RUN of one end behind those before, or answers the first rule that it breaks, of those behind the rule on the layout;
    /// then the checker is of no more use. `text` is any text that tells the slots with all their fields; a message has 255 slots at
    /// most. Takes memory for a message that is new, or for nothing; without it the checker is of no more use either.
    pub fn run(
        &mut self,
        alloc: Global,
        by_master: bool,
        head: &RunHead,
        slots: &[SlotFacts],
        text: &[u8],
    ) -> Result<Option<Rule>, Memory>
        requires { runs_of self.old + 3 < 2 ^ 64 }
        ensures answer { AnswersRunBy by_master self.old head.now slots.now text.now self.new result }
        ensures runs { IfOk result (λ broken.
            broken ≡ None → runs_of self.new ≡ runs_of self.old + 1) }
        ensures title { IfOk result (λ broken.
            broken ≡ None → title_of self.new ≡ title_of self.old) }
    {
        let near = match self.tested(by_master, head, slots.is_empty(), text) {
            Ok(near) => near,
            Err(rule) => return Ok(Some(rule)),
        };
        let is_new = self.is_new(by_master, near.number);
        self.acknowledge(by_master, near.ack);
        if !is_new {
            self.counts();
            return Ok(None);
        }
        if self.send(alloc, by_master, slots, text)? {
            Ok(None)
        } else {
            Ok(Some(Rule::Credit))
        }
    }
}
