//! What a job's worker has before it.

ghost use Rattle.std.specs.Prelude.{◌≡◌, ◌≤◌, [], length};
ghost use Rattle.lat_jobs.specs.Minds.{mind_next};
ghost use Rattle.lat_jobs.specs.Runs.{left_in, number_in};
ghost use Rattle.lat_printing.specs.Desks.{IsPlain, desk_told, fresh_desk, offer_of};

use crate::hand::Hand;
use crate::tray::Tray;
use lat_base::{Item, Items};
use lat_jobs::{Fact, JobMind, Look, Move, Phase};
use std::alloc::Global;
use std::marker::Model;

/// A job's mind, and the bytes and items that it counts. Contracts see all three.
#[derive(Drop)]
pub struct JobDesk {
    mind: JobMind,
    hand: Hand,
    tray: Tray,
}

impl Model for JobDesk {
    ghost use Rattle.lat_printing.specs.Desks.{DeskView};

    ghost Value = { DeskView };

    ghost view = { λ a. record { mind = a.mind; hand = a.hand; desk = a.tray } };
}

impl JobDesk {
    /// The desk of a job whose client has just come. It takes no memory.
    pub fn new(alloc: Global) -> JobDesk
        ensures { result ≡ fresh_desk }
    {
        JobDesk {
            mind: JobMind::make(),
            hand: Hand::new(),
            tray: Tray::new(alloc),
        }
    }

    /// The next move at this look. `turn` says whether the job may ask.
    pub fn next(&self, see: &Look, turn: bool) -> Move
        ensures { result ≡ mind_next self.now.mind see.now turn }
    {
        self.mind.next(see, turn)
    }

    /// The number of the job's request, 0 where none stands.
    pub fn number(&self) -> u16
        ensures { result ≡ number_in self.now.mind.phase }
    {
        match self.mind.phase() {
            Phase::Asking(ask) => ask.number,
            Phase::Printing(print) => print.number,
            _ => 0,
        }
    }

    fn left(&self) -> u16
        ensures { result ≡ left_in self.now.mind.phase }
    {
        match self.mind.phase() {
            Phase::Printing(print) => print.left,
            _ => 0,
        }
    }

    /// What a put offers: all that was read of the client and not yet put.
    pub fn offer(&self) -> &[u8]
        ensures { result.now ≡ offer_of self.now }
    {
        self.hand.front(self.left())
    }

    /// A turn of which neither bytes nor items came.
    pub fn told(&mut self, see: &Look, fact: Fact)
        requires { IsPlain fact }
        ensures { self.new ≡ desk_told self.old see.now fact [] [] }
    {
        self.mind.told(see, fact);
    }

    /// A put took so many of the bytes that were offered, the first ones.
    pub fn put(&mut self, see: &Look, count: u16)
        requires { count ≤ length (offer_of self.old) }
        ensures { self.new ≡ desk_told self.old see.now (Fact.Put count) [] [] }
    {
        self.hand.took(count);
        self.mind.told(see, Fact::Put(count));
    }

    /// A take gave these items.
    pub fn took(&mut self, see: &Look, items: Items)
        requires { length items ≤ 65535 }
        ensures { self.new ≡ desk_told self.old see.now (Fact.Took (length items)) [] items }
    {
        let count = items.as_slice().len() as u16;
        self.mind.told(see, Fact::Took(count));
        self.tray.take(items);
    }

    /// The items that were taken and not yet written.
    pub fn items(&self) -> &[Item]
        ensures { result.now ≡ self.now.desk }
    {
        self.tray.all()
    }
}
