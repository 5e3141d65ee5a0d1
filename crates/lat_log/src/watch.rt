//! What was seen last of a core, and what is new of it.

ghost use Rattle.std.specs.Prelude.{◌≡◌, ◌≤◌, ◌++◌, ◌∷◌, [], IfOk, OnOk, OnErr, map, length, nat_lt};
ghost use Rattle.std.specs.List.{flat_map};
ghost use Rattle.lat_log.specs.LeftNews.{left_of, unseen};
ghost use Rattle.lat_log.specs.Sights.{gathered, node_offers, one, sight_of, waiting_for};
ghost use Rattle.lat_log.specs.Watches.{Sight, news_of, seen_next, services_new, services_next, unseen_lines, shown};

use crate::circuits::circuits_onto;
use crate::entry::{Flow, Offered};
use crate::left::{Left, left_onto};
use crate::lines::{lines_onto, next_of};
use crate::news::News;
use crate::seen::{LineSeen, LineSight, Side, Waiting};
use crate::services::services_onto;
use crate::sight::{circuits_of, lines_of, services_of, waiting_of};
use crate::trigger::Trigger;
use crate::waiting::waiting_onto;
use lat_base::{CircuitLook, Core, Memory, Name};
use std::alloc::Global;
use std::marker::Model;

/// More services than these aren't compared: what was seen of them stays.
const SERVICES: usize = 512;

/// What was seen last of a core: its circuits, the newest session of each line, who waits for some services, what nodes announced,
/// and how much was left of what runs out. Contracts see these lists. It has no byte that went through a session.
#[derive(Drop)]
pub struct Watch {
    side: Side,
    names: Vec<Name>,
    circuits: Vec<CircuitLook>,
    lines: Vec<LineSeen>,
    waiting: Vec<Waiting>,
    services: Vec<Offered>,
    left: Left,
}

impl Model for Watch {
    ghost use Rattle.lat_log.specs.Watches.{Seen};

    ghost Value = { Seen };

    ghost view = { λ a. record {
      side = a.side;
      names = a.names.items;
      circuits = a.circuits.items;
      lines = a.lines.items;
      waiting = a.waiting.items;
      services = a.services.items;
      left = a.left;
    } };
}

// What a core shows at one hold of the lock.
#[derive(Drop)]
struct Shown {
    circuits: Vec<CircuitLook>,
    lines: Vec<LineSight>,
    waiting: Vec<Waiting>,
    left: Left,
}

impl Model for Shown {
    ghost use Rattle.lat_log.specs.Watches.{Sight};

    ghost Value = { Sight };

    ghost view = { λ a. record {
      circuits = a.circuits.items;
      lines = a.lines.items;
      waiting = a.waiting.items;
      left = a.left;
    } };
}

// Lines of which no session was seen, so many.
fn unseen_lines(alloc: Global, count: u8) -> Result<Vec<LineSeen>, Memory>
    ensures { IfOk result (λ v. v.items ≡ unseen_lines count) }
{
    let mut lines = Vec::new(alloc);
    for line in 0..count {
        lines.push(LineSeen {
            line: line + 1,
            session: None,
        })?;
    }
    Ok(lines)
}

impl Watch {
    /// Nothing was seen yet of a core with so many lines. Who waits is looked at for the services of these names, each of which
    /// should stand there once. `Memory` where none is found.
    pub fn make(alloc: Global, side: Side, lines: u8, names: Vec<Name>) -> Result<Watch, Memory>
        ensures { IfOk result (λ w. w ≡ record {
          side = side;
          names = names.items;
          circuits = [];
          lines = unseen_lines lines;
          waiting = [];
          services = [];
          left = unseen;
        }) }
    {
        Ok(Watch {
            side,
            names,
            circuits: Vec::new(alloc),
            lines: unseen_lines(alloc, lines)?,
            waiting: Vec::new(alloc),
            services: Vec::new(alloc),
            left: Left::unseen(),
        })
    }

    // What the core shows now.
    fn shown<C: Core>(&self, alloc: Global, core: &C, flows: &[Flow]) -> Result<Shown, Memory>
        requires { C.valid core.now }
        ensures { (s : C.State) → C.stands core.now s → IfOk result (λ v. v ≡
            shown (C.circuit_of s) (C.look_of s) (C.correspondent_of s) (C.waiter_of s)
            (left_of (C.ids_left_of s) (C.records_left_of s)) flows.now self.now) }
    {
        Ok(Shown {
            circuits: circuits_of(alloc, core)?,
            lines: lines_of(alloc, core, flows, self.lines.as_slice())?,
            waiting: waiting_of(alloc, core, self.names.as_slice())?,
            left: Left::of(core),
        })
    }

    // What is new by what the core shows.
    fn news(&self, alloc: Global, trigger: Trigger, shown: &Shown) -> Result<News, Memory>
        ensures { IfOk result (λ v. v ≡ news_of self.now trigger shown.now) }
    {
        let mut granted = News::new(alloc);
        lines_onto(&mut granted, self.side, shown.lines.as_slice())?;
        let mut news = News::new(alloc);
        circuits_onto(
            &mut news,
            self.side,
            trigger,
            self.circuits.as_slice(),
            shown.circuits.as_slice(),
        )?;
        news.append(granted.as_slice())?;
        waiting_onto(
            &mut news,
            granted.as_slice(),
            self.waiting.as_slice(),
            shown.waiting.as_slice(),
        )?;
        left_onto(&mut news, self.left, shown.left)?;
        Ok(news)
    }

    /// What is new of circuits, lines and requests since the last notice, in this order, and last what has come near its end. Behind
    /// it that is what was seen last. `trigger` is that of the event, and `flows` what each line carried so far, line 1 first.
    /// `Memory` where none is found: then nothing has changed.
    pub fn notice<C: Core>(
        &mut self,
        alloc: Global,
        core: &C,
        trigger: Trigger,
        flows: &[Flow],
    ) -> Result<News, Memory>
        requires { C.valid core.now }
        ensures news { (s : C.State) → C.stands core.now s → IfOk result (λ v. v ≡ news_of self.old trigger
            (shown (C.circuit_of s) (C.look_of s) (C.correspondent_of s) (C.waiter_of s)
            (left_of (C.ids_left_of s) (C.records_left_of s)) flows.now self.old)) }
        ensures seen { (s : C.State) → C.stands core.now s → OnOk result (self.new ≡ seen_next self.old
            (shown (C.circuit_of s) (C.look_of s) (C.correspondent_of s) (C.waiter_of s)
            (left_of (C.ids_left_of s) (C.records_left_of s)) flows.now self.old)) }
        ensures err { OnErr result (self.new ≡ self.old) }
    {
        let shown = self.shown(alloc, core, flows)?;
        let news = self.news(alloc, trigger, &shown)?;
        let Shown {
            circuits,
            lines: sights,
            waiting,
            left,
        } = shown;
        let lines = next_of(alloc, sights.as_slice())?;
        self.circuits = circuits;
        self.lines = lines;
        self.waiting = waiting;
        self.left = left;
        Ok(news)
    }

    /// What is new of the services that nodes announced since the last notice of them, and behind it that is what was seen last.
    /// Where more than 512 are announced, nothing is new, and what was seen stays. `Memory` where none is found: then nothing has
    /// changed.
    pub fn notice_services<C: Core>(&mut self, alloc: Global, core: &C) -> Result<News, Memory>
        requires { C.valid core.now }
        ensures news { (s : C.State) → C.stands core.now s → IfOk result (λ v. v ≡
            services_new self.old (gathered (node_offers (C.node_of s) (C.service_of s)) 0 256)) }
        ensures seen { (s : C.State) → C.stands core.now s → OnOk result (self.new ≡
            services_next self.old (gathered (node_offers (C.node_of s) (C.service_of s)) 0 256)) }
        ensures err { OnErr result (self.new ≡ self.old) }
    {
        let services = services_of(alloc, core)?;
        let mut news = News::new(alloc);
        if services.len() > SERVICES {
            return Ok(news);
        }
        services_onto(&mut news, self.services.as_slice(), services.as_slice())?;
        self.services = services;
        Ok(news)
    }
}
